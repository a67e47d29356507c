//! Laws of the runs of a plain store. Each stands on a function without a body, so that the check proves it.
ghost use Rattle.std.specs.Prelude.{◌≡◌, List};
ghost use Rattle.uid_names.specs.Names.{ProcName};
ghost use Rattle.uid_names.specs.Openings.{Start};
ghost use Rattle.dom_history.specs.declared.op.Want.{Want};
ghost use Rattle.dom_history.specs.declared.op.Entry.{Entry};
ghost use Rattle.dom_history.specs.Histories.{History, told, entries};
ghost use Rattle.dom_history.specs.Follows.{Heard};
ghost use Rattle.dom_history.specs.Runs.{AreAnswered};
ghost use Rattle.plain_store.specs.PlainRuns.{history_of, ArePlainEntries, IsPlainRun};

/// A plain run is its entries, each answered as one store answers it.
pub fn plain_runs_are_their_entries()
    ensures answered { (opening : Start) → (asks : ProcName → Heard → Want) → (h : History) → IsPlainRun opening asks h → AreAnswered opening (told (entries h.items)) }
    ensures whole { (opening : Start) → (asks : ProcName → Heard → Want) → (h : History) → IsPlainRun opening asks h → h ≡ history_of (entries h.items) }
{}

/// Entries that one store answered, phase by phase to the end of all programs, are a plain run.
pub fn answered_entries_are_plain_runs()
    ensures entries { (es : List Entry) → entries (history_of es).items ≡ es }
    ensures plain { (opening : Start) → (asks : ProcName → Heard → Want) → (es : List Entry) → ArePlainEntries opening asks es → IsPlainRun opening asks (history_of es) }
{}
