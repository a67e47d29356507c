//! The journal of a run before it is written.
ghost use Rattle.std.specs.Prelude.{◌≡◌, All, IfOk};
ghost use Rattle.journal_text.specs.Lines.{Names, journal};

use dom_history::{MergedLogs, NodeNames};
use journal_text::JournalLines;
use std::alloc::Global;
use std::marker::Model;
use uid_names::NoMemory;

/// The events of a run and the names of its nodes, each of which has one.
#[derive(Drop)]
pub(crate) struct RunJournal {
    events: MergedLogs,
    names: NodeNames,
}

impl Model for RunJournal {
    ghost use Rattle.std.specs.Prelude.{ℕ, List, All};
    ghost use Rattle.journal_text.specs.Lines.{Names, journal};

    ghost Value = { List ℕ };

    ghost view = { λ j. journal j.names j.events.events };

    ghost invariant = { λ j. All (Names j.names) j.events.events };
}

impl RunJournal {
    /// The journal of these events. Takes no memory.
    pub(crate) fn new(events: MergedLogs, names: NodeNames) -> RunJournal
        requires { All (Names names) events.events }
        ensures { result ≡ journal names events.events }
    {
        RunJournal { events, names }
    }

    /// Its lines, which can be written without memory.
    pub(crate) fn lines(&self, alloc: Global) -> Result<JournalLines<'_>, NoMemory>
        ensures { IfOk result (λ lines. lines ≡ self.now) }
    {
        JournalLines::new(alloc, &self.events, &self.names)
    }
}
