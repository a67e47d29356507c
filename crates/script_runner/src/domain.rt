//! The program: from its words and a script to what is told of its run, and the journal.
ghost use Rattle.std.specs.Prelude.{◌≡◌, ◌≢◌, ◌+◌, ◌≤◌, ◌⊎◌, map, IfOk, IfErr, IsErrOf};
ghost use Rattle.dom_io.specs.Counts.{CountRose};
ghost use Rattle.dom_io.specs.Known.{TakesAtMost};
ghost use Rattle.script_runner.specs.declared.words.Asked.{Asked};
ghost use Rattle.script_runner.specs.declared.words.Asked.TheVariants.{Reads, Generates};
ghost use Rattle.script_runner.specs.Checking.{PromiseOfCheck};
ghost use Rattle.script_runner.specs.Words.{AskFor, AskToCheck, IsTaken, turns_of};
ghost use Rattle.script_runner.specs.Reports.{answers_in};
ghost use Rattle.script_runner.specs.Outside.{Bytes, from_to, over, IsSame, Fails, Adds, AddsPart};
ghost use Rattle.script_runner.specs.Domain.{IsScriptFor, LimitFor};
ghost use Rattle.script_runner.specs.Promises.{IsStatusOf, RefusesWords, Promised};
ghost use Rattle.script_runner.specs.DueTexts.{told_for, IsEndOf, IsDueFor, IsRead, IsUnread};

use crate::checking::check_source;
use crate::names::names_of;
use crate::report::report;
use crate::run::{AnswerRow, MergedRan, run_merged};
use crate::run_journal::RunJournal;
use crate::summary::summary;
use crate::texts::{refusal, write_text};
use crate::words::{Asked, ask_to_check, words_asked};
use dom_history::NodeNames;
use dom_io::{ReadEnd, Sink, Source, read_all, write_all};
use node_core::RunFault;
use node_threads::Gate;
use script_maker::generate;
use script_reader::laws::scripts_have_one_reading;
use script_reader::{Cause, Script, ScriptFault, read_script};
use std::alloc::Global;
use std::sync::Wait;
use std::thread::Threads;
use thiserror::Error;
use uid_names::{ByteList, NoMemory, SCRIPT_BYTES};

const USAGE: &[u8; 75] =
    b"usage: domain run [--turns N] | domain gen SEED [--turns N] | domain check\n";

/// No event of a run that the program tells of gives a node this tick.
pub const LAST_TICK: u64 = 1 << 40;

/// What is due for a script.
#[derive(Drop)]
pub(crate) enum Due {
    /// What is told of the script's run, and its journal.
    Run(ByteList, RunJournal),
    /// What is said of the first bad line.
    Refusal(ByteList),
}

/// Why nothing is due.
#[derive(Clone, Copy, Debug, PartialEq, Eq, Error)]
pub(crate) enum RunEnd {
    #[error("a read failed")]
    ReadFault,
    #[error("a node came to the last tick")]
    TickLimit,
    #[error("no memory")]
    NoMemory,
}

impl From<NoMemory> for RunEnd {
    ghost use Rattle.std.specs.Prelude.{◌≡◌};
    ghost use Rattle.script_runner.specs.declared.domain.RunEnd.TheVariants.{NoMemory as OutOfMemory};

    ghost from_gives = { λ _ e. e ≡ OutOfMemory };

    fn from(_error: NoMemory) -> RunEnd {
        RunEnd::NoMemory
    }
}

/// What is told of these answers: the report, or the line that sums up those of a script that was generated.
fn told(
    alloc: Global,
    asked: Asked,
    names: &NodeNames,
    rows: &[AnswerRow],
) -> Result<ByteList, NoMemory>
    ensures { IfOk result (λ text. text ≡ told_for asked names.now (map answers_in rows.now)) }
{
    match asked {
        Asked::Reads { .. } => report(alloc, names, rows),
        Asked::Generates { seed, .. } => summary(alloc, seed, rows),
    }
}

/// What is told of a run of the script that is asked for, and its journal, which are made whole.
fn run_due<K: Gate, R: Threads + Wait + Sync>(
    rt: &R,
    alloc: Global,
    asked: Asked,
    script: &Script,
    gate: &K,
) -> Result<Due, RunEnd>
    ensures due { (left : Bytes) → IsScriptFor asked left script.now → IfOk result (IsDueFor asked left) }
    ensures end { IfErr result (IsEndOf script.now (turns_of asked)) }
{
    let ran = run_merged(rt, alloc, script, asked.turns(), LAST_TICK, gate);
    let MergedRan { events, answers } = match ran {
        Ok(ran) => ran,
        Err(RunFault::TickLimit(_)) => return Err(RunEnd::TickLimit),
        Err(RunFault::NoMemory) => return Err(RunEnd::NoMemory),
    };
    let names = names_of(alloc, script.nodes())?;
    let text = told(alloc, asked, &names, answers.items())?;
    Ok(Due::Run(text, RunJournal::new(events, names)))
}

/// What is due for the bytes that a source has left.
fn read_due<S: Source, K: Gate, R: Threads + Wait + Sync>(
    rt: &R,
    alloc: Global,
    turns: Option<u64>,
    script: &mut S,
    gate: &K,
) -> Result<Due, RunEnd>
    ensures due { IfOk result (IsDueFor (Reads turns) (from_to (S.left script.old) (S.left script.new))) }
    ensures read_fault { IsErrOf result RunEnd.ReadFault → CountRose (S.faults script.old) (S.faults script.new) }
    ensures limit { IsErrOf result RunEnd.TickLimit → LimitFor (Reads turns) (from_to (S.left script.old) (S.left script.new)) }
    ensures taken { TakesAtMost (SCRIPT_BYTES + 1) (S.left script.old) (S.left script.new) }
    ensures count { S.faults script.old ≤ S.faults script.new }
{
    let bytes = match read_all(alloc, script, SCRIPT_BYTES) {
        Ok(bytes) => bytes,
        Err(ReadEnd::ReadFault) => return Err(RunEnd::ReadFault),
        Err(ReadEnd::TooLong) => return Ok(Due::Refusal(refusal(alloc, 0, Cause::TooLong)?)),
        Err(ReadEnd::NoMemory) => return Err(RunEnd::NoMemory),
    };
    match read_script(alloc, bytes.bytes()) {
        Ok(read) => run_due(rt, alloc, Asked::Reads { turns }, &read, gate),
        Err(ScriptFault::Bad { line, cause }) => Ok(Due::Refusal(refusal(alloc, line, cause)?)),
        Err(ScriptFault::NoMemory) => Err(RunEnd::NoMemory),
    }
}

/// What is due for the script that is generated from a seed.
fn generated_due<K: Gate, R: Threads + Wait + Sync>(
    rt: &R,
    alloc: Global,
    seed: u64,
    turns: Option<u64>,
    gate: &K,
) -> Result<Due, RunEnd>
    ensures due { (left : Bytes) → IfOk result (IsDueFor (Generates seed turns) left) }
    ensures no_read_fault { IsErrOf result RunEnd.ReadFault → ⊥ }
    ensures limit { (left : Bytes) → IsErrOf result RunEnd.TickLimit → LimitFor (Generates seed turns) left }
{
    let script = generate(alloc, seed)?;
    run_due(rt, alloc, Asked::Generates { seed, turns }, &script, gate)
}

/// What is due for the script that is asked for; a source is read only for one that is not generated.
fn asked_due<S: Source, K: Gate, R: Threads + Wait + Sync>(
    rt: &R,
    alloc: Global,
    asked: Asked,
    script: &mut S,
    gate: &K,
) -> Result<Due, RunEnd>
    ensures due { IfOk result (IsDueFor asked (from_to (S.left script.old) (S.left script.new))) }
    ensures read_fault { IsErrOf result RunEnd.ReadFault → CountRose (S.faults script.old) (S.faults script.new) }
    ensures read { IsErrOf result RunEnd.ReadFault → IsRead asked }
    ensures limit { IsErrOf result RunEnd.TickLimit → LimitFor asked (from_to (S.left script.old) (S.left script.new)) }
    ensures taken { TakesAtMost (SCRIPT_BYTES + 1) (S.left script.old) (S.left script.new) }
    ensures count { S.faults script.old ≤ S.faults script.new }
    ensures unread { IsUnread asked (over S.left S.faults script.old script.new) }
{
    match asked {
        Asked::Reads { turns } => read_due(rt, alloc, turns, script, gate),
        Asked::Generates { seed, turns } => generated_due(rt, alloc, seed, turns, gate),
    }
}

/// Writes what is told of a run, and then the journal: 0, or 5 where a write of the text failed, 6 where one of the journal did,
/// and 7, before anything is written, without memory.
fn write_run<O: Sink, J: Sink>(
    alloc: Global,
    out: &mut O,
    journal: &mut J,
    text: &[u8],
    run: &RunJournal,
) -> u8
    ensures status { (result ≡ 0) ⊎ ((result ≡ 5) ⊎ ((result ≡ 6) ⊎ (result ≡ 7))) }
    ensures told { result ≢ 5 → result ≢ 7 → Adds (over O.held O.faults out.old out.new) text.now }
    ensures fault { result ≡ 5 → Fails (over O.held O.faults out.old out.new) }
    ensures text_cut { result ≡ 5 → AddsPart (over O.held O.faults out.old out.new) text.now }
    ensures no_journal { (result ≡ 5) ⊎ (result ≡ 7) → IsSame (over J.held J.faults journal.old journal.new) }
    ensures nothing_told { result ≡ 7 → IsSame (over O.held O.faults out.old out.new) }
    ensures written { result ≡ 0 → Adds (over J.held J.faults journal.old journal.new) run.now }
    ensures journal_fault { result ≡ 6 → Fails (over J.held J.faults journal.old journal.new) }
    ensures lines_cut { result ≡ 6 → AddsPart (over J.held J.faults journal.old journal.new) run.now }
    ensures out_count { O.faults out.old ≤ O.faults out.new }
    ensures journal_count { J.faults journal.old ≤ J.faults journal.new }
{
    let Ok(lines) = run.lines(alloc) else {
        return 7;
    };
    if write_all(out, text).is_err() {
        return 5;
    }
    match lines.write(journal) {
        Ok(()) => 0,
        Err(_) => 6,
    }
}

/// Runs what the words ask for, and writes what is due: the status.
fn run_asked<S: Source, O: Sink, J: Sink, K: Gate, R: Threads + Wait + Sync>(
    rt: &R,
    alloc: Global,
    asked: Asked,
    script: &mut S,
    out: &mut O,
    journal: &mut J,
    gate: &K,
) -> u8
    ensures statuses { IsStatusOf (over S.left S.faults script.old script.new) (over O.held O.faults out.old out.new) (over J.held J.faults journal.old journal.new) result }
    ensures kept { Promised asked (over S.left S.faults script.old script.new) (over O.held O.faults out.old out.new) (over J.held J.faults journal.old journal.new) result }
{
    // So bytes that are a script have no bad line.
    scripts_have_one_reading();
    match asked_due(rt, alloc, asked, script, gate) {
        Ok(Due::Run(text, lines)) => write_run(alloc, out, journal, text.bytes(), &lines),
        Ok(Due::Refusal(text)) => write_text(out, text.bytes(), 3),
        Err(RunEnd::ReadFault) => 4,
        Err(RunEnd::NoMemory) => 7,
        Err(RunEnd::TickLimit) => 8,
    }
}

/// Runs the program: `words` are those of the command line, `script` is standard input, `out` standard output and
/// `journal` standard error. What is told of a run is the report of the script that was read, or the line that sums up the
/// run of the one that was generated. Where the words say a number of turns the nodes run on one thread; else each has a thread of its
/// own, the gate delays commands, and the call may wait. Where the word is `check` nothing is run: the source has a script, a line
/// `--- journal`, and a journal, and `journal` stays as it was. The answer is the exit status:
///
/// - 0: what is told of a run of the script was written, and the journal; or the journal is that of an ended and recent run of its script,
///   by its faults, and how many events it has was written, and the report;
/// - 2: the words are not taken, and the usage was written;
/// - 3: the source has no script, and its first bad line was named with the cause;
/// - 4: a read failed;
/// - 5: a write to `out` failed;
/// - 6: what is told of a run was written, and a write to `journal` failed;
/// - 7: there was no memory;
/// - 8: a node came to the last tick;
/// - 9: there is no line `--- journal`, or the journal is not that of such a run, and its line at fault was named with the cause.
///
/// Nothing takes memory once that begins to be written.
pub fn run_domain<S: Source, O: Sink, J: Sink, K: Gate, R: Threads + Wait + Sync>(
    rt: &R,
    alloc: Global,
    words: &[String],
    script: &mut S,
    out: &mut O,
    journal: &mut J,
    gate: &K,
) -> u8
    // Whatever the words are, but `check`: a status of failure only where the count of faults rose, what stays as it was, and what was taken.
    ensures statuses { (AskToCheck words.now → ⊥) →
        IsStatusOf (over S.left S.faults script.old script.new) (over O.held O.faults out.old out.new) (over J.held J.faults journal.old journal.new) result }

    // Words that are not taken: the usage is written, or a first part of it where a write fails, and nothing is read.
    ensures words_refused { (IsTaken words.now → ⊥) → RefusesWords (over S.left S.faults script.old script.new) (over O.held O.faults out.old out.new) result }

    // The headline: the words ask for this, and so this is promised. At 0 what is written is the report and the journal of one run
    // of the script's nodes, which is planned by its faults, and the one that the number of turns picks where the words say one. All
    // nodes have ended in it. Its history is one of one store without nodes or caches, and holds each process's commands once and in
    // order, to their end, in phases that never overlap; the report is exactly its answers, just one for each command. And at each
    // unlock of a held lock what its process stored last is at its home; and everything is, where no other process holds the
    // object shared. What was taken out of a mailbox to which it has no stores but those of putm and takem is at each place a first
    // part of what was put, with at most 56 texts between, and its commands are answered so. Where the words ask for the script of a
    // seed it is the generated one, and in place of the report stands the line that sums up its answers.
    ensures kept { (a : Asked) → AskFor words.now a → Promised a (over S.left S.faults script.old script.new)
        (over O.held O.faults out.old out.new) (over J.held J.faults journal.old journal.new) result }

    // The word `check`: what is written is what is to be said of the source's bytes, and no other status and text can be said of them. At 0 the
    // journal is that of a run of the script as the one above, and the report is that of its history; at 9 it is of no such run, by the line and
    // the first cause that are named.
    ensures checked { AskToCheck words.now → PromiseOfCheck (over S.left S.faults script.old script.new) (over O.held O.faults out.old out.new) result }
    ensures checked_alone { AskToCheck words.now → IsSame (over J.held J.faults journal.old journal.new) }
{
    if ask_to_check(words) {
        return check_source(alloc, script, out);
    }
    let Some(asked) = words_asked(words) else {
        return write_text(out, USAGE, 2);
    };
    run_asked(rt, alloc, asked, script, out, journal, gate)
}
