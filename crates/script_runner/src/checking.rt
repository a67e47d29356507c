//! The command `check`: what is said of a script and a journal, and how it is written.
ghost use Rattle.std.specs.Prelude.{◌≡◌, ◌+◌, ◌≤◌, length, map, IfOk, IsErrOf};
ghost use Rattle.dom_io.specs.Counts.{CountRose};
ghost use Rattle.dom_io.specs.Known.{TakesAtMost};
ghost use Rattle.script_runs.specs.Reports.{lines_of, names_of as names_in};
ghost use Rattle.script_runner.specs.Checking.{yes_text, IsVerdict, IsSaidOfFew, IsSaidOfSource, PromiseOfCheck};
ghost use Rattle.script_runner.specs.Outside.{from_to, over};
ghost use Rattle.script_runner.specs.Reports.{answers_in};

use crate::checks::{CheckedJournal, check_script};
use crate::names::names_of;
use crate::parted::parted;
use crate::report::report;
use crate::texts::{line_text, refusal, write_text};
use dom_io::{ReadEnd, Sink, Source, read_all};
use dom_text::put_decimal;
use journal_check::{CheckFault, JOURNAL_BYTES, a_journal_has_one_verdict, a_script_can_be_run};
use script_reader::laws::scripts_have_one_reading;
use script_reader::{Cause, Script, ScriptFault, read_script};
use std::alloc::Global;
use thiserror::Error;
use uid_names::{ByteList, NoMemory};

/// What is said of a source, and the status that says it.
#[derive(Drop)]
pub(crate) struct Said {
    pub(crate) status: u8,
    pub(crate) text: ByteList,
}

/// Why nothing is said.
#[derive(Clone, Copy, Debug, PartialEq, Eq, Error)]
pub(crate) enum CheckEnd {
    #[error("a read failed")]
    ReadFault,
    #[error("no memory")]
    NoMemory,
}

impl From<NoMemory> for CheckEnd {
    ghost use Rattle.std.specs.Prelude.{◌≡◌};
    ghost use Rattle.script_runner.specs.declared.checking.CheckEnd.TheVariants.{NoMemory as OutOfMemory};

    ghost from_gives = { λ _ e. e ≡ OutOfMemory };

    fn from(_error: NoMemory) -> CheckEnd {
        CheckEnd::NoMemory
    }
}

/// What is told of a journal that is accepted: how many events it has, and the report.
fn yes(alloc: Global, script: &Script, checked: &CheckedJournal) -> Result<ByteList, NoMemory>
    ensures { IfOk result (λ text. text ≡ yes_text checked.now.events (lines_of (names_in script.now) (map answers_in checked.now.answers))) }
{
    let names = names_of(alloc, script.nodes())?;
    let report = report(alloc, &names, checked.answers.items())?;
    let mut text = ByteList::from_slice(alloc, b"yes ")?;
    put_decimal(&mut text, checked.events)?;
    text.extend(b"\n")?;
    text.extend(report.bytes())?;
    Ok(text)
}

/// What is said of a script and the bytes behind it.
fn verdict(alloc: Global, script: &Script, journal: &[u8]) -> Result<Said, NoMemory>
    requires few { length journal.now ≤ JOURNAL_BYTES }
    ensures { IfOk result (λ said. IsVerdict script.now journal.now said.status said.text) }
{
    match check_script(alloc, script, journal) {
        Ok(checked) => Ok(Said {
            status: 0,
            text: yes(alloc, script, &checked)?,
        }),
        Err(CheckFault::No { line, cause }) => Ok(Said {
            status: 9,
            text: line_text(alloc, line, cause.text())?,
        }),
        Err(CheckFault::NoMemory) => Err(NoMemory),
    }
}

/// What is said of bytes that are not too many.
fn said_of(alloc: Global, bytes: &[u8]) -> Result<Said, NoMemory>
    requires few { length bytes.now ≤ JOURNAL_BYTES }
    ensures { IfOk result (λ said. IsSaidOfFew bytes.now said.status said.text) }
{
    let Some((script, journal)) = parted(bytes) else {
        return Ok(Said {
            status: 9,
            text: line_text(alloc, 0, "no journal")?,
        });
    };
    match read_script(alloc, script) {
        Ok(script) => verdict(alloc, &script, journal),
        Err(ScriptFault::Bad { line, cause }) => Ok(Said {
            status: 3,
            text: refusal(alloc, line, cause)?,
        }),
        Err(ScriptFault::NoMemory) => Err(NoMemory),
    }
}

/// What is said of the bytes that a source has left.
fn said_of_source<S: Source>(alloc: Global, source: &mut S) -> Result<Said, CheckEnd>
    ensures said { IfOk result (λ said. IsSaidOfSource (from_to (S.left source.old) (S.left source.new)) said.status said.text) }
    ensures read_fault { IsErrOf result CheckEnd.ReadFault → CountRose (S.faults source.old) (S.faults source.new) }
    ensures taken { TakesAtMost (JOURNAL_BYTES + 1) (S.left source.old) (S.left source.new) }
    ensures count { S.faults source.old ≤ S.faults source.new }
{
    match read_all(alloc, source, JOURNAL_BYTES) {
        Ok(bytes) => Ok(said_of(alloc, bytes.bytes())?),
        Err(ReadEnd::TooLong) => Ok(Said {
            status: 3,
            text: refusal(alloc, 0, Cause::TooLong)?,
        }),
        Err(ReadEnd::ReadFault) => Err(CheckEnd::ReadFault),
        Err(ReadEnd::NoMemory) => Err(CheckEnd::NoMemory),
    }
}

/// Checks whether the journal behind a script is that of a run of it, and writes what is said of them: the status.
pub(crate) fn check_source<S: Source, O: Sink>(alloc: Global, source: &mut S, out: &mut O) -> u8
    ensures { PromiseOfCheck (over S.left S.faults source.old source.new) (over O.held O.faults out.old out.new) result }
{
    // So one thing alone can be said of bytes.
    scripts_have_one_reading();
    a_script_can_be_run();
    a_journal_has_one_verdict();
    match said_of_source(alloc, source) {
        Ok(said) => write_text(out, said.text.bytes(), said.status),
        Err(CheckEnd::ReadFault) => 4,
        Err(CheckEnd::NoMemory) => 7,
    }
}
