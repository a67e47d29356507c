//! Standard input: a script, or a script and a journal behind it.
ghost use Rattle.std.specs.Prelude.{◌≡◌, ◌≤◌, length, Some, None, IfOk, OnOk};
ghost use Rattle.std.specs.Io.KnownBytes.{IsAtEnd};
ghost use Rattle.script_reader.specs.Grammar.{IsScript};
ghost use Rattle.script_runner.specs.Domain.{AreLeft, IsSourceOf};
ghost use Rattle.script_runner.specs.Outside.{from_to};
ghost use Rattle.run_views.specs.Shown.{AreOfTurns, AreOfJournal};
ghost use Rattle.view_program.specs.Read.{IsRead, IsRunOfTurns, IsRunOfJournal};

use dom_io::{ReadEnd, Source, read_all};
use dom_text::put_decimal;
use event_views::RunView;
use journal_check::{CheckFault, JOURNAL_BYTES};
use node_core::RunFault;
use run_views::{run_in_turns, run_of_journal};
use script_reader::{Cause, Script, ScriptFault, read_script};
use script_runner::parted::parted;
use std::alloc::Global;
use uid_names::{ByteList, NoMemory, SCRIPT_BYTES};

/// The status of words that are not taken, or that name what the script does not have.
pub(crate) const NOT_TAKEN: u8 = 2;

/// What is said, and the status that says it. Nothing is said where a read failed, a node came to the last tick or memory was wanted.
#[derive(Drop, Debug)]
pub struct Said {
    pub status: u8,
    pub text: Option<ByteList>,
}

impl Said {
    /// This text.
    pub fn new(status: u8, text: ByteList) -> Said
        ensures { result ≡ record { status = status; text = Some text } }
    {
        Said {
            status,
            text: Some(text),
        }
    }

    /// Nothing but the status.
    pub fn nothing(status: u8) -> Said
        ensures { result ≡ record { status = status; text = None } }
    {
        Said { status, text: None }
    }
}

impl From<NoMemory> for Said {
    fn from(_error: NoMemory) -> Said {
        Said::nothing(7)
    }
}

/// What is said of a line, and why, in the words of `domain`.
fn line_text(alloc: Global, line: u64, why: &str) -> Result<ByteList, NoMemory> {
    let mut text = ByteList::from_slice(alloc, b"line ")?;
    put_decimal(&mut text, line)?;
    text.extend(b": ")?;
    text.extend(why.as_bytes())?;
    text.extend(b"\n")?;
    Ok(text)
}

/// What is said of a bad line of a script.
fn refusal(alloc: Global, line: u32, cause: Cause) -> Result<Said, NoMemory> {
    let text = line_text(alloc, u64::from(line), cause.text())?;
    Ok(Said::new(3, text))
}

/// All bytes of a source that may have so many.
fn bytes_of<S: Source>(alloc: Global, source: &mut S, limit: u32) -> Result<ByteList, Said>
    ensures all { IfOk result (AreLeft (S.left source.old)) }
    ensures end { OnOk result (IsAtEnd (S.left source.new)) }
    ensures within { IfOk result (λ bytes. length bytes ≤ limit) }
{
    match read_all(alloc, source, limit) {
        Ok(bytes) => Ok(bytes),
        Err(ReadEnd::TooLong) => Err(refusal(alloc, 0, Cause::TooLong)?),
        Err(ReadEnd::ReadFault) => Err(Said::nothing(4)),
        Err(ReadEnd::NoMemory) => Err(Said::nothing(7)),
    }
}

/// The script of these bytes.
fn script_of(alloc: Global, bytes: &[u8]) -> Result<Script, Said>
    ensures { IfOk result (IsScript bytes.now) }
{
    match read_script(alloc, bytes) {
        Ok(script) => Ok(script),
        Err(ScriptFault::Bad { line, cause }) => Err(refusal(alloc, line, cause)?),
        Err(ScriptFault::NoMemory) => Err(Said::nothing(7)),
    }
}

/// The script that a source has.
pub(crate) fn read_input<S: Source>(alloc: Global, source: &mut S) -> Result<Script, Said>
    ensures { IfOk result (IsSourceOf (from_to (S.left source.old) (S.left source.new))) }
{
    let bytes = bytes_of(alloc, source, SCRIPT_BYTES)?;
    script_of(alloc, bytes.bytes())
}

/// A run of a script, and the number of turns that picked it; None where a journal did.
#[derive(Drop)]
pub(crate) struct ReadRun {
    pub(crate) run: RunView,
    pub(crate) turns: Option<u64>,
}

/// Two runs of a script.
#[derive(Drop)]
pub(crate) struct BothRuns {
    pub(crate) first: ReadRun,
    pub(crate) second: ReadRun,
}

/// The run of a script in the turns of a number.
fn run_of_turns(alloc: Global, script: &Script, source: &[u8], turns: u64) -> Result<ReadRun, Said>
    ensures { IfOk result (λ read. AreOfTurns script.now turns read.run.events) }
{
    match run_in_turns(alloc, script, source, turns) {
        Ok(run) => Ok(ReadRun {
            run,
            turns: Some(turns),
        }),
        Err(RunFault::TickLimit(_)) => Err(Said::nothing(8)),
        Err(RunFault::NoMemory) => Err(Said::nothing(7)),
    }
}

/// The run of a script that has this journal.
fn run_of_text(
    alloc: Global,
    script: &Script,
    source: &[u8],
    journal: &[u8],
) -> Result<ReadRun, Said>
    requires { length journal.now ≤ JOURNAL_BYTES }
    ensures { IfOk result (λ read. AreOfJournal script.now journal.now read.run.events) }
{
    match run_of_journal(alloc, script, source, journal) {
        Ok(run) => Ok(ReadRun { run, turns: None }),
        Err(CheckFault::No { line, cause }) => {
            Err(Said::new(9, line_text(alloc, line, cause.text())?))
        }
        Err(CheckFault::NoMemory) => Err(Said::nothing(7)),
    }
}

/// The run of the script of these bytes in the turns of a number.
fn run_in(alloc: Global, source: &[u8], turns: u64) -> Result<ReadRun, Said>
    ensures { IfOk result (λ read. IsRunOfTurns source.now turns read.run.events) }
{
    let script = script_of(alloc, source)?;
    run_of_turns(alloc, &script, source, turns)
}

/// The run of the script of these bytes that has this journal.
fn run_behind(alloc: Global, source: &[u8], journal: &[u8]) -> Result<ReadRun, Said>
    requires { length journal.now ≤ JOURNAL_BYTES }
    ensures { IfOk result (λ read. IsRunOfJournal source.now journal.now read.run.events) }
{
    let script = script_of(alloc, source)?;
    run_of_text(alloc, &script, source, journal)
}

/// The runs of the script of these bytes in the turns of two numbers.
fn both_in(alloc: Global, source: &[u8], first: u64, second: u64) -> Result<BothRuns, Said> {
    let script = script_of(alloc, source)?;
    let first = run_of_turns(alloc, &script, source, first)?;
    let second = run_of_turns(alloc, &script, source, second)?;
    Ok(BothRuns { first, second })
}

/// The run of the script of these bytes that has this journal, and that of a number.
fn both_behind(alloc: Global, source: &[u8], journal: &[u8], second: u64) -> Result<BothRuns, Said>
    requires { length journal.now ≤ JOURNAL_BYTES }
{
    let script = script_of(alloc, source)?;
    let first = run_of_text(alloc, &script, source, journal)?;
    let second = run_of_turns(alloc, &script, source, second)?;
    Ok(BothRuns { first, second })
}

/// The run of the script that a source has: that of the journal behind it, or that of the number where there is none.
#[tactic(auto, using(crate::proofs::Behind::behind_is_few))]
pub(crate) fn read_run<S: Source>(
    alloc: Global,
    source: &mut S,
    turns: u64,
) -> Result<ReadRun, Said>
    ensures { IfOk result (λ read. IsRead (from_to (S.left source.old) (S.left source.new)) turns read.run.events) }
{
    let bytes = bytes_of(alloc, source, JOURNAL_BYTES)?;
    let Some((text, journal)) = parted(bytes.bytes()) else {
        return run_in(alloc, bytes.bytes(), turns);
    };
    run_behind(alloc, text, journal)
}

/// Two runs of the script that a source has: that of the journal behind it, or that of the first number where there is none; and that of the second.
#[tactic(auto, using(crate::proofs::Behind::behind_is_few))]
pub(crate) fn read_both<S: Source>(
    alloc: Global,
    source: &mut S,
    first: u64,
    second: u64,
) -> Result<BothRuns, Said> {
    let bytes = bytes_of(alloc, source, JOURNAL_BYTES)?;
    let Some((text, journal)) = parted(bytes.bytes()) else {
        return both_in(alloc, bytes.bytes(), first, second);
    };
    both_behind(alloc, text, journal, second)
}
