//! Looks for a line in the journal of one number of turns.
ghost use Rattle.std.specs.Prelude.{◌≡◌, ◌∷◌, ◌<◌, length, All, IfOk, option_copied};
ghost use Rattle.script_reader.specs.Grammar.{raw_lines};
ghost use Rattle.script_runs.specs.Reports.{names_of as names_in};
ghost use Rattle.journal_text.specs.Lines.{Names, journal};
ghost use Rattle.explored_runs.specs.Sought.{first_with, IsSought};

use dom_history::NodeNames;
use dom_text::cut;
use event_views::has_words;
use journal_text::write_journal;
use node_core::RunFault;
use script_reader::Script;
use script_runner::{LAST_TICK, Ran, run_script_in_turns};
use std::alloc::Global;
use uid_names::{ByteList, NoMemory};

/// The first line, without its LF, and the bytes behind it.
fn cut_line(bytes: &[u8]) -> (&[u8], &[u8])
    requires { 0 < length bytes.now }
    ensures lines { raw_lines bytes.now ≡ result.0.now ∷ raw_lines result.1.now }
    ensures shorter { length result.1.now < length bytes.now }
{
    match cut(bytes, b'\n') {
        Some((line, rest)) => (line, rest),
        None => (bytes, &bytes[bytes.len()..]),
    }
}

/// The first line of a text that has these words in order.
fn first_line<'a>(text: &'a [u8], words: &[ByteList]) -> Option<&'a [u8]>
    ensures { option_copied result ≡ first_with words.now (raw_lines text.now) }
{
    let mut rest = text;
    while !rest.is_empty() {
        let (line, behind) = cut_line(rest);
        if has_words(line, words) {
            return Some(line);
        }
        rest = behind;
    }
    None
}

/// The first line of the journal of a run that has these words in order.
fn line_in(
    alloc: Global,
    names: &NodeNames,
    ran: &Ran,
    words: &[ByteList],
) -> Result<Option<ByteList>, NoMemory>
    requires named { All (Names names.now) ran.now.events }
    ensures { IfOk result (λ line. line ≡ first_with words.now (raw_lines (journal names.now ran.now.events))) }
{
    let journal = write_journal(alloc, &ran.events, names)?;
    match first_line(journal.bytes(), words) {
        Some(line) => Ok(Some(ByteList::from_slice(alloc, line)?)),
        None => Ok(None),
    }
}

/// The first line of the journal of a script in the turns of a number that has these words in order; None where none has, and where a node comes to the
/// last tick, so that there is no journal. It waits for nothing, and returns.
pub(crate) fn line_of(
    alloc: Global,
    script: &Script,
    names: &NodeNames,
    words: &[ByteList],
    number: u64,
) -> Result<Option<ByteList>, NoMemory>
    requires names { names.now ≡ names_in script.now }
    ensures { IfOk result (IsSought script.now words.now number) }
{
    match run_script_in_turns(alloc, script, number, LAST_TICK) {
        Ok(ran) => line_in(alloc, names, &ran, words),
        Err(RunFault::TickLimit(_)) => Ok(None),
        Err(RunFault::NoMemory) => Err(NoMemory),
    }
}
