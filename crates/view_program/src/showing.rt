//! Shows what is asked for.
ghost use Rattle.std.specs.Prelude.{IfOk};
ghost use Rattle.script_runner.specs.Outside.{from_to};
ghost use Rattle.view_program.specs.Answers.{IsAnswer};

use crate::asked::Asked;
use crate::counting::said_of_counts;
use crate::differing::said_of_difference;
use crate::host::Host;
use crate::lanes::said_of_lanes;
use crate::reading::{NOT_TAKEN, Said};
use crate::searching::{said_of_all, said_of_lowest};
use crate::words_asked::asked;
use clap::Error;
use clap::error::ErrorKind;
use dom_io::{Sink, Source, write_all};
use std::alloc::Global;
use std::thread::Threads;
use uid_names::NoMemory;

/// Writes a text: the status, or 5 where a write failed.
fn write_text<O: Sink>(out: &mut O, text: &[u8], status: u8) -> u8 {
    match write_all(out, text) {
        Ok(()) => status,
        Err(_) => 5,
    }
}

/// Writes what is said: of what the words name and the script does not have to `notes`, all else to `out`.
fn write_said<O: Sink, N: Sink>(out: &mut O, notes: &mut N, said: &Said) -> u8 {
    let Some(text) = &said.text else {
        return said.status;
    };
    if said.status == NOT_TAKEN {
        write_text(notes, text.bytes(), said.status)
    } else {
        write_text(out, text.bytes(), said.status)
    }
}

/// The text of a refusal of words, or of help.
fn error_text(alloc: Global, error: &Error) -> Result<String, NoMemory> {
    Ok(format!(in alloc; "{error}")?)
}

/// Writes what is said of words that are not taken, or the help that they ask for.
fn write_error<O: Sink, N: Sink>(alloc: Global, error: &Error, out: &mut O, notes: &mut N) -> u8 {
    if error.kind() == ErrorKind::OutOfMemory {
        return 7;
    }
    let Ok(text) = error_text(alloc, error) else {
        return 7;
    };
    if error.use_stderr() {
        write_text(notes, text.as_bytes(), NOT_TAKEN)
    } else {
        write_text(out, text.as_bytes(), 0)
    }
}

/// What is said to what is asked, of the script that the input has, or of the run whose journal stands behind it. An error is what is said where that
/// cannot be: of a bad line, of a name that the script lacks, or no more than a status.
pub fn said_to<R: Threads, S: Source, N: Sink>(
    rt: &R,
    alloc: Global,
    asked: &Asked,
    host: Host,
    notes: Option<&mut N>,
    input: &mut S,
) -> Result<Said, Said>
    ensures { IfOk result (IsAnswer asked.now (from_to (S.left input.old) (S.left input.new))) }
{
    match asked {
        Asked::Lanes(turns, shown) => {
            said_of_lanes(alloc, input, *turns, shown, host.width(shown.width))
        }
        Asked::Counts(turns) => said_of_counts(alloc, input, *turns),
        Asked::Diff(compared) => {
            said_of_difference(alloc, input, compared, host.width(compared.width))
        }
        Asked::Explore(numbers) => said_of_all(rt, alloc, input, numbers, host, notes),
        Asked::Find(numbers, words) => {
            said_of_lowest(rt, alloc, input, words.items(), numbers, host, notes)
        }
    }
}

/// Runs the program: `words` are those of the command line, the program's name first, `input` is standard input, `out` standard output and `notes`
/// standard error. The answer is the exit status:
///
/// - 0: what was asked for was written, or help;
/// - 1: `find` found no number;
/// - 2: the words are not taken, or name an object or a command that the script does not have, and what is wrong with them was written to `notes`;
/// - 3: the input has no script, and its first bad line was named with the cause;
/// - 4: a read failed;
/// - 5: a write failed;
/// - 7: there was no memory;
/// - 8: a node came to the last tick;
/// - 9: the journal is not that of a run of the script, and its line at fault was named with the cause.
pub fn show<R: Threads, S: Source, O: Sink, N: Sink>(
    rt: &R,
    alloc: Global,
    words: &[String],
    host: Host,
    input: &mut S,
    out: &mut O,
    notes: &mut N,
) -> u8 {
    let asked = match asked(alloc, words) {
        Ok(asked) => asked,
        Err(error) => return write_error(alloc, &error, out, notes),
    };
    let told = if host.tells { Some(&mut *notes) } else { None };
    match said_to(rt, alloc, &asked, host, told, input) {
        Ok(said) | Err(said) => write_said(out, notes, &said),
    }
}
