//! What is told of many numbers of turns.
ghost use Rattle.std.specs.Prelude.{◌≡◌, IfOk};
ghost use Rattle.script_runner.specs.Outside.{from_to};
ghost use Rattle.view_program.specs.Answers.{SaysAll, SaysLowest};
ghost use Rattle.view_program.specs.Searches.{SaysExplored, SaysFound, found_line};

use crate::asked::Numbers;
use crate::host::Host;
use crate::reading::{Said, read_input};
use dom_io::{Sink, Source};
use dom_text::put_decimal;
use explored_counts::explored_text;
use explored_runs::{Found, explore, find};
use script_reader::Script;
use script_runner::names::names_of;
use std::alloc::Global;
use std::thread::Threads;
use uid_names::{ByteList, NoMemory};

/// What comes of each of these numbers.
fn explored<R: Threads, N: Sink>(
    rt: &R,
    alloc: Global,
    script: &Script,
    numbers: &Numbers,
    host: Host,
    notes: Option<&mut N>,
) -> Result<Said, Said>
    ensures { IfOk result (SaysExplored script.now numbers.now.first numbers.now.end) }
{
    let threads = host.threads(numbers.threads);
    let all = numbers.end - numbers.first;
    let explored = explore(
        rt,
        alloc,
        script,
        numbers.first,
        numbers.end,
        threads,
        notes,
    )?;
    let names = names_of(alloc, script.nodes())?;
    let text = explored_text(alloc, &names, &explored, all)?;
    Ok(Said::new(0, text))
}

/// A number and the line of its journal.
fn found_text(alloc: Global, found: &Found) -> Result<ByteList, NoMemory>
    ensures { IfOk result (λ text. text ≡ found_line found.now) }
{
    let mut text = ByteList::from_slice(alloc, b"turns ")?;
    put_decimal(&mut text, found.number)?;
    text.extend(b": ")?;
    text.extend(found.line.bytes())?;
    text.extend(b"\n")?;
    Ok(text)
}

/// The lowest of these numbers whose journal has a line with these words, and the line.
fn found<R: Threads, N: Sink>(
    rt: &R,
    alloc: Global,
    script: &Script,
    words: &[ByteList],
    numbers: &Numbers,
    host: Host,
    notes: Option<&mut N>,
) -> Result<Said, Said>
    ensures { IfOk result (SaysFound script.now words.now numbers.now.first numbers.now.end) }
{
    let threads = host.threads(numbers.threads);
    match find(
        rt,
        alloc,
        script,
        words,
        numbers.first,
        numbers.end,
        threads,
        notes,
    )? {
        Some(found) => Ok(Said::new(0, found_text(alloc, &found)?)),
        None => Ok(Said::nothing(1)),
    }
}

/// What comes of a source's script in the turns of each of these numbers.
pub(crate) fn said_of_all<R: Threads, S: Source, N: Sink>(
    rt: &R,
    alloc: Global,
    source: &mut S,
    numbers: &Numbers,
    host: Host,
    notes: Option<&mut N>,
) -> Result<Said, Said>
    ensures { IfOk result (SaysAll numbers.now (from_to (S.left source.old) (S.left source.new))) }
{
    let script = read_input(alloc, source)?;
    explored(rt, alloc, &script, numbers, host, notes)
}

/// The lowest of these numbers whose journal of a source's script has a line with these words, and the line.
pub(crate) fn said_of_lowest<R: Threads, S: Source, N: Sink>(
    rt: &R,
    alloc: Global,
    source: &mut S,
    words: &[ByteList],
    numbers: &Numbers,
    host: Host,
    notes: Option<&mut N>,
) -> Result<Said, Said>
    ensures { IfOk result (SaysLowest numbers.now words.now (from_to (S.left source.old) (S.left source.new))) }
{
    let script = read_input(alloc, source)?;
    found(rt, alloc, &script, words, numbers, host, notes)
}
