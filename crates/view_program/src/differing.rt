//! Tells where two runs differ.
ghost use Rattle.std.specs.Prelude.{◌≡◌, IfOk};

use crate::asked::Compared;
use crate::reading::{BothRuns, ReadRun, Said, read_both};
use dom_history::EventList;
use dom_io::Source;
use dom_text::put_decimal;
use event_charts::chart_of;
use event_views::{AnswerDiff, Choice, EventView, RunView, diff, put_command};
use journal_text::write_journal;
use lane_charts::draw_text;
use std::alloc::Global;
use uid_names::{ByteList, NoMemory};

/// So many events before those at which two runs part are drawn.
const BEFORE: usize = 4;

/// So many events behind those at which two runs part are drawn.
const BEHIND: usize = 8;

/// Puts the event of a place, as the journal has it, or that there is none.
fn put_event(alloc: Global, to: &mut ByteList, run: &RunView, at: usize) -> Result<(), NoMemory> {
    let Some(view) = run.events().get(at) else {
        return to.extend(b"no event\n");
    };
    let mut events = EventList::new(alloc);
    events.push(view.event.copy(alloc)?)?;
    let line = write_journal(alloc, &events, run.names())?;
    to.extend(line.bytes())
}

/// Puts the line at which two runs part, with the event of each.
fn put_parting(
    alloc: Global,
    to: &mut ByteList,
    first: &RunView,
    second: &RunView,
    at: usize,
) -> Result<(), NoMemory> {
    to.extend(b"line ")?;
    put_decimal(to, at.saturating_add(1) as u64)?;
    to.extend(b"\n  ")?;
    put_event(alloc, to, first, at)?;
    to.extend(b"  ")?;
    put_event(alloc, to, second, at)
}

/// The tick of the event of a place, or of the last event where fewer stand before it.
fn tick_at(events: &[EventView], at: usize) -> Option<u64> {
    let last = events.len().checked_sub(1)?;
    let view = events.get(at.min(last))?;
    Some(view.event.place().tick)
}

/// The choice of the events round a place.
fn round(run: &RunView, at: usize) -> Choice {
    let events = run.events();
    Choice {
        from: tick_at(events, at.saturating_sub(BEFORE)),
        to: tick_at(events, at.saturating_add(BEHIND)),
        ..Choice::all()
    }
}

/// Puts what picked a run: a number of turns, or a journal.
fn put_source(to: &mut ByteList, turns: Option<u64>) -> Result<(), NoMemory> {
    let Some(turns) = turns else {
        return to.extend(b"journal: ");
    };
    to.extend(b"turns ")?;
    put_decimal(to, turns)?;
    to.extend(b": ")
}

/// Puts the lanes of a run round a place.
fn put_lanes(
    alloc: Global,
    to: &mut ByteList,
    read: &ReadRun,
    at: usize,
    width: usize,
) -> Result<(), NoMemory> {
    to.extend(b"\n")?;
    put_source(to, read.turns)?;
    let chart = chart_of(alloc, &read.run, &round(&read.run, at))?;
    let lanes = draw_text(alloc, &chart, width)?;
    to.extend(lanes.bytes())
}

/// Puts an answer, or that there is none.
fn put_answer(to: &mut ByteList, answer: &Option<ByteList>) -> Result<(), NoMemory> {
    match answer {
        Some(text) => to.extend(text.bytes()),
        None => to.extend(b"no answer"),
    }
}

/// Puts a command and both its answers.
fn put_answers(to: &mut ByteList, run: &RunView, d: &AnswerDiff) -> Result<(), NoMemory> {
    put_command(to, run.names(), &d.name)?;
    to.extend(b" ")?;
    put_answer(to, &d.first)?;
    to.extend(b" => ")?;
    put_answer(to, &d.second)?;
    to.extend(b"\n")
}

/// Puts the commands that are answered otherwise.
fn put_differences(
    to: &mut ByteList,
    run: &RunView,
    answers: &[AnswerDiff],
) -> Result<(), NoMemory> {
    if answers.is_empty() {
        return to.extend(b"\nthe same answers\n");
    }
    to.extend(b"\n")?;
    for answer in answers {
        put_answers(to, run, answer)?;
    }
    Ok(())
}

/// Where two runs of one script differ.
fn diff_text(alloc: Global, both: &BothRuns, width: usize) -> Result<ByteList, NoMemory> {
    let first = &both.first.run;
    let second = &both.second.run;
    let diff = diff(alloc, first, second)?;
    let Some(at) = diff.parting else {
        return ByteList::from_slice(alloc, b"the same\n");
    };
    let mut text = ByteList::new(alloc);
    put_parting(alloc, &mut text, first, second, at)?;
    put_lanes(alloc, &mut text, &both.first, at, width)?;
    put_lanes(alloc, &mut text, &both.second, at, width)?;
    put_differences(&mut text, first, diff.answers.items())?;
    Ok(text)
}

/// Where the runs differ that a source and two numbers pick.
pub(crate) fn said_of_difference<S: Source>(
    alloc: Global,
    source: &mut S,
    compared: &Compared,
    width: usize,
) -> Result<Said, Said>
    ensures { IfOk result (λ said. said.status ≡ 0) }
{
    let both = read_both(alloc, source, compared.first, compared.second)?;
    Ok(Said::new(0, diff_text(alloc, &both, width)?))
}
