//! Where two runs differ.
ghost use Rattle.std.specs.Prelude.{◌≡◌, ◌↔◌, IsTrue, IfOk};
ghost use Rattle.event_views.specs.Differing.{IsParting, same_answer as are_same_answers, answer_diffs};
ghost use Rattle.event_views.specs.Runs.{events_of};

use crate::command::{CommandName, CommandView};
use crate::run::{EventView, RunView};
use dom_history::{Effects, Event};
use std::alloc::Global;
use uid_names::{ByteList, ItemList, NoMemory, Uid};

/// A command that two runs answer otherwise; None stands for no answer.
#[derive(Drop, Debug)]
pub struct AnswerDiff {
    pub name: CommandName,
    pub first: Option<ByteList>,
    pub second: Option<ByteList>,
}

/// Where two runs of a script differ: the index of the first event at which they part, None where all are the same, and the commands that they
/// answer otherwise.
#[derive(Drop, Debug)]
pub struct RunDiff {
    pub parting: Option<usize>,
    pub answers: ItemList<AnswerDiff>,
}

fn are_same_pages(a: &[(Uid, u32)], b: &[(Uid, u32)]) -> bool
    ensures { IsTrue result ↔ (a.now ≡ b.now) }
{
    a == b
}

fn are_same_effects(a: &Effects, b: &Effects) -> bool
    ensures { IsTrue result ↔ (a.now ≡ b.now) }
{
    a.sent == b.sent && a.ended == b.ended && are_same_pages(a.dropped.items(), b.dropped.items())
}

/// Whether two events are one: at one place, the same, and with the same effects.
fn is_same_event(a: &Event, b: &Event) -> bool
    ensures { IsTrue result ↔ (a.now ≡ b.now) }
{
    a.place() == b.place() && a.what() == b.what() && are_same_effects(a.effects(), b.effects())
}

/// The index of the first event at which two runs part; None where all events are the same. Takes no memory.
fn parting(first: &[EventView], second: &[EventView]) -> Option<usize>
    ensures { IsParting (events_of first.now) (events_of second.now) result }
{
    for (at, view) in first.iter().enumerate() {
        let Some(other) = second.get(at) else {
            return Some(at);
        };
        if !is_same_event(&view.event, &other.event) {
            return Some(at);
        }
    }
    if first.len() < second.len() {
        return Some(first.len());
    }
    None
}

fn same_answer(first: &Option<ByteList>, second: &Option<ByteList>) -> bool
    ensures { result ≡ are_same_answers first.now second.now }
{
    let Some(first) = first else {
        return second.is_none();
    };
    match second {
        None => false,
        Some(second) => first.bytes() == second.bytes(),
    }
}

fn copy_of(alloc: Global, answer: &Option<ByteList>) -> Result<Option<ByteList>, NoMemory>
    ensures { IfOk result (λ copy. copy ≡ answer.now) }
{
    match answer {
        None => Ok(None),
        Some(text) => Ok(Some(text.copy(alloc)?)),
    }
}

/// The commands that are answered otherwise.
fn answers(
    alloc: Global,
    first: &[CommandView],
    second: &[CommandView],
) -> Result<ItemList<AnswerDiff>, NoMemory>
    ensures { IfOk result (λ diffs. diffs ≡ answer_diffs first.now second.now) }
{
    let mut diffs = ItemList::new(alloc);
    for (at, row) in first.iter().enumerate() {
        let Some(other) = second.get(at) else {
            return Ok(diffs);
        };
        if !same_answer(&row.answer, &other.answer) {
            diffs.push(AnswerDiff {
                name: row.name,
                first: copy_of(alloc, &row.answer)?,
                second: copy_of(alloc, &other.answer)?,
            })?;
        }
    }
    Ok(diffs)
}

/// Where two runs of one script differ: the index of the first event at which they part, and the commands that they answer otherwise.
pub fn diff(alloc: Global, first: &RunView, second: &RunView) -> Result<RunDiff, NoMemory>
    ensures parting { IfOk result (λ d. IsParting (events_of first.now.events) (events_of second.now.events) d.parting) }
    ensures answers { IfOk result (λ d. d.answers ≡ answer_diffs first.now.commands second.now.commands) }
{
    let answers = answers(alloc, first.commands(), second.commands())?;
    Ok(RunDiff {
        parting: parting(first.events(), second.events()),
        answers,
    })
}
