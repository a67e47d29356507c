//! In which answers two outcomes differ.
ghost use Rattle.std.specs.Prelude.{◌≡◌, ◌+◌, ◌++◌, [], IfOk, OnOk, Some, option_copied, slice_get};
ghost use Rattle.run_outcomes.specs.Differing.{same_text, command_differences, answer_differences, row_differences, outcome_differences};

use crate::outcome::OutcomeRow;
use std::alloc::Global;
use uid_names::{ByteList, ItemList, NoMemory, ProcId};

/// A command whose answers differ: its process, its number there from 1, and both answers, of which one may be missing.
#[derive(Drop, Debug)]
pub struct Difference {
    pub proc: ProcId,
    pub index: u64,
    pub first: Option<ByteList>,
    pub second: Option<ByteList>,
}

/// The answer of a place, where there is one.
fn answer_at(answers: &[ByteList], at: usize) -> Option<&ByteList>
    ensures { option_copied result ≡ slice_get answers.now at }
{
    answers.get(at)
}

/// The row of a place, where there is one.
fn row_at(rows: &[OutcomeRow], at: usize) -> Option<&OutcomeRow>
    ensures { option_copied result ≡ slice_get rows.now at }
{
    rows.get(at)
}

/// Whether two answers are one text, or both are missing.
fn is_same_text(first: Option<&ByteList>, second: Option<&ByteList>) -> bool
    ensures { result ≡ same_text (option_copied first.entry) (option_copied second.entry) }
{
    match (first, second) {
        (None, None) => true,
        (Some(first), Some(second)) => first.bytes() == second.bytes(),
        _ => false,
    }
}

/// A copy of an answer.
fn copy_text(alloc: Global, text: Option<&ByteList>) -> Result<Option<ByteList>, NoMemory>
    ensures { IfOk result (λ copy. copy ≡ option_copied text.entry) }
{
    match text {
        Some(text) => Ok(Some(text.copy(alloc)?)),
        None => Ok(None),
    }
}

/// Puts in which the answers of a command differ, if they do.
fn put_command(
    alloc: Global,
    to: &mut ItemList<Difference>,
    proc: ProcId,
    index: u64,
    first: Option<&ByteList>,
    second: Option<&ByteList>,
) -> Result<(), NoMemory>
    ensures { OnOk result (to.new ≡ to.old ++ command_differences proc index (option_copied first.entry) (option_copied second.entry)) }
{
    if is_same_text(first, second) {
        return Ok(());
    }
    let first = copy_text(alloc, first)?;
    let second = copy_text(alloc, second)?;
    to.push(Difference {
        proc,
        index,
        first,
        second,
    })
}

/// Puts in which the answers of a process differ, command by command.
fn put_answers(
    alloc: Global,
    to: &mut ItemList<Difference>,
    proc: ProcId,
    first: &[ByteList],
    second: &[ByteList],
) -> Result<(), NoMemory>
    ensures { OnOk result (to.new ≡ to.old ++ answer_differences proc first.now second.now) }
{
    for i in 0..first.len().max(second.len()) {
        put_command(
            alloc,
            to,
            proc,
            i as u64 + 1,
            answer_at(first, i),
            answer_at(second, i),
        )?;
    }
    Ok(())
}

/// Puts in which the rows of one place differ.
fn put_rows(
    alloc: Global,
    to: &mut ItemList<Difference>,
    first: Option<&OutcomeRow>,
    second: Option<&OutcomeRow>,
) -> Result<(), NoMemory>
    ensures { OnOk result (to.new ≡ to.old ++ row_differences (option_copied first.entry) (option_copied second.entry)) }
{
    match (first, second) {
        (Some(first), Some(second)) => put_pair(alloc, to, first, second),
        (Some(first), None) => put_answers(alloc, to, first.proc, first.answers.items(), &[]),
        (None, Some(second)) => put_answers(alloc, to, second.proc, &[], second.answers.items()),
        (None, None) => Ok(()),
    }
}

/// The same of two rows.
fn put_pair(
    alloc: Global,
    to: &mut ItemList<Difference>,
    first: &OutcomeRow,
    second: &OutcomeRow,
) -> Result<(), NoMemory>
    ensures { OnOk result (to.new ≡ to.old ++ row_differences (Some first.now) (Some second.now)) }
{
    if first.proc.is(second.proc) {
        return put_answers(
            alloc,
            to,
            first.proc,
            first.answers.items(),
            second.answers.items(),
        );
    }
    put_answers(alloc, to, first.proc, first.answers.items(), &[])?;
    put_answers(alloc, to, second.proc, &[], second.answers.items())
}

/// In which answers two outcomes differ, by process and by command: none where they are the same.
pub fn differences(
    alloc: Global,
    first: &[OutcomeRow],
    second: &[OutcomeRow],
) -> Result<ItemList<Difference>, NoMemory>
    ensures { IfOk result (λ all. all ≡ outcome_differences first.now second.now) }
{
    let mut all = ItemList::new(alloc);
    for i in 0..first.len().max(second.len()) {
        put_rows(alloc, &mut all, row_at(first, i), row_at(second, i))?;
    }
    Ok(all)
}
