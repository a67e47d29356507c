//! What came of a run: the answers of all its processes.
ghost use Rattle.std.specs.Prelude.{◌≡◌, ◌↔◌, ◌++◌, IsTrue, IfOk};
ghost use Rattle.run_outcomes.specs.Outcomes.{same_answers, same_row, same_outcome};

use std::alloc::Global;
use uid_names::{ByteList, ItemList, NoMemory, ProcId};

/// A process, and the answers of its commands in order.
#[derive(Drop, Debug)]
pub struct OutcomeRow {
    pub proc: ProcId,
    pub answers: ItemList<ByteList>,
}

/// The answers of processes, in order of node and number.
pub type Outcome = ItemList<OutcomeRow>;

/// Whether the answers of a process are the same in two runs.
fn is_same_answers(first: &[ByteList], second: &[ByteList]) -> bool
    ensures { result ≡ same_answers first.now second.now }
{
    if first.len() != second.len() {
        return false;
    }
    for i in 0..first.len() {
        if first[i].bytes() != second[i].bytes() {
            return false;
        }
    }
    true
}

/// Whether two processes are one, with the same answers.
fn is_same_row(first: &OutcomeRow, second: &OutcomeRow) -> bool
    ensures { result ≡ same_row first.now second.now }
{
    first.proc.is(second.proc) && is_same_answers(first.answers.items(), second.answers.items())
}

/// Whether two outcomes are the same in every answer. Takes no memory.
pub fn is_same_outcome(first: &[OutcomeRow], second: &[OutcomeRow]) -> bool
    ensures { result ≡ same_outcome first.now second.now }
{
    if first.len() != second.len() {
        return false;
    }
    for i in 0..first.len() {
        if !is_same_row(&first[i], &second[i]) {
            return false;
        }
    }
    true
}

/// A copy of a process's answers.
pub fn copy_answers(alloc: Global, answers: &[ByteList]) -> Result<ItemList<ByteList>, NoMemory>
    ensures { IfOk result (λ copy. copy ≡ answers.now) }
{
    let mut copies = ItemList::new(alloc);
    for answer in answers {
        copies.push(answer.copy(alloc)?)?;
    }
    Ok(copies)
}

/// A copy of an outcome.
pub(crate) fn copy_outcome(alloc: Global, outcome: &[OutcomeRow]) -> Result<Outcome, NoMemory>
    ensures { IfOk result (λ copy. copy ≡ outcome.now) }
{
    let mut copies = Outcome::new(alloc);
    for row in outcome {
        let answers = copy_answers(alloc, row.answers.items())?;
        copies.push(OutcomeRow {
            proc: row.proc,
            answers,
        })?;
    }
    Ok(copies)
}
