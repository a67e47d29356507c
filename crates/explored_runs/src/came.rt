//! What came of one number of turns.
ghost use Rattle.std.specs.Prelude.{◌≡◌, map, IfOk};
ghost use Rattle.explored_runs.specs.Came.{IsCameOf, IsOutcomeOf, outcome_row};

use explored_counts::CameOf;
use node_core::RunFault;
use run_outcomes::{Outcome, OutcomeRow, copy_answers};
use script_reader::Script;
use script_runner::{AnswerRow, LAST_TICK, Ran, run_script_in_turns};
use std::alloc::Global;
use uid_names::NoMemory;

/// The outcome that has these answers.
fn outcome_of(alloc: Global, rows: &[AnswerRow]) -> Result<Outcome, NoMemory>
    ensures { IfOk result (λ outcome. outcome ≡ map outcome_row rows.now) }
{
    let mut outcome = Outcome::new(alloc);
    for row in rows {
        let answers = copy_answers(alloc, row.answers.items())?;
        outcome.push(OutcomeRow {
            proc: row.proc,
            answers,
        })?;
    }
    Ok(outcome)
}

/// What came of a number of which this is the run.
fn came_of_run(alloc: Global, ran: &Ran) -> CameOf
    ensures { IsOutcomeOf ran.now result }
{
    match outcome_of(alloc, ran.answers.items()) {
        Ok(outcome) => CameOf::Answers(outcome),
        Err(NoMemory) => CameOf::NoMemory,
    }
}

/// What came of a script in the turns of a number. It waits for nothing, and returns.
pub fn came_of(alloc: Global, script: &Script, number: u64) -> CameOf
    ensures { IsCameOf script.now number result }
{
    match run_script_in_turns(alloc, script, number, LAST_TICK) {
        Ok(ran) => came_of_run(alloc, &ran),
        Err(RunFault::TickLimit(_)) => CameOf::LastTick,
        Err(RunFault::NoMemory) => CameOf::NoMemory,
    }
}
