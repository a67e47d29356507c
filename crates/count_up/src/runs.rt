//! The nodes run until all have ended.
ghost use Rattle.std.specs.Prelude.{◌≡◌, ◌*◌, ◌<◌, IfOk};
ghost use Rattle.count_up.specs.Sums.{CountsTo, HaveSeen};

use crate::counter::Counter;
use crate::nodes::counting_nodes;
use anyhow::Result;
use dom_history::FaultPlan;
use local_runs::merge;
use local_runs::merged::logs_of_local_runs_may_be_merged;
use node_threads::{OpenGate, make_posts, run_all};
use run_laws::every::{an_ended_run_ends_its_programs, every_run_is_right};
use std::alloc::Global;
use std::sync::Wait;
use std::thread::Threads;
use uid_names::ProcId;
use world_core::World;

/// A node that comes to this tick ends the run by a fault.
const LAST_TICK: u64 = 1 << 40;

/// The number that all of them loaded last.
fn seen_by_all(counters: &[(ProcId, Counter)]) -> Result<u64>
    ensures { IfOk result (λ sum. HaveSeen sum counters.now) }
{
    let Some((_, first)) = counters.first() else {
        anyhow::bail!("there are no processes")
    };
    let Some(sum) = first.seen() else {
        anyhow::bail!("a process failed")
    };
    for (_, counter) in counters {
        let Some(number) = counter.seen() else {
            anyhow::bail!("a process failed")
        };
        if number != sum {
            anyhow::bail!("they saw different numbers");
        }
    }
    Ok(sum)
}

/// All nodes on one thread, in the turns of a number. No frame is lost or late.
pub fn by_turns(alloc: Global, rounds: u32, turns: u64) -> Result<u64>
    ensures run { IfOk result (CountsTo rounds) }
    ensures sum { IfOk result (λ sum. 0 < rounds → sum ≡ 3 * rounds) }
{
    // So the history of a run that has ended has ended too, and what all loaded last is the sum.
    an_ended_run_ends_its_programs();
    let nodes = counting_nodes(alloc, rounds)?;
    let world = World::new(alloc, nodes, FaultPlan::new(alloc))?;
    let (_, counters) = world.run_merged(alloc, turns, LAST_TICK)?;
    seen_by_all(counters.as_slice())
}

/// Each node in a thread of its own.
pub fn by_threads<R: Threads + Wait + Sync>(rt: &R, alloc: Global, rounds: u32) -> Result<u64>
    ensures run { IfOk result (CountsTo rounds) }
    ensures sum { IfOk result (λ sum. 0 < rounds → sum ≡ 3 * rounds) }
{
    let nodes = counting_nodes(alloc, rounds)?;
    let plan = FaultPlan::new(alloc);
    let posts = make_posts(alloc, nodes, &plan)?;
    let (logs, counters) = run_all(rt, alloc, posts, &OpenGate, LAST_TICK)?;
    // So the logs may be merged, and are then a run as one store would have it, whose history has ended.
    logs_of_local_runs_may_be_merged();
    every_run_is_right();
    an_ended_run_ends_its_programs();
    merge(alloc, logs)?;
    seen_by_all(counters.as_slice())
}
