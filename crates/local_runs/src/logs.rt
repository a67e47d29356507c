//! The logs that nodes hand back, in one order.
ghost use Rattle.std.specs.Prelude.{IfOk};
ghost use Rattle.ring_links.specs.Merged.{AreLogs, AreMerged};
ghost use Rattle.local_runs.specs.Merges.{AreRunOfLogs};

use crate::merged::merged_logs_are_one_run;
use dom_history::{MergedLogs, NodeLog};
use ring_links::by_place;
use std::alloc::Global;
use uid_names::NoMemory;

/// All events of these logs by rising place: none of a log is left out, and none is added. Where nodes alone have these logs, and all
/// that they received was sent, it is a run of them all.
pub fn merge(alloc: Global, logs: Vec<NodeLog>) -> Result<MergedLogs, NoMemory>
    requires { AreLogs logs.items }
    ensures merged { IfOk result (λ m. AreMerged logs.items m.events) }
    ensures run { IfOk result (λ m. AreRunOfLogs logs.items m.events) }
{
    merged_logs_are_one_run();
    by_place(alloc, logs)
}
