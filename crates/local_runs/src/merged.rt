//! Laws of merged logs. Each stands on a function without a body, so that the check proves it.
ghost use Rattle.std.specs.Prelude.{◌≡◌, ℕ, List, reverse};
ghost use Rattle.dom_history.specs.Events.{Happening};
ghost use Rattle.dom_history.specs.declared.event.NodeLog.{NodeLog};
ghost use Rattle.node_runs.specs.Setups.{Setup};
ghost use Rattle.node_runs.specs.Runs.{World};
ghost use Rattle.ring_links.specs.Merged.{AreLogs, AreMerged};
ghost use Rattle.local_runs.specs.LocalRuns.{Own, AreLocalRuns, IsMergeOf};
ghost use Rattle.local_runs.specs.Logs.{AreLogsOf};
ghost use Rattle.local_runs.specs.Merges.{AreApart, AreRunOfLogs};

use crate::laws::{delivered_local_runs_are_planned, local_runs_are_one_run};
use crate::recent::named_local_runs_are_recent;

/// What `by_place` makes of logs is the merge of the local runs of which they are the logs.
pub fn merged_logs_are_a_merge()
    ensures { (owns : ℕ → List Own) (logs : List NodeLog) (events : List Happening) → AreLogsOf owns logs → AreMerged logs events → IsMergeOf owns (reverse events) }
{}

/// So the events of logs that nodes alone have are one run, if all that they received was sent: by the plan where they are delivered by it, and
/// recent where each node is.
pub fn merged_logs_are_one_run()
    ensures { (logs : List NodeLog) (events : List Happening) → AreMerged logs events → AreRunOfLogs logs events }
{
    merged_logs_are_a_merge();
    local_runs_are_one_run();
    delivered_local_runs_are_planned();
    named_local_runs_are_recent();
}

/// The logs that nodes alone have may be merged, if no two are of one node.
pub fn logs_of_local_runs_may_be_merged()
    ensures { (s : Setup) (owns : ℕ → List Own) (ws : ℕ → World) (logs : List NodeLog) → AreLocalRuns s owns ws → AreLogsOf owns logs → AreApart logs →
        AreLogs logs }
{}

/// There are the events of runs of nodes alone, in which all that is received was sent, in one order by place.
pub fn local_runs_have_a_merge()
    ensures { (s : Setup) (owns : ℕ → List Own) (ws : ℕ → World) → AreLocalRuns s owns ws → (es : List Happening) × IsMergeOf owns es }
{}
