//! Laws of node threads. Each stands on a function without a body, so that the check proves it.
ghost use Rattle.std.specs.Prelude.{List};
ghost use Rattle.dom_history.specs.declared.plan.FateRow.{FateRow};
ghost use Rattle.dom_history.specs.Events.{Happening};
ghost use Rattle.node_runs.specs.Setups.{Setup};
ghost use Rattle.node_runs.specs.Deliveries.{IsPlanned};
ghost use Rattle.local_runs.specs.LocalRuns.{AreLocalRuns, AreDelivered, IsMergeOf, LeadTogether};
ghost use Rattle.local_runs.specs.Posts.{Numbered, AreServed, HaveEnded, own_of, world_at};
ghost use Rattle.local_runs.specs.JoinedMerges.{OfServedPosts, OfServedLogs, EndTogether};

use crate::laws::{delivered_local_runs_are_planned, local_runs_are_one_run};
use crate::merged::merged_logs_are_a_merge;
use ring_messages::laws::frames_have_one_spelling;

/// Posts that were served each alone, over rings of which each gave a first part of what its sender's wire put, are local runs in
/// which all is matched and delivered.
pub fn served_posts_are_local_runs()
    ensures runs { (s : Setup) (plan : List FateRow) (posts : List Numbered) → AreServed s plan posts → AreLocalRuns s (own_of s posts) (world_at s posts) }
    ensures delivered { (s : Setup) (plan : List FateRow) (posts : List Numbered) → AreServed s plan posts → AreDelivered plan (own_of s posts) }
{
    frames_have_one_spelling();
}

/// Threads make a planned run: their logs by place; and where each node has ended, one that has ended.
pub fn threads_make_a_planned_run()
    ensures planned { OfServedPosts (λ s plan posts es. IsPlanned s plan es) }
    ensures leads { (s : Setup) (plan : List FateRow) (posts : List Numbered) (es : List Happening) → AreServed s plan posts → IsMergeOf (own_of s posts) es →
        LeadTogether s (world_at s posts) es }
    ensures ended { OfServedPosts (λ s plan posts es. HaveEnded s posts → EndTogether s plan posts es) }
{
    served_posts_are_local_runs();
    local_runs_are_one_run();
    delivered_local_runs_are_planned();
}

/// So it is of what `by_place` makes of the logs that threads hand back.
pub fn merged_logs_of_threads_are_an_ended_run()
    ensures planned { OfServedLogs (λ s plan posts es. IsPlanned s plan es) }
    ensures ended { OfServedLogs (λ s plan posts es. HaveEnded s posts → EndTogether s plan posts es) }
{
    threads_make_a_planned_run();
    merged_logs_are_a_merge();
}
