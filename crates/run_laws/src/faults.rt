//! Laws of link faults, in every run in which no tick is above 2^40. Each body names the laws below that its proof stands on.
ghost use Rattle.std.specs.Prelude.{◌≡◌, ℕ, ◌*◌, ◌≤◌, Some, List, length, All};
ghost use Rattle.dom_history.specs.declared.plan.FateRow.{FateRow};
ghost use Rattle.dom_history.specs.Events.{Happening};
ghost use Rattle.node_runs.specs.Setups.{Setup, IsSetup};
ghost use Rattle.node_runs.specs.NodesKeep.{IsTimely};
ghost use Rattle.node_runs.specs.Runs.{World, IsRun, world_of};
ghost use Rattle.node_runs.specs.RunHistories.{history_of};
ghost use Rattle.node_runs.specs.Deliveries.{IsPlanned};
ghost use Rattle.world_runs.specs.Faults.{faults_in};
ghost use Rattle.world_runs.specs.EveryRunBy.{InEveryRunBy};
ghost use Rattle.node_runs.specs.DoubtfulRun as doubtful;
ghost use Rattle.run_laws.specs.LinkFaults.{fault_entries, link_faults, notices, marked};
ghost use Rattle.run_laws.specs.EightNotices.{HasEightNotices, HaveOwnCalls};

use crate::calls::{entries_stand_within_their_operations, operations_end_in_order};
use world_runs::laws::{each_link_fault_has_eight_notices, link_faults_are_few};

/// Each entry of a planned run's history that a link fault answered has eight notices of one call of its operation, the last one, each of a
/// frame of its own that is lost or late. No two entries have one call.
pub fn each_entry_of_a_link_fault_has_eight_notices()
    ensures eight { (s : Setup) (plan : List FateRow) → IsSetup s →
        InEveryRunBy s plan (λ es w. All (HasEightNotices plan w) (fault_entries (history_of s es))) }
    ensures own { (s : Setup) (plan : List FateRow) → IsSetup s → (es : List Happening) (w : World) → world_of s es ≡ Some w → IsTimely w →
        HaveOwnCalls plan w }
{
    each_link_fault_has_eight_notices();
    operations_end_in_order();
}

/// As many entries of a run's history were answered by a link fault as calls were ended by one, and as events ended an operation so.
pub fn each_link_fault_has_one_entry()
    ensures calls { (s : Setup) → IsSetup s → (es : List Happening) (w : World) → world_of s es ≡ Some w → IsTimely w →
        length (fault_entries (history_of s es)) ≡ length (faults_in w.trace) }
    ensures events { (s : Setup) → IsSetup s → (es : List Happening) (w : World) → IsRun s es → world_of s es ≡ Some w → IsTimely w →
        length (fault_entries (history_of s es)) ≡ link_faults es }
{
    each_link_fault_has_eight_notices();
    entries_stand_within_their_operations();
    operations_end_in_order();
}

/// There are eight times as many notices as link faults, at least, and by a plan no more notices than frames that are lost or late.
pub fn notices_bound_link_faults()
    ensures eight_times { (s : Setup) → IsSetup s → (es : List Happening) (w : World) → IsRun s es → world_of s es ≡ Some w → IsTimely w →
        8 * length (fault_entries (history_of s es)) ≤ notices es }
    ensures planned { (s : Setup) (plan : List FateRow) → IsSetup s → (es : List Happening) (w : World) → IsPlanned s plan es → world_of s es ≡ Some w → IsTimely w →
        notices es ≤ marked plan es }
{
    each_link_fault_has_one_entry();
    link_faults_are_few();
}

/// The run in which eight frames of a lock are lost: one link fault, eight notices, eight frames.
pub fn a_lock_in_doubt_has_one_link_fault()
    ensures entries { length (fault_entries (history_of doubtful.setup doubtful.events)) ≡ 1 }
    ensures events { link_faults doubtful.events ≡ 1 }
    ensures told { notices doubtful.events ≡ 8 }
    ensures frames { marked doubtful.plan doubtful.events ≡ 8 }
{}
