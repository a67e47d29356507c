//! Laws of accounts, in every run in which no tick is above 2^40: planned or not, ended or not. Each body names the laws below that its
//! proof stands on.
ghost use Rattle.std.specs.Prelude.{◌≡◌, ℕ, Some, List, length, reverse};
ghost use Rattle.dom_history.specs.declared.plan.FateRow.{FateRow};
ghost use Rattle.dom_history.specs.Events.{Happening};
ghost use Rattle.fault_handler.specs.Desks.{IsNode};
ghost use Rattle.node_runs.specs.Setups.{Setup, IsSetup};
ghost use Rattle.node_runs.specs.NodeStates.{emitted_to};
ghost use Rattle.node_runs.specs.NodesKeep.{IsTimely, InEveryRun};
ghost use Rattle.node_runs.specs.Runs.{World, IsRun, world_of};
ghost use Rattle.world_runs.specs.Sendings.{frames_on};
ghost use Rattle.run_laws.specs.LinkFaults.{link_faults, notices, marked};
ghost use Rattle.run_laws.specs.Accounts.{marked as marked_by_number};
ghost use Rattle.run_laws.specs.NextNumbers.{SayNextNumbers};
ghost use Rattle.run_laws.specs.AccountsOfRuns.{AccountsFor};

use crate::faults::{each_link_fault_has_one_entry, notices_bound_link_faults};

/// The frame that an event of a run sends says the next number of its link, whatever becomes of frames; a node counts what it sent on
/// each link, and as many frames stand there.
pub fn each_frame_of_a_run_says_the_next_number()
    ensures numbers { (s : Setup) → IsSetup s → (es : List Happening) (w : World) → IsRun s es → world_of s es ≡ Some w → IsTimely w →
        SayNextNumbers es }
    ensures counts { InEveryRun (λ s w. (n to : ℕ) → IsNode s.opening.nodes to → emitted_to (w.nodes n) to ≡ frames_on n to w.done) }
    ensures links { InEveryRun (λ s w. (from to : ℕ) → length (w.frames from to) ≡ frames_on from to w.done) }
{}

/// As many frames of a run are lost or late by the numbers that they say as by their places on their links. By the numbers that they say
/// they are as many from whichever end the events are listed.
pub fn an_account_counts_the_frames_of_its_run()
    ensures same { (s : Setup) (plan : List FateRow) → IsSetup s → (es : List Happening) (w : World) → IsRun s es → world_of s es ≡ Some w → IsTimely w →
        marked_by_number plan es ≡ marked plan es }
    ensures order { (plan : List FateRow) (es : List Happening) → marked_by_number plan (reverse es) ≡ marked_by_number plan es }
{}

/// So an account of events, in the order in which they happened, is that of each run of which these are the events: it counts the entries
/// of its history that a link fault answered, its notices, and its frames that are lost or late by the plan. Eight times the first are at
/// most the second, and by the plan these are at most the third.
pub fn an_account_is_of_its_run()
    ensures { (plan : List FateRow) (happened : List Happening) →
        AccountsFor plan happened (link_faults happened) (notices happened) (marked_by_number plan happened) }
{
    each_link_fault_has_one_entry();
    notices_bound_link_faults();
}
