//! Laws of worlds. Each stands on a function that does nothing, so that the check proves it.
ghost use Rattle.std.specs.Prelude.{ℕ, Option, List};
ghost use Rattle.dom_history.specs.declared.plan.FateRow.{FateRow};
ghost use Rattle.dom_history.specs.declared.event.What.{What};
ghost use Rattle.dom_history.specs.Plans.{IsPlan};
ghost use Rattle.node_runs.specs.Setups.{Setup, IsSetup};
ghost use Rattle.node_runs.specs.Incomings.{Incoming};
ghost use Rattle.node_runs.specs.Outcomes.{Stepped};
ghost use Rattle.node_runs.specs.Runs.{World};
ghost use Rattle.world_runs.specs.EveryTurn.{AfterTurns};
ghost use Rattle.world_core.specs.declared.station.Station.{Station};
ghost use Rattle.world_core.specs.declared.world.World.{World as Whole};
ghost use Rattle.world_core.specs.EnabledEvents.{ListsEnabled, ReceivesSent, CountsEnabled, PlacesEnabled, TurnsAsNode};
ghost use Rattle.world_core.specs.SoFar.{IsRightSoFar};

use dom_history::Program;
use page_store::Pages;
use recent_runs::laws::turns_are_recent;
use run_laws::every::turns_come_to_right_runs;
use world_runs::laws::turns_are_a_run_by_place;

/// The events that a node lists are those that are enabled there, in their order.
pub fn what_is_listed_is_enabled<P: Program, G: Pages>()
    ensures { (made : ℕ → ℕ → Option P) (s : Setup) (plan : List FateRow) (w : World) (n : ℕ) (x : Station P G) → ListsEnabled P.wants P.becomes made s plan w n x }
{}

/// The events of all nodes, one node after the other, are the enabled ones of the world.
pub fn places_are_those_of_enabled_events<P: Program, G: Pages>()
    ensures all { (made : ℕ → ℕ → Option P) (s : Setup) (x : Whole P G) (w : World) → CountsEnabled P.wants P.becomes made s x w }
    ensures one { (made : ℕ → ℕ → Option P) (s : Setup) (x : Whole P G) (w : World) → PlacesEnabled P.wants P.becomes made s x w }
{}

/// A listed event receives what the world has for it.
pub fn listed_events_receive_what_was_sent<P: Program, G: Pages>()
    ensures { (made : ℕ → ℕ → Option P) (s : Setup) (plan : List FateRow) (w : World) (n : ℕ) (x : Station P G) → ReceivesSent P.wants P.becomes made s plan w n x }
{}

/// The turn of a choice is the step of the node whose event has its place.
pub fn a_turn_is_a_step_of_its_node()
    ensures { (s : Setup) (plan : List FateRow) (w : World) (choice n : ℕ) (what : What) (incoming : Incoming) (st : Stepped) → TurnsAsNode s plan w choice n what incoming st }
{}

/// What turns did, ended or not, is by place a run by the plan, and a right and recent one, which has ended where all nodes have. The body names
/// the laws below that this stands on.
pub fn turns_are_right_so_far()
    ensures { (s : Setup) (plan : List FateRow) → IsSetup s → IsPlan plan → AfterTurns s plan (IsRightSoFar s plan) }
{
    turns_are_a_run_by_place();
    turns_come_to_right_runs();
    turns_are_recent();
}
