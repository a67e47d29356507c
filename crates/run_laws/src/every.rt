//! Laws of every run. Each body names the laws below that its proof stands on.
ghost use Rattle.std.specs.Prelude.{◌≡◌, ◌≢◌, ℕ, ◌^◌, ◌≤◌, Some, None, List, [], ◌∷◌, length};
ghost use Rattle.uid_names.specs.Names.{ProcName};
ghost use Rattle.dom_history.specs.declared.op.Entry.{Entry};
ghost use Rattle.dom_history.specs.declared.op.Reply.TheVariants.{Fine, NotHeld};
ghost use Rattle.dom_history.specs.declared.op.Want.{Want};
ghost use Rattle.dom_history.specs.declared.op.Want.TheVariants.{Phase, Done};
ghost use Rattle.dom_history.specs.declared.plan.FateRow.{FateRow};
ghost use Rattle.dom_history.specs.Events.{Happening};
ghost use Rattle.dom_history.specs.Follows.{Heard, Reaches, IsEnded};
ghost use Rattle.dom_history.specs.Histories.{History};
ghost use Rattle.dom_history.specs.Plans.{IsPlan};
ghost use Rattle.node_runs.specs.Setups.{Setup, IsSetup};
ghost use Rattle.node_runs.specs.NodesKeep.{IsTimely};
ghost use Rattle.node_runs.specs.Runs.{World, IsRun, HasEnded, world_of};
ghost use Rattle.node_runs.specs.RunHistories.{history_of};
ghost use Rattle.node_runs.specs.Deliveries.{IsPlanned};
ghost use Rattle.world_runs.specs.ByPlace.{by_place};
ghost use Rattle.world_runs.specs.EveryTurn.{AfterTurns};
ghost use Rattle.world_runs.specs.Picked.{IsPicked};
ghost use Rattle.run_laws.specs.Paced.{IsPacedTo, ArePaced};
ghost use Rattle.run_laws.specs.DonePrograms.{AreProgramsDone};
ghost use Rattle.run_laws.specs.EveryRun.{IsRightAt, IsRightRun};
ghost use Rattle.world_runs.specs.EndedRuns.{IsEndedRun, EndsAlike};
ghost use Rattle.run_laws.specs.HeardOf.{heard_by_phase, heard_of, AsksForEachEntry};
ghost use Rattle.run_laws.specs.HeardByHistories.{heard_by_history, AreHeardByPhase, AreHeardByAsks, AreHeardAsSaid};
ghost use Rattle.run_laws.specs.HeardSamples as sample;

use crate::calls::{
    ended_runs_have_ended_histories, entries_are_what_programs_heard, histories_follow_programs,
    open_operations_stand_last, phases_never_overlap, programs_of_ended_runs_are_done,
};
use crate::ends::no_turn_is_stuck;
use crate::homes::an_open_call_finds_what_it_needs;
use crate::left::a_home_has_what_was_stored_at_an_unlock;
use crate::moves::each_history_is_one_of_one_store;
use world_runs::laws::{ticks_are_few, turns_are_a_run_by_place};

/// A run of at most 2^40 events gives no node a tick above 2^40.
pub fn a_run_of_few_events_is_timely()
    ensures { (s : Setup) (es : List Happening) (w : World) → IsRun s es → world_of s es ≡ Some w → length es ≤ 2 ^ 40 → IsTimely w }
{
    ticks_are_few();
}

/// Every run of at most 2^40 events is right, after its last event and after each one before, whatever becomes of frames, planned or
/// not, ended or not; and so is every run in which no tick is above 2^40.
pub fn every_run_is_right()
    ensures every { (s : Setup) → IsSetup s → (es : List Happening) → IsRun s es → length es ≤ 2 ^ 40 → IsRightRun s es }
    ensures timely { (s : Setup) → IsSetup s → (es : List Happening) (w : World) → IsRun s es → world_of s es ≡ Some w → IsTimely w → IsRightRun s es }
    ensures last { (s : Setup) → IsSetup s → (es : List Happening) (w : World) → IsRun s es → world_of s es ≡ Some w → IsTimely w → IsRightAt s es w }
{
    a_run_of_few_events_is_timely();
    each_history_is_one_of_one_store();
    phases_never_overlap();
    histories_follow_programs();
    entries_are_what_programs_heard();
    an_open_call_finds_what_it_needs();
    a_home_has_what_was_stored_at_an_unlock();
}

/// Turns are one way to a run: the events that they did, by place, are a run by the plan, and a right one; where all nodes have ended in
/// their world it has ended, in a world like that.
pub fn turns_come_to_right_runs()
    ensures planned { (s : Setup) (plan : List FateRow) → IsSetup s → IsPlan plan → AfterTurns s plan (λ w. IsPlanned s plan (by_place w.done)) }
    ensures right { (s : Setup) (plan : List FateRow) → IsSetup s → IsPlan plan → AfterTurns s plan (λ w. IsRightRun s (by_place w.done)) }
    ensures ended { (s : Setup) (plan : List FateRow) → IsSetup s → IsPlan plan → AfterTurns s plan (λ w. HasEnded s w → EndsAlike s plan (by_place w.done) w) }
{
    turns_are_a_run_by_place();
    every_run_is_right();
}

/// The run that a seed picks has ended, in a world like that in which its turns end.
pub fn a_picked_run_has_ended()
    ensures { (s : Setup) (plan : List FateRow) (seed last : ℕ) → IsSetup s → IsPlan plan → last ≤ 2 ^ 40 → (es : List Happening) →
        (is : IsPicked s plan seed last es) → EndsAlike s plan es is.world }
{
    turns_come_to_right_runs();
    no_turn_is_stuck();
}

/// Where a run has ended each program is done, and so has its history: nothing is open, and each process has come to its end.
pub fn an_ended_run_ends_its_programs()
    ensures history { (s : Setup) (plan : List FateRow) → IsSetup s → ArePaced s → (es : List Happening) (w : World) →
        IsEndedRun s plan es w → IsTimely w → IsEnded s.asks (history_of s es) }
    ensures programs { (s : Setup) (plan : List FateRow) → IsSetup s → ArePaced s → (es : List Happening) (w : World) →
        IsEndedRun s plan es w → IsTimely w → AreProgramsDone s w }
{
    ended_runs_have_ended_histories();
    programs_of_ended_runs_are_done();
}

/// What a program heard is what its entries say: by the phase that it is in, and, where it asks for no phase, by what it asks. Each entry
/// is what the program asked for behind those before it.
pub fn entries_say_what_was_heard()
    ensures phases { (ask : Heard → Want) (es : List Entry) (heard : Heard) (phase : ℕ) → Reaches ask es heard phase → heard ≡ heard_by_phase es phase }
    ensures asks { (ask : Heard → Want) (last : ℕ) → IsPacedTo ask last → (es : List Entry) (heard : Heard) (phase : ℕ) →
        Reaches ask es heard phase → ask heard ≢ Phase → heard ≡ heard_of ask last es }
    ensures each { (ask : Heard → Want) (last : ℕ) → IsPacedTo ask last → AsksForEachEntry ask last }
{}

/// So the history of a run says what each program heard: by the phase of its process until it is done, and, where it asks for no phase, by what
/// it asks; and so where the run has ended, and of any history that has ended.
pub fn histories_say_what_was_heard()
    ensures phases { (s : Setup) → IsSetup s → (es : List Happening) (w : World) → world_of s es ≡ Some w → IsTimely w →
        AreHeardByPhase s (history_of s es) w }
    ensures asks { (s : Setup) → IsSetup s → ArePaced s → (es : List Happening) (w : World) → world_of s es ≡ Some w → IsTimely w →
        AreHeardByAsks s (history_of s es) w }
    ensures ended { (s : Setup) (plan : List FateRow) → IsSetup s → ArePaced s → (es : List Happening) (w : World) → IsEndedRun s plan es w → IsTimely w →
        AreHeardAsSaid s (history_of s es) w }
    ensures ended_history { (s : Setup) → ArePaced s → (h : History) → IsEnded s.asks h → (p : ProcName) →
        s.asks p (heard_by_history s h p) ≡ Done }
{
    open_operations_stand_last();
    an_ended_run_ends_its_programs();
    entries_say_what_was_heard();
}

/// What a program with phases heard, and the process of a worked run.
pub fn the_samples_heard()
    ensures asks { heard_of sample.asks 5 sample.entries ≡ sample.heard }
    ensures phases { heard_by_phase sample.entries 5 ≡ sample.heard }
    ensures fewer { heard_by_phase sample.entries 4 ≡ Some Fine ∷ None ∷ None ∷ Some NotHeld ∷ None ∷ [] }
    ensures nothing { heard_of sample.asks 5 [] ≡ None ∷ [] }
    ensures first_run { sample.heard_in_first ≡ sample.first_heard }
{}
