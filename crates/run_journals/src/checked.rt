//! Laws of journals that are checked against a script. Each body names the laws below that its proof stands on.
ghost use Rattle.std.specs.Prelude.{◌≡◌, ℕ, ◌≤◌, ◌<◌, ◌^◌, true, Some, List, ◌∷◌, ◌++◌, length};
ghost use Rattle.dom_history.specs.declared.event.What.{What};
ghost use Rattle.dom_history.specs.declared.event.What.TheVariants.{Take};
ghost use Rattle.dom_history.specs.declared.plan.FateRow.{FateRow};
ghost use Rattle.dom_history.specs.Events.{Happening};
ghost use Rattle.dom_history.specs.Plans.{IsPlan};
ghost use Rattle.ring_messages.specs.Frames.{Message};
ghost use Rattle.script_reader.specs.Scripts.{Content};
ghost use Rattle.node_runs.specs.Setups.{Setup, IsSetup, Given, IsGiven};
ghost use Rattle.node_runs.specs.NodeStates.{NodeState};
ghost use Rattle.node_runs.specs.Incomings.{Incoming, enabled};
ghost use Rattle.node_runs.specs.NodesKeep.{IsNodeOf, IsTimely};
ghost use Rattle.node_runs.specs.SentFrames.{IsFrame, IsIncoming};
ghost use Rattle.node_runs.specs.Outcomes.{Stepped};
ghost use Rattle.node_runs.specs.Steps.{Dropped, StepsTo, named_step};
ghost use Rattle.node_runs.specs.Runs.{World, IsRun, world_of, is_above};
ghost use Rattle.node_runs.specs.Deliveries.{IsPlanned};
ghost use Rattle.recent_runs.specs.Recent.{IsRecent};
ghost use Rattle.run_laws.specs.EveryRun.{IsRightRun};
ghost use Rattle.script_runs.specs.Histories.{IsAsOneStore};
ghost use Rattle.script_runs.specs.Reports.{names_of};
ghost use Rattle.script_runs.specs.Runs.{IsEndedRunOf};
ghost use Rattle.script_runs.specs.Setups.{setup_of};
ghost use Rattle.run_journals.specs.Begins.{CanRun};
ghost use Rattle.run_journals.specs.Journals.{journal_of};
ghost use Rattle.run_journals.specs.RecentRuns.{IsRecentRun};
ghost use Rattle.run_journals.specs.Deciding.{IsDecided};
ghost use Rattle.run_journals.specs.Places.{sent_in, AllKeepPlan};
ghost use Rattle.run_journals.specs.Accepted.{IsAcceptedOf, IsAccepted, IsJournalOfRun};
ghost use Rattle.run_journals.specs.Causes.{Cause, IsNo};
ghost use Rattle.run_journals.specs.OverFrames.{is_over, bare};

use crate::laws::the_journal_of_a_script_tells_its_run;
use journal_text::laws::journals_have_one_reading;
use run_laws::accounts::each_frame_of_a_run_says_the_next_number;
use run_laws::every::{a_run_of_few_events_is_timely, every_run_is_right};
use script_runs::laws::{
    an_ended_run_of_few_events_is_one_of_its_script, ended_runs_of_scripts_are_as_one_store,
    scripts_set_nodes_up,
};

/// Behind a recent run of fewer than 2^40 events, one event more makes a recent run exactly where it stands above the last one and is what comes of
/// what it is at its node, by that node's state and by what it receives.
pub fn a_step_is_decided_by_its_node()
    ensures good { (s : Setup) → IsSetup s → (e : Happening) (es : List Happening) (w : World) → IsRecentRun s es → world_of s es ≡ Some w → length es < 2 ^ 40 →
        is_above e.place es ≡ true → IsDecided s w e → IsRecentRun s (e ∷ es) }
    ensures above { (s : Setup) (e : Happening) (es : List Happening) → IsRecentRun s (e ∷ es) → is_above e.place es ≡ true }
    ensures only { (s : Setup) → IsSetup s → (e : Happening) (es : List Happening) (w : World) → world_of s es ≡ Some w → length es < 2 ^ 40 →
        IsRecentRun s (e ∷ es) → IsDecided s w e }
{
    a_run_of_few_events_is_timely();
}

/// An initial part of a recent run is one.
pub fn an_initial_part_of_a_recent_run_is_one()
    ensures { (s : Setup) (newer older : List Happening) → IsRecentRun s (newer ++ older) → IsRecentRun s older }
{}

/// A run is planned exactly where each of its events has its place by the plan, over all frames that were sent.
pub fn a_run_is_planned_where_each_event_has_its_place()
    ensures kept { (s : Setup) (plan : List FateRow) (es : List Happening) (w : World) → IsSetup s → world_of s es ≡ Some w → IsTimely w →
        IsPlanned s plan es → AllKeepPlan plan (sent_in es) es }
    ensures planned { (s : Setup) (plan : List FateRow) (es : List Happening) (w : World) → IsSetup s → IsPlan plan → IsRun s es → world_of s es ≡ Some w → IsTimely w →
        AllKeepPlan plan (sent_in es) es → IsPlanned s plan es }
{
    each_frame_of_a_run_says_the_next_number();
}

/// A journal that is accepted has no line at fault, and one that is not has one such line and cause at most.
pub fn a_journal_has_one_verdict()
    ensures never_both { (s : Content) (bytes : List ℕ) (line : ℕ) (cause : Cause) → CanRun s → IsAccepted s bytes → IsNo s bytes line cause → ⊥ }
    ensures one { (s : Content) (bytes : List ℕ) (m n : ℕ) (c d : Cause) → CanRun s → length bytes ≤ 2 ^ 40 → IsNo s bytes m c → IsNo s bytes n d → (m ≡ n) × (c ≡ d) }
    ensures one_run { (s : Content) (bytes : List ℕ) (es fs : List Happening) (w v : World) → CanRun s →
        IsAcceptedOf s bytes es w → IsAcceptedOf s bytes fs v → es ≡ fs }
{
    a_run_of_few_events_is_timely();
    journals_have_one_reading();
    an_initial_part_of_a_recent_run_is_one();
    a_run_is_planned_where_each_event_has_its_place();
    scripts_set_nodes_up();
}

/// What is accepted is all that is said of every run: its history is one of one store, which follows the script in phases that never overlap to its
/// end, and homes have at each unlock what the holder modified; and so it was behind each of its events.
pub fn an_accepted_journal_is_of_one_store()
    ensures one_store { (s : Content) (bytes : List ℕ) (es : List Happening) (w : World) → CanRun s → IsAcceptedOf s bytes es w → IsAsOneStore s es w }
    ensures right { (s : Content) (bytes : List ℕ) (es : List Happening) (w : World) → CanRun s → IsAcceptedOf s bytes es w → IsRightRun (setup_of s) es }
    ensures few { (s : Content) (bytes : List ℕ) (es : List Happening) (w : World) → length es ≤ 2 ^ 40 → IsJournalOfRun s bytes es w → IsAcceptedOf s bytes es w }
{
    ended_runs_of_scripts_are_as_one_store();
    every_run_is_right();
    scripts_set_nodes_up();
    an_ended_run_of_few_events_is_one_of_its_script();
}

/// The journal of each ended and recent run of a script is accepted, whoever made the run.
pub fn journals_of_runs_are_accepted()
    ensures { (s : Content) (es : List Happening) (w : World) → CanRun s → IsEndedRunOf s es w → IsRecent (setup_of s) es →
        IsAcceptedOf s (journal_of (names_of s) es) es w }
{
    the_journal_of_a_script_tells_its_run();
}

/// Where the call of a frame is over at a node, taking the frame does there what taking its head does, and so it stays from then on.
pub fn a_frame_whose_call_is_over_is_its_head()
    ensures enabled { (g : Given) (n : NodeState) (from index : ℕ) (m : Message) →
        enabled g n (Take from index) (Incoming.Frame m) ≡ enabled g n (Take from index) (Incoming.Frame (bare m)) }
    ensures step { (g : Given) (n : NodeState) (from index : ℕ) (m : Message) → is_over n m ≡ true →
        named_step g n (Take from index) (Incoming.Frame m) ≡ named_step g n (Take from index) (Incoming.Frame (bare m)) }
    ensures stays { (g : Given) (n : NodeState) (what : What) (incoming : Incoming) (dropped : Dropped) (st : Stepped) (m : Message) →
        IsGiven g → IsNodeOf g n → IsIncoming incoming → IsFrame m → StepsTo g n what incoming dropped st → is_over n m ≡ true → is_over st.node m ≡ true }
{}
