//! Laws of the runs of scripts. Each body names the laws below that its proof stands on.
ghost use Rattle.std.specs.Prelude.{◌≡◌, ◌⊎◌, ℕ, ◌^◌, ◌≤◌, List, length, All};
ghost use Rattle.uid_names.specs.Names.{ProcName};
ghost use Rattle.uid_names.specs.Openings.{IsStart};
ghost use Rattle.dom_history.specs.declared.op.Want.TheVariants.{Do};
ghost use Rattle.dom_history.specs.Events.{Happening};
ghost use Rattle.dom_history.specs.Follows.{FollowsAt};
ghost use Rattle.dom_history.specs.Histories.{History};
ghost use Rattle.script_reader.specs.Scripts.{Content, IsContent};
ghost use Rattle.aegis_shell.specs.Asking.{ask};
ghost use Rattle.aegis_shell.specs.Work.{jobs_of};
ghost use Rattle.node_runs.specs.Setups.{IsSetup};
ghost use Rattle.node_runs.specs.Runs.{World};
ghost use Rattle.world_runs.specs.ByPlace.{by_place};
ghost use Rattle.world_runs.specs.Draws.{EndsIn};
ghost use Rattle.world_runs.specs.NamedNodes.{NamesNodes};
ghost use Rattle.run_laws.specs.Paced.{ArePaced};
ghost use Rattle.world_runs.specs.EndedRuns.{IsEndedRun};
ghost use Rattle.script_runs.specs.Setups.{setup_of};
ghost use Rattle.script_runs.specs.Runs.{IsEndedRunOf, EndsAlikeOf, IsPickedRunOf, OfPickedRuns, PicksRun, ComesToTick};
ghost use Rattle.script_runs.specs.Answers.{heard_behind, command_behind, OfEachEntry, AreAllAnswered};
ghost use Rattle.script_runs.specs.Summaries.{AreAsManyAnswers};
ghost use Rattle.script_runs.specs.Histories.{script_history, AreAnswersOfHistory, IsAsOneStore};

use aegis_shell::laws::{
    asks_are_in_range, each_command_has_one_answer, shells_go_by_all_they_heard,
};
use run_laws::every::{
    a_picked_run_has_ended, a_run_of_few_events_is_timely, an_ended_run_ends_its_programs,
    entries_say_what_was_heard, every_run_is_right, histories_say_what_was_heard,
};
use run_laws::faults::{
    each_entry_of_a_link_fault_has_eight_notices, each_link_fault_has_one_entry,
    notices_bound_link_faults,
};
use world_runs::laws::{a_seed_picks_one_run, events_name_nodes, link_faults_are_few, turns_end};

/// What a script gives its nodes is a set-up, of which runs can be spoken.
pub fn scripts_set_nodes_up()
    ensures { (s : Content) → IsContent s → IsStart s.opening → IsSetup (setup_of s) }
{
    asks_are_in_range();
}

/// No process of a script wants a phase behind the script's last one, and one without a command wants nothing.
pub fn scripts_are_paced()
    ensures { (s : Content) → IsContent s → ArePaced (setup_of s) }
{
    shells_go_by_all_they_heard();
}

/// The turns of a seed end in one run of the script, or else give a node the last tick, and never do both. The run is what the turns did,
/// by place; it is planned by the script's faults and has ended, in nodes like those in which the turns end. There is no other run of that seed.
pub fn a_seed_picks_one_run_of_a_script()
    ensures ended { (s : Content) (seed last : ℕ) → IsContent s → IsStart s.opening → last ≤ 2 ^ 40 →
        OfPickedRuns s seed last (EndsAlikeOf s) }
    ensures either { (s : Content) (seed last : ℕ) → IsContent s → IsStart s.opening → 1 ≤ last → last ≤ 2 ^ 40 →
        PicksRun s seed last ⊎ ((node : ℕ) × ComesToTick s seed last node) }
    ensures ends { (s : Content) (seed last : ℕ) (w : World) → EndsIn (setup_of s) s.plan seed last w →
        (picked : IsPickedRunOf s seed last (by_place w.done)) × (picked.world ≡ w) }
    ensures not_both { (s : Content) (seed last node : ℕ) (events : List Happening) → IsPickedRunOf s seed last events → ComesToTick s seed last node → ⊥ }
    ensures one { (s : Content) (seed last : ℕ) (events others : List Happening) → IsPickedRunOf s seed last events → IsPickedRunOf s seed last others → events ≡ others }
{
    scripts_set_nodes_up();
    a_seed_picks_one_run();
    turns_end();
    a_picked_run_has_ended();
}

/// So is a run of at most 2^40 events that has ended, whoever picked it, a run of its script.
pub fn an_ended_run_of_few_events_is_one_of_its_script()
    ensures { (s : Content) (events : List Happening) (w : World) → IsEndedRun (setup_of s) s.plan events w → length events ≤ 2 ^ 40 → IsEndedRunOf s events w }
{
    a_run_of_few_events_is_timely();
}

/// Each event of an ended run of a script names nodes of the script alone.
pub fn ended_runs_of_scripts_name_their_nodes()
    ensures { (s : Content) → IsContent s → IsStart s.opening → (events : List Happening) (w : World) → IsEndedRunOf s events w → All (NamesNodes (length s.nodes)) events }
{
    scripts_set_nodes_up();
    events_name_nodes();
}

/// The answers of an ended run of a script are a function of the script and of the history, and so are its report and its summary: what its nodes
/// have heard, or those in which the turns of a seed end, gives the answers that the history says.
pub fn answers_are_functions_of_histories()
    ensures ended { (s : Content) → IsContent s → IsStart s.opening → (events : List Happening) (w : World) → IsEndedRunOf s events w →
        AreAnswersOfHistory s events w }
    ensures picked { (s : Content) (seed last : ℕ) → IsContent s → IsStart s.opening → last ≤ 2 ^ 40 →
        OfPickedRuns s seed last (AreAnswersOfHistory s) }
{
    scripts_set_nodes_up();
    scripts_are_paced();
    histories_say_what_was_heard();
    a_seed_picks_one_run_of_a_script();
}

/// In every ended run of a script each process has exactly one answer for each of its commands, and so there are as many answers as commands.
pub fn each_process_has_one_answer_for_each_command()
    ensures each { (s : Content) → IsContent s → IsStart s.opening → (events : List Happening) (w : World) → IsEndedRunOf s events w →
        AreAllAnswered s (script_history s events) }
    ensures all { (s : Content) → IsContent s → IsStart s.opening → (events : List Happening) (w : World) → IsEndedRunOf s events w →
        AreAsManyAnswers s (script_history s events) }
{
    scripts_set_nodes_up();
    scripts_are_paced();
    an_ended_run_ends_its_programs();
    histories_say_what_was_heard();
    each_command_has_one_answer();
}

/// Each entry of a history that follows a script is what its process asks behind those before it, for a command that it has: the one of which
/// the number is one more than that of the answers before it.
pub fn each_entry_is_of_a_command()
    ensures asked { (s : Content) → IsContent s → (h : History) (p : ProcName) → FollowsAt (ask s p) h p →
        OfEachEntry h p (λ past e. ask s p (heard_behind s p past) ≡ Do e.op) }
    ensures command { (s : Content) → IsContent s → (h : History) (p : ProcName) → FollowsAt (ask s p) h p →
        OfEachEntry h p (λ past e. command_behind s p past ≤ length (jobs_of s p)) }
{
    scripts_are_paced();
    entries_say_what_was_heard();
}

/// Every ended run of a script is as one store would have it, without nodes or caches.
pub fn ended_runs_of_scripts_are_as_one_store()
    ensures { (s : Content) → IsContent s → IsStart s.opening → (events : List Happening) (w : World) → IsEndedRunOf s events w → IsAsOneStore s events w }
{
    scripts_set_nodes_up();
    scripts_are_paced();
    every_run_is_right();
    an_ended_run_ends_its_programs();
    each_process_has_one_answer_for_each_command();
    each_entry_of_a_link_fault_has_eight_notices();
    notices_bound_link_faults();
    each_link_fault_has_one_entry();
    link_faults_are_few();
}
