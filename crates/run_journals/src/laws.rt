//! Laws of bytes, of scripts and of journals. Each body names the laws below that its proof stands on.
ghost use Rattle.std.specs.Prelude.{ℕ, ◌^◌, ◌≤◌, List, length, All};
ghost use Rattle.dom_history.specs.Events.{Happening};
ghost use Rattle.dom_history.specs.NodeTexts.{AreNodeNames};
ghost use Rattle.script_reader.specs.Grammar.{IsScript};
ghost use Rattle.script_reader.specs.Scripts.{Content};
ghost use Rattle.script_maker.specs.Generated.{generated};
ghost use Rattle.journal_text.specs.Written.{IsWritten};
ghost use Rattle.node_runs.specs.Setups.{Setup, IsSetup};
ghost use Rattle.node_runs.specs.Runs.{World, IsRun};
ghost use Rattle.script_runs.specs.Reports.{names_of};
ghost use Rattle.script_runs.specs.Runs.{IsEndedRunOf, OfPickedRuns};
ghost use Rattle.script_runs.specs.Setups.{setup_of};
ghost use Rattle.run_journals.specs.Begins.{CanRun};
ghost use Rattle.run_journals.specs.Journals.{IsTimelyRun, SpellsOnly, journal_of, AreRunsTold, AreJournalsApart};

use journal_text::laws::journals_have_one_reading;
use node_runs::laws::{each_node_of_a_run_agrees_with_its_desk, places_rise};
use run_laws::homes::homes_stand_for_what_is_kept;
use script_runs::laws::{a_seed_picks_one_run_of_a_script, scripts_set_nodes_up};
use world_runs::laws::{events_name_nodes, ticks_are_few};

/// Bytes that are a script say what a run can begin with.
pub fn a_script_can_be_run()
    ensures { (bytes : List ℕ) (s : Content) → IsScript bytes s → CanRun s }
{}

/// So does the script that a seed gives.
pub fn a_generated_script_can_be_run()
    ensures { (seed : ℕ) → CanRun (generated seed) }
{}

/// Each event of a run has a line in a journal, whatever names its nodes have.
pub fn each_event_can_be_spelled()
    ensures { (s : Setup) → IsSetup s → (names : List (List ℕ)) → s.opening.nodes ≤ length names → (events : List Happening) → IsTimelyRun s events →
        All (IsWritten names) events }
{
    each_node_of_a_run_agrees_with_its_desk();
    events_name_nodes();
    homes_stand_for_what_is_kept();
}

/// So a run has a journal, and the bytes of it tell which run it was: they are the journal of no other events, whatever these are. Two
/// runs with the same journal are one, whatever their nodes were given.
pub fn a_journal_tells_its_run()
    ensures spells { (s : Setup) → IsSetup s → (names : List (List ℕ)) → AreNodeNames names → s.opening.nodes ≤ length names →
        AreRunsTold names s }
    ensures one { (s t : Setup) → IsSetup s → IsSetup t → (names : List (List ℕ)) → AreNodeNames names → s.opening.nodes ≤ length names → t.opening.nodes ≤ length names →
        AreJournalsApart names s t }
    // Such is each run of at most 2^40 events.
    ensures few { (s : Setup) (events : List Happening) → IsRun s events → length events ≤ 2 ^ 40 → IsTimelyRun s events }
{
    each_event_can_be_spelled();
    journals_have_one_reading();
    places_rise();
    ticks_are_few();
}

/// So does the journal of a script's run, by the names that the script gives its nodes: the bytes are the journal of no other events. Such is each
/// run of the script that has ended, and the one that a seed picks; and two runs of a script with the same journal are one.
pub fn the_journal_of_a_script_tells_its_run()
    ensures runs { (s : Content) → CanRun s → AreRunsTold (names_of s) (setup_of s) }
    ensures ended { (s : Content) → CanRun s → (events : List Happening) (w : World) → IsEndedRunOf s events w →
        SpellsOnly (names_of s) (journal_of (names_of s) events) events }
    ensures picked { (s : Content) (seed last : ℕ) → CanRun s → last ≤ 2 ^ 40 →
        OfPickedRuns s seed last (λ events w. SpellsOnly (names_of s) (journal_of (names_of s) events) events) }
    ensures one { (s : Content) → CanRun s → AreJournalsApart (names_of s) (setup_of s) (setup_of s) }
{
    a_journal_tells_its_run();
    a_seed_picks_one_run_of_a_script();
    scripts_set_nodes_up();
}
