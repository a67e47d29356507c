//! Laws of recent runs of nodes alone. Each stands on a function without a body, so that the check proves it.
ghost use Rattle.std.specs.Prelude.{ℕ, List, []};
ghost use Rattle.dom_history.specs.Events.{Happening};
ghost use Rattle.node_runs.specs.Setups.{Setup, IsSetup};
ghost use Rattle.node_runs.specs.Runs.{World};
ghost use Rattle.local_runs.specs.LocalRuns.{Own, IsLocalRun, AreLocalRuns, IsMergeOf};
ghost use Rattle.local_runs.specs.NamedRuns.{AreNamedAlone, AreAllNamedAlone};
ghost use Rattle.local_runs.specs.NamedSteps.{GoesOnAsNamed};
ghost use Rattle.local_runs.specs.TimelyRuns.{IsRecentWhereTimely};

/// A node alone that does step after step with the page that its cache names has a run of which each event is named.
pub fn named_steps_are_named_alone()
    ensures begins { (s : Setup) (n : ℕ) → AreNamedAlone s n [] }
    ensures goes_on { (s : Setup) (n : ℕ) (own : List Own) (w : World) → IsLocalRun s n own w → AreNamedAlone s n own →
        GoesOnAsNamed s n own w }
{}

/// The events of runs of nodes alone, in which all that is received was sent, are by place a recent run where each node made room as its
/// cache names it.
pub fn named_local_runs_are_recent()
    ensures { (s : Setup) → IsSetup s → (owns : ℕ → List Own) (ws : ℕ → World) (es : List Happening) → AreLocalRuns s owns ws → IsMergeOf owns es →
        AreAllNamedAlone s owns → IsRecentWhereTimely s es }
{}
