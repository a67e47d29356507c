//! Laws of what processes leave at home. Each stands on a function without a body, so that the check proves it.
ghost use Rattle.std.specs.Prelude.{◌≡◌, Some, List};
ghost use Rattle.uid_names.specs.Openings.{Start};
ghost use Rattle.dom_history.specs.Events.{Happening};
ghost use Rattle.node_runs.specs.Setups.{Setup, IsSetup};
ghost use Rattle.node_runs.specs.NodesKeep.{IsTimely, InEveryRun};
ghost use Rattle.node_runs.specs.Runs.{World, world_of, IsRun};
ghost use Rattle.run_laws.specs.TwoStorers.{AreTwoStorers};
ghost use Rattle.run_laws.specs.Left.{AreLeft};
ghost use Rattle.run_laws.specs.Sharing.{AreAloneUnshared};
ghost use Rattle.run_laws.specs.Releases.{AreReleasesHome};
ghost use Rattle.run_laws.specs.HomesAtUnlocks.{HomesHaveAll};

/// Of two processes that store to one object each is the last storer of its own bytes, and has its own end.
pub fn the_last_storer_is_the_last()
    ensures { (opening : Start) → AreTwoStorers opening }
{}

/// In every run in which no tick is above 2^40: of a process that does not keep an object, the home has the bytes whose last store is its, and no
/// length below its stores; and so has each write of the object that may still be taken.
pub fn what_is_left_is_at_home()
    ensures { InEveryRun AreLeft }
{}

/// In every such run, by the history: a process that holds an object in a mode that is not shared is alone, since no other holds it shared then.
pub fn who_does_not_share_is_alone()
    ensures { InEveryRun AreAloneUnshared }
{}

/// So where a home takes back a lock that its process held, it has what that process stored; and each byte and the length as one store has
/// them, where no other process holds the object shared.
pub fn a_home_has_what_was_stored_where_a_lock_is_given_back()
    ensures { InEveryRun AreReleasesHome }
{}

/// And where the history has the unlock of a process that held its object, the home of the object has so what the history says, with all that was
/// decided up to there.
pub fn a_home_has_what_was_stored_at_an_unlock()
    ensures { (s : Setup) → IsSetup s → (es : List Happening) (w : World) → IsRun s es → world_of s es ≡ Some w → IsTimely w → HomesHaveAll s es }
{}
