//! Laws of the histories of runs. Each stands on a function without a body, so that the check proves it.
ghost use Rattle.std.specs.Prelude.{◌≡◌, ◌^◌, Some, List, ◌∷◌};
ghost use Rattle.dom_history.specs.Events.{Happening};
ghost use Rattle.dom_history.specs.Legal.{IsLegal};
ghost use Rattle.node_runs.specs.Setups.{Setup, IsSetup};
ghost use Rattle.node_runs.specs.NodesKeep.{IsTimely, InEveryRun};
ghost use Rattle.node_runs.specs.Runs.{Choice, World, world_after, world_of};
ghost use Rattle.node_runs.specs.RunHistories.{history_of};
ghost use Rattle.node_runs.specs.Deliveries.{IsPlanned};
ghost use Rattle.world_runs.specs.Picked.{IsPicked};
ghost use Rattle.run_laws.specs.MovedHistories.{IsHistoryMoved};
ghost use Rattle.run_laws.specs.DeskReplies.{AreDeskReplies};
ghost use Rattle.run_laws.specs.HomeReplies.{AreHomeReplies};
ghost use Rattle.node_runs.specs.DoubtfulRun as doubtful;

/// In every run in which no tick is above 2^40: what is done at a desk is answered as one store answers it, over what was done and told
/// before; and an operation that begins and is not done is one that its home may be asked, or an access that one store would do.
pub fn desks_reply_as_one_store_does()
    ensures { InEveryRun AreDeskReplies }
{}

/// And what a home decides is what one store says there; what it changes may be changed.
pub fn homes_reply_as_one_store_does()
    ensures { InEveryRun AreHomeReplies }
{}

/// In every run in which no tick is above 2^40 each event leaves the history as it was, or moves it by one of the seven changes that keep
/// it one of one store.
pub fn each_event_moves_the_history()
    ensures { (s : Setup) → IsSetup s → (cs : List Choice) (c : Choice) (old new : World) → world_after s cs ≡ Some old → world_after s (c ∷ cs) ≡ Some new → IsTimely new →
        IsHistoryMoved s old new }
{}

/// So the history of every such run is one of one store.
pub fn each_history_is_one_of_one_store()
    ensures { (s : Setup) → IsSetup s → (es : List Happening) (w : World) → world_of s es ≡ Some w → IsTimely w → IsLegal s.opening (history_of s es) }
{}

/// A run of two nodes in which eight frames of a lock are lost, which a seed picks by the plan: the eighth notice gives the lock's
/// call up, and the process is told that the lock is in doubt. The history has the one entry, at the place where the lock began,
/// and no act; nothing is open.
pub fn a_lock_of_which_eight_frames_are_lost_is_in_doubt()
    ensures setup { IsSetup doubtful.setup }
    ensures picked { IsPicked doubtful.setup doubtful.plan 0 (2 ^ 40) doubtful.events }
    ensures planned { IsPlanned doubtful.setup doubtful.plan doubtful.events }
    ensures history { history_of doubtful.setup doubtful.events ≡ doubtful.expected }
{}
