//! Laws of effects and deeds. Each stands on a function without a body, so that the check proves it.
ghost use Rattle.node_runs.specs.NodesKeep.{InEveryRun};
ghost use Rattle.run_laws.specs.NotedEffects.{AreEffectsNoted};
ghost use Rattle.run_laws.specs.NotedDeeds.{AreDeedsTold};
ghost use Rattle.run_laws.specs.NotedRooms.{AreRoomsAlways};
ghost use Rattle.run_laws.specs.States.{AreStatesTold};
ghost use Rattle.run_laws.specs.Targets.{AreTargetsTold};

/// In every run in which no tick is above 2^40 the history does to the store, up to each place, what the notes up to there say.
pub fn a_history_does_what_was_noted()
    ensures { InEveryRun (λ s w. AreEffectsNoted w) }
{}

/// And it tells each process what the notes do, in their order.
pub fn a_history_tells_what_was_noted()
    ensures { InEveryRun AreDeedsTold }
{}

/// At each place an object that its home has has there the room that it was made with.
pub fn rooms_are_those_of_the_homes()
    ensures { InEveryRun AreRoomsAlways }
{}

/// In every run in which no tick is above 2^40 the lock states that a desk has of a process are those that the process was told.
pub fn desks_have_the_locks_that_were_told()
    ensures { InEveryRun AreStatesTold }
{}

/// And a spot of a process names the same place at its desk and in the store.
pub fn desks_have_the_mappings_of_the_store()
    ensures { InEveryRun AreTargetsTold }
{}
