//! Laws of a node alone. Each stands on a function without a body, so that the check proves it.
ghost use Rattle.node_runs.specs.Setups.{Given, IsGiven};
ghost use Rattle.node_runs.specs.NodeStates.{NodeState};
ghost use Rattle.node_runs.specs.Doings.{ticked};
ghost use Rattle.node_runs.specs.NodesKeep.{IsNodeOf, AtEveryNode, InEveryRun};
ghost use Rattle.node_runs.specs.NodesKeep.{Reached};
ghost use Rattle.run_laws.specs.NodeSteps.{OfEachStep, EachStepKeeps, EachStepKeepsWith};
ghost use Rattle.run_laws.specs.DeskSteps.{NodeMove};
ghost use Rattle.run_laws.specs.AskedHomes.{AreCallsAtHomes};
ghost use Rattle.run_laws.specs.OpenCalls.{AreCarried};
ghost use Rattle.run_laws.specs.Released.{AreReleased};
ghost use Rattle.run_laws.specs.WaitingReleases.{AreOpenReleases};
ghost use Rattle.run_laws.specs.ToldAnswers.{IsEnded, AreTold};
ghost use Rattle.run_laws.specs.KeptLocks.{AreKeptWithout};
ghost use Rattle.run_laws.specs.OpenTasks.{AreTasksWithin, AreTasksPlaced, AreTransits};

/// Each event of a node leaves its desk, and what its processes await, as they were; or one process's operation begins, goes
/// on, is answered or fails, and moves the desk by the changes that a desk knows, while the others await what they did. The
/// one call of a new object, and that of a list, is the one that its operand gives.
pub fn each_event_moves_its_desk_for_one_operation()
    ensures { OfEachStep (λ g n incoming s. NodeMove g (ticked n incoming) incoming s) }
{}

/// Wherever a node's events led, what its open calls carry fits its desk. A page on its way home is dirty, and has the bytes
/// that were sent until it is stored to; its call's grant is that of a process of the node that keeps the object in a mode
/// that writes. A length on its way home is under its process's own grant, and not above the known one. No base is above the
/// seen stamp. An open lock is of an object on which its process is Free, an open release of one on which it is not, an open
/// removal of one that is held to be removed. A process without such a call moves no page.
pub fn what_open_calls_carry_fits()
    ensures step { EachStepKeeps AreCarried }
    ensures reached { (g : Given) → IsGiven g → (n : NodeState) → Reached g n → AreCarried n }
{}

/// So it is at each node of every run in which no tick is above 2^40.
pub fn what_open_calls_of_a_run_carry_fits()
    ensures { AtEveryNode AreCarried }
{}

/// So each process moves the page that its open call asks for or sends, and no other.
pub fn a_process_moves_what_its_call_asks()
    ensures { (n : NodeState) → AreCarried n → AreTransits n }
{}

/// A lock that is Held was given up, or its object's removal sent, exactly where its process's open call does so: else the process
/// keeps it.
pub fn a_lock_is_given_up_by_an_open_call()
    ensures { (g : Given) (n : NodeState) → IsNodeOf g n → AreReleased n }
{}

/// Wherever a node's events led, each open load ends within the known length of its object, and each open store within the
/// known room.
pub fn open_loads_and_stores_lie_within_what_is_known()
    ensures step { EachStepKeeps (λ n. AreTasksWithin n.desk) }
    ensures reached { (g : Given) → IsGiven g → (n : NodeState) → Reached g n → AreTasksWithin n.desk }

    // So at each node of every run in which no tick is above 2^40.
    ensures runs { AtEveryNode (λ n. AreTasksWithin n.desk) }
{}

/// In every run in which no tick is above 2^40 each call about an object asks the object's home.
pub fn each_call_asks_the_home_of_its_object()
    ensures { InEveryRun (λ s w. AreCallsAtHomes w) }
{}

/// Wherever a node's events led, each open load or store is one of its process's open operation, at the place that its spot
/// names.
pub fn open_loads_and_stores_are_at_their_spots()
    ensures step { EachStepKeeps AreTasksPlaced }
    ensures reached { (g : Given) → IsGiven g → (n : NodeState) → Reached g n → AreTasksPlaced n }

    // So at each node of every run in which no tick is above 2^40.
    ensures runs { AtEveryNode AreTasksPlaced }
{}

/// An open unlock or delete keeps its lock in a mode that writes, a delete in one that removes, while it waits for a page of
/// the object, or sends pages or the length home, under its process's own grant; then it sends its release or its removal.
pub fn a_release_keeps_its_lock_until_it_is_sent()
    ensures step { EachStepKeepsWith AreCarried AreOpenReleases }
    ensures reached { (g : Given) → IsGiven g → (n : NodeState) → Reached g n → AreOpenReleases n }

    // So at each node of every run in which no tick is above 2^40.
    ensures runs { AtEveryNode AreOpenReleases }
{}

/// An operation is ended by its desk, which can only refuse a lock, a release or a removal; by the answer to its last call, as that
/// answer tells; or by a link fault: Kept where a page or the length was sent before a release, Doubt where a lock, a release or a
/// removal was, else LinkFault.
pub fn an_operation_ends_by_its_desk_an_answer_or_a_fault()
    ensures { OfEachStep (λ g n incoming s. IsEnded g (ticked n incoming) incoming s.note) }
{}

/// So in every run in which no tick is above 2^40 what a process was told of a call is what its home decided, or a link fault; a call
/// that settles an operation is of that operation; and what was done at a desk changes no lock and no object.
pub fn processes_are_told_what_was_decided()
    ensures { InEveryRun (λ s w. AreTold w) }
{}

/// In every run in which no tick is above 2^40 an operation that was answered Kept has no act in the history.
pub fn an_operation_answered_kept_has_no_act()
    ensures { InEveryRun AreKeptWithout }
{}
