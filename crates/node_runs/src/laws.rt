//! Laws of a node's events and of runs. Each stands on a function without a body, so that the check
//! proves it.
ghost use Rattle.std.specs.Prelude.{◌≡◌, ◌+◌, ℕ, max, true, List, [], ◌∷◌, Some, None, IfSome};
ghost use Rattle.ring_messages.specs.Frames.{IsInRange};
ghost use Rattle.dom_history.specs.declared.event.What.{What};
ghost use Rattle.dom_history.specs.Events.{Happening, IsEvent, AreEffects};
ghost use Rattle.dom_history.specs.Objects.{is_node};
ghost use Rattle.node_runs.specs.Setups.{Given, IsGiven, Setup, IsSetup, given};
ghost use Rattle.node_runs.specs.NodeStates.{NodeState, first_node};
ghost use Rattle.node_runs.specs.Incomings.{Incoming, tick_of, enabled};
ghost use Rattle.node_runs.specs.Outcomes.{Stepped};
ghost use Rattle.node_runs.specs.Steps.{Dropped, StepsTo, Happens};
ghost use Rattle.node_runs.specs.RoomMade.{TakesEachVictim, TookSomeVictim};
ghost use Rattle.node_runs.specs.Alikes.{AreAlikeGiven, AreAlike, DoesAlike};
ghost use Rattle.node_runs.specs.Doings.{ticked};
ghost use Rattle.node_runs.specs.Dones.{Did};
ghost use Rattle.node_runs.specs.SentFrames.{IsIncoming, AreFrames, AreOfWire};
ghost use Rattle.node_runs.specs.NodesKeep.{IsNodeOf, AtEachStep, IsCounted, Reached, IsTimely, InEveryRun};
ghost use Rattle.node_runs.specs.Runs.{IsRun, Choice, World, world_after, world_of, AreRising};
ghost use Rattle.node_runs.specs.CallsKeep.{HasProcs, EachOf, AreCalls};
ghost use Rattle.node_runs.specs.DecidedCalls.{AreDecisions};
ghost use Rattle.node_runs.specs.Replays.{AreReplays};
ghost use Rattle.node_runs.specs.RunHistories.{history_of};
ghost use Rattle.node_runs.specs.FirstRun as one;
ghost use Rattle.node_runs.specs.FirstRun.{x};
ghost use Rattle.node_runs.specs.SecondRun as two;
ghost use Rattle.node_runs.specs.ThirdRun as three;

/// An enabled event happens, with some pages dropped: those that are dropped where the cache names the page that makes
/// room are such. No other event happens, and one that happens drops just the pages that it is said to drop.
pub fn an_enabled_event_happens()
    ensures happens { (g : Given) (n : NodeState) (what : What) (incoming : Incoming) →
        IsGiven g → IsNodeOf g n → IsIncoming incoming → enabled g n what incoming ≡ true → Happens g n what incoming }
    ensures only { (g : Given) (n : NodeState) (what : What) (incoming : Incoming) (dropped : Dropped) (s : Stepped) →
        StepsTo g n what incoming dropped s → enabled g n what incoming ≡ true }
    ensures drops { (g : Given) (n : NodeState) (what : What) (incoming : Incoming) (dropped : Dropped) (s : Stepped) →
        StepsTo g n what incoming dropped s → s.effects.dropped ≡ dropped }
{}

/// Which page makes room is free: where an access needs room, it is made in each way in which it may be, with the pages
/// that are dropped then, and in no other.
pub fn which_page_makes_room_is_free()
    ensures each { (g : Given) (n : NodeState) (what : What) (incoming : Incoming) → TakesEachVictim g n what incoming }
    ensures only { (g : Given) (n : NodeState) (what : What) (incoming : Incoming) (dropped : Dropped) (s : Stepped) → TookSomeVictim g n what incoming dropped s }
{}

/// Each step did one of the twelve things that an event can do.
pub fn each_step_did_one_thing()
    ensures { (g : Given) (n : NodeState) (what : What) (incoming : Incoming) (dropped : Dropped) (s : Stepped) →
        StepsTo g n what incoming dropped s → Did g (ticked n incoming) what incoming s }
{}

/// Nodes that differ only in what their programs heard before and in the order in which marks were taken do the same at
/// an event, and are told the same.
pub fn an_event_asks_nothing_of_the_past()
    ensures enabled { (g h : Given) (n m : NodeState) (what : What) (incoming : Incoming) →
        AreAlikeGiven g h n m → AreAlike n m → enabled g n what incoming ≡ enabled h m what incoming }
    ensures step { (g h : Given) (n m : NodeState) (what : What) (incoming : Incoming) (s : Stepped) →
        AreAlikeGiven g h n m → AreAlike n m → DoesAlike g h n m what incoming s }
{}

/// Each step's tick is one more than the greater of its node's tick and that of what it receives.
pub fn ticks_rise()
    ensures { (g : Given) (n : NodeState) (what : What) (incoming : Incoming) (dropped : Dropped) (s : Stepped) →
        StepsTo g n what incoming dropped s → s.node.tick ≡ max n.tick (tick_of incoming) + 1 }
{}

/// No number is above the tick, so that none of them wraps while ticks are below a limit: each event sends one
/// frame, makes one call, and gives one grant, one counter and one stamp of an object at most.
pub fn numbers_are_within_the_tick()
    ensures step { (g : Given) (n : NodeState) (what : What) (incoming : Incoming) (dropped : Dropped) (s : Stepped) →
        IsCounted n → StepsTo g n what incoming dropped s → IsCounted s.node }
    ensures first { (s : Setup) → IsSetup s → (n : ℕ) → IsCounted (first_node (given s n)) }
{}

/// An initial part of a run is a run.
pub fn an_initial_part_of_a_run_is_a_run()
    ensures { (s : Setup) (e : Happening) (es : List Happening) → IsRun s (e ∷ es) → IsRun s es }
{}

/// In every run the places rise, and no number of a node is above its tick.
pub fn places_rise()
    ensures places { (s : Setup) (cs : List Choice) (w : World) → world_after s cs ≡ Some w → AreRising w.done }
    ensures counted { (s : Setup) → IsSetup s → (cs : List Choice) (w : World) → world_after s cs ≡ Some w → (n : ℕ) → IsCounted (w.nodes n) }
{}

/// The conditions on a set-up give each node its own: the opening, five frames at least, processes from 1 to 4, and
/// wants in their ranges.
pub fn what_a_setup_gives()
    ensures given { (s : Setup) → IsSetup s → (n : ℕ) → is_node s.opening n ≡ true → IsGiven (given s n) }
    ensures procs { (s : Setup) → IsSetup s → HasProcs s }
{}

/// Wherever its events led, a node's desk is one and agrees with each of its processes: one that does nothing may begin,
/// one that waits may go on, and an open call is of its operation, stands, and asks what it can be asked. Its home side is
/// one. An open operation is what its program wants, and each program was told what fits, and of no object but real ones.
/// All rooms, lengths and pages that it knows can be written in its version. What a node sends is a frame in its range, and
/// what the journal has of its events is what each event's effects keep.
pub fn each_reached_node_agrees_with_its_desk()
    ensures step { AtEachStep (λ g s. IsNodeOf g s.node) }
    ensures sends { AtEachStep (λ g s. IfSome s.frame IsInRange) }
    ensures effects { AtEachStep (λ g s. AreEffects s.effects) }
    ensures reached { (g : Given) → IsGiven g → (n : NodeState) → Reached g n → IsNodeOf g n }
{}

/// So does each node of every run in which no tick is above 2^40; each frame that was ever sent is one, and each event is
/// one that a journal can have. Whatever the ticks, each frame is of the version that all the nodes are given.
pub fn each_node_of_a_run_agrees_with_its_desk()
    ensures nodes { (s : Setup) → IsSetup s → (cs : List Choice) (w : World) → world_after s cs ≡ Some w → IsTimely w →
        (n : ℕ) → is_node s.opening n ≡ true → IsNodeOf (given s n) (w.nodes n) }
    ensures frames { InEveryRun (λ s w. AreFrames w) }
    ensures events { InEveryRun (λ s w. EachOf IsEvent w.done) }
    ensures wire { (s : Setup) → IsSetup s → (cs : List Choice) (w : World) → world_after s cs ≡ Some w → AreOfWire s.wire w }
{}

/// In every run, whatever becomes of frames: each request on a link is of a call of its process, so that one number
/// asks one thing of one home; each open call is one that its process made; and a process's numbers are those of its
/// calls.
pub fn each_request_is_of_a_call()
    ensures { (s : Setup) → HasProcs s → (cs : List Choice) (w : World) → world_after s cs ≡ Some w → AreCalls w }
{}

/// In every run each call is decided at most once, and only at the home that it asks; what is decided is what it asks.
pub fn each_call_is_decided_once()
    ensures { (s : Setup) → HasProcs s → (cs : List Choice) (w : World) → world_after s cs ≡ Some w → AreDecisions w }
{}

/// In every run the objects, pages and locks of each home are what its decisions made of them, one after the other, and
/// each answer is that of its decision.
pub fn homes_are_what_they_decided()
    ensures { (s : Setup) (cs : List Choice) (w : World) → world_after s cs ≡ Some w → AreReplays s w }
{}

/// A run of one node, and its history.
pub fn the_first_run()
    ensures run { IsRun one.setup one.events }
    ensures history { history_of one.setup one.events ≡ one.expected }
{}

/// A run of two nodes in which an answer is lost, and its history.
pub fn the_second_run()
    ensures run { IsRun two.setup two.events }
    ensures history { history_of two.setup two.events ≡ two.expected }
{}

/// Runs of one node in which room is made: by a clean page that is dropped, whichever, and by no other; or where all pages
/// are dirty by the one used longest ago, which is sent home and dropped then.
pub fn the_third_runs()
    ensures oldest { IsRun three.loading (three.loaded ((x, 0) ∷ [])) }
    ensures another { IsRun three.loading (three.loaded ((x, 2) ∷ [])) }
    ensures not_dirty { world_of three.loading (three.loaded ((x, 5) ∷ [])) ≡ None }
    ensures not_none { world_of three.loading (three.loaded []) ≡ None }
    ensures not_two { world_of three.loading (three.loaded ((x, 0) ∷ (x, 1) ∷ [])) ≡ None }
    ensures home { IsRun three.storing (three.stored ((x, 0) ∷ [])) }
    ensures home_only { world_of three.storing (three.stored ((x, 1) ∷ [])) ≡ None }
{}
