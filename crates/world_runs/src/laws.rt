//! Laws of turns. Each stands on a function without a body, so that the check proves it.
ghost use Rattle.std.specs.Prelude.{◌≡◌, ◌⊎◌, ℕ, ◌+◌, ◌*◌, ◌^◌, ◌≤◌, false, Some, None, IfSome, List, [], ◌∷◌, ◌++◌, length, All, AllPairs};
ghost use Rattle.dom_history.specs.declared.event.What.{What};
ghost use Rattle.dom_history.specs.declared.plan.FateRow.{FateRow};
ghost use Rattle.dom_history.specs.Events.{Happening};
ghost use Rattle.dom_history.specs.Plans.{IsPlan};
ghost use Rattle.node_runs.specs.Setups.{Setup, IsSetup};
ghost use Rattle.fault_handler.specs.Desks.{IsNode};
ghost use Rattle.node_runs.specs.NodeStates.{emitted_to};
ghost use Rattle.node_runs.specs.NodesKeep.{IsTimely};
ghost use Rattle.node_runs.specs.Runs.{Choice, World, IsRun, AreRising, incoming_of, world_after, world_of};
ghost use Rattle.node_runs.specs.Incomings.{Incoming};
ghost use Rattle.node_runs.specs.Deliveries.{is_gone, noticed_in, IsPlanned};
ghost use Rattle.world_runs.specs.Waiting.{entries_put, entries_taken, waiting};
ghost use Rattle.world_runs.specs.Turns.{enabled_at, enabled_events, turn, after_turns};
ghost use Rattle.world_runs.specs.EveryTurn.{AfterTurns, AfterEveryTurn, AtEveryTurn, AtEveryTurnsEvent};
ghost use Rattle.world_runs.specs.EnabledParts.{all_enabled, enabled_starts, enabled_takes, enabled_mark};
ghost use Rattle.world_runs.specs.Sendings.{frames_on};
ghost use Rattle.world_runs.specs.Links.{link_of};
ghost use Rattle.call_once.specs.declared.asking.TheConstants.{MOST_NOTICES};
ghost use Rattle.world_runs.specs.Gone.{gone_in};
ghost use Rattle.world_runs.specs.Faults.{same_call, faults_in, IsFaultlessNote, notices_of, AreCounted};
ghost use Rattle.world_runs.specs.Picked.{IsPicked};
ghost use Rattle.world_runs.specs.NamedNodes.{NamesNodes};
ghost use Rattle.world_runs.specs.OpenNotices.{open_notices, notices_kept};
ghost use Rattle.world_runs.specs.LeftAlone.{IsLeftAlone};
ghost use Rattle.world_runs.specs.EveryRunBy.{InEveryRunBy};
ghost use Rattle.node_runs.specs.FirstRun as one;
ghost use Rattle.node_runs.specs.SecondRun as two;
ghost use Rattle.world_runs.specs.Draws.{draws, GoesNoFurther, EndsIn, ComesToLast, ticks_in};
ghost use Rattle.world_runs.specs.SampleTurns.{first_choices, second_choices, fifth_events, events_by, events_in_turn, enabled_after, swapped};
ghost use Rattle.world_runs.specs.ByPlace.{by_place, events_of, IsLike, LeadsAlike};

/// The events of turns, by place, are a run by the plan, which leads to the same nodes, frames, marks and calls; each node's
/// events stand in it as they were done.
pub fn turns_are_a_run_by_place()
    ensures planned { (s : Setup) (plan : List FateRow) → IsSetup s → IsPlan plan → AfterTurns s plan (λ w. IsPlanned s plan (by_place w.done)) }
    ensures leads { AfterEveryTurn (λ s plan w. (v : World) × (world_of s (by_place w.done) ≡ Some v) × (v.done ≡ by_place w.done) × IsLike w v) }
    ensures own { AfterEveryTurn (λ s plan w. (n : ℕ) → events_of n (by_place w.done) ≡ events_of n w.done) }
{}

/// The events by place rise, and no other list that rises has the same events of each node.
pub fn events_by_place_are_one_list()
    ensures rising { (s : Setup) (plan : List FateRow) → IsSetup s → (cs : List ℕ) (w : World) →
        after_turns s plan cs ≡ Some w → IsTimely w → AreRising (by_place w.done) }
    ensures one { (es fs : List Happening) → AreRising es → AreRising fs → ((n : ℕ) → events_of n es ≡ events_of n fs) → es ≡ fs }
{}

/// What was put on a link is what was taken from it, and behind it what waits.
pub fn what_waits_is_what_was_not_taken()
    ensures { AfterEveryTurn (λ s plan w. (from to : ℕ) →
        entries_put plan from to w.done ≡ entries_taken from to w.done ++ waiting plan from to w.done) }
{}

/// A turn does nothing exactly where no event is enabled.
pub fn a_turn_does_an_enabled_event()
    ensures nothing { AfterEveryTurn (λ s plan w. (choice : ℕ) → turn s plan w choice ≡ None → enabled_events s plan w ≡ []) }
    ensures only { (s : Setup) (plan : List FateRow) (w : World) (choice : ℕ) → enabled_events s plan w ≡ [] → turn s plan w choice ≡ None }
{}

/// What an event receives it receives after each turn: a frame or a mark that was sent stays what it is.
pub fn what_is_received_stays()
    ensures { AtEveryTurn (λ s plan old new. (n : ℕ) (what : What) (incoming : Incoming) →
        incoming_of old n what ≡ Some incoming → incoming_of new n what ≡ Some incoming) }
{}

/// Links that are kept step by step have what waits there.
pub fn links_have_what_waits()
    ensures frames { AfterEveryTurn (λ s plan w. (from to : ℕ) → (link_of plan from to w.done).frames ≡ frames_on from to w.done) }
    ensures queue { AfterEveryTurn (λ s plan w. (from to : ℕ) → (link_of plan from to w.done).queue ≡ waiting plan from to w.done) }
{}

/// The frame that an event sends has the next number of its link, and a node counts what it sent on each link.
pub fn each_frame_has_the_next_number()
    ensures number { AtEveryTurnsEvent (λ s plan old new e. IfSome e.effects.sent (λ sent. sent.index ≡ frames_on e.place.node sent.to old.done + 1)) }
    ensures counts { AfterEveryTurn (λ s plan w. (n to : ℕ) → IsNode s.opening.nodes to → emitted_to (w.nodes n) to ≡ frames_on n to w.done) }
{}

/// The open notices of each node, after a turn: the one that was taken went, that of a frame that was sent came last, and
/// those stay whose call is open. One whose call is open no more is never open again.
pub fn open_notices_are_kept()
    ensures { AtEveryTurnsEvent (λ s plan old new e. (n : ℕ) → open_notices s plan new n ≡ notices_kept s plan old new n e) }
{}

/// A node's enabled events come in four parts: its processes', the open notices, what waits on its links, and its own mark.
pub fn enabled_events_come_in_parts()
    ensures { (s : Setup) (plan : List FateRow) (w : World) (n : ℕ) → all_enabled s plan w n ≡
        enabled_starts s w n ++ (open_notices s plan w n ++ (enabled_takes s plan w n ++ enabled_mark s w n)) }
{}

/// A node that did nothing at a turn, and to which nothing was sent, has the same enabled events as before.
pub fn a_node_left_alone_has_the_same_events()
    ensures { AtEveryTurnsEvent (λ s plan old new e. (n : ℕ) → IsLeftAlone plan old new n e → enabled_at s plan new n ≡ enabled_at s plan old n) }
{}

/// The turns of a seed come to one end, in which no event is enabled and no tick came to the last one, or else one node is the
/// first that comes to it, just at that tick. There are no more turns than all nodes have ticks.
pub fn turns_end()
    ensures either { (s : Setup) (plan : List FateRow) → IsSetup s → (seed last : ℕ) → 1 ≤ last → last ≤ 2 ^ 40 →
        ((w : World) × EndsIn s plan seed last w) ⊎ ((n : ℕ) × ComesToLast s plan seed last n) }
    ensures one { (s : Setup) (plan : List FateRow) (seed last : ℕ) (w v : World) → EndsIn s plan seed last w → EndsIn s plan seed last v → w ≡ v }
    ensures first { (s : Setup) (plan : List FateRow) (seed last n m : ℕ) → ComesToLast s plan seed last n → ComesToLast s plan seed last m → n ≡ m }
    ensures not_both { (s : Setup) (plan : List FateRow) (seed last n : ℕ) (w : World) → EndsIn s plan seed last w → ComesToLast s plan seed last n → ⊥ }
    ensures just { (s : Setup) (plan : List FateRow) → IsSetup s → (last : ℕ) → last ≤ 2 ^ 40 → GoesNoFurther s plan last }
    ensures few { (s : Setup) (plan : List FateRow) → IsSetup s → (cs : List ℕ) (w : World) → after_turns s plan cs ≡ Some w → length cs ≤ ticks_in w }
{}

/// The run that a seed picks is one by the plan, and there is no other; its nodes are those in which the turns end.
pub fn a_seed_picks_one_run()
    ensures planned { (s : Setup) (plan : List FateRow) (seed last : ℕ) → IsSetup s → IsPlan plan → last ≤ 2 ^ 40 → (es : List Happening) →
        IsPicked s plan seed last es → IsPlanned s plan es }
    ensures one { (s : Setup) (plan : List FateRow) (seed last : ℕ) (es fs : List Happening) →
        IsPicked s plan seed last es → IsPicked s plan seed last fs → es ≡ fs }
    ensures leads { (s : Setup) (plan : List FateRow) (seed last : ℕ) → IsSetup s → last ≤ 2 ^ 40 → (es : List Happening) →
        (is : IsPicked s plan seed last es) → LeadsAlike s es is.world }
{}

/// Each reply of a link fault, in every run, has eight notices of one call, which is the last one of its operation and ended
/// by no other; what was done at a desk has no such reply.
pub fn each_link_fault_has_eight_notices()
    ensures eight { (s : Setup) → IsSetup s → (cs : List Choice) (w : World) → world_after s cs ≡ Some w → IsTimely w →
        All (λ c. notices_of w c ≡ MOST_NOTICES) (faults_in w.trace) }
    ensures once { (s : Setup) → IsSetup s → (cs : List Choice) (w : World) → world_after s cs ≡ Some w → IsTimely w →
        AllPairs (λ c d. same_call c d ≡ false) (faults_in w.trace) }
    ensures desk { (s : Setup) → IsSetup s → (cs : List Choice) (w : World) → world_after s cs ≡ Some w → IsTimely w →
        All (λ x. IsFaultlessNote x.note) w.trace }
{}

/// In every run eight times the replies of link faults are no more than the notices; by a plan these are no more than the frames that were
/// lost or are late, and where the plan has none of these, no reply is a link fault's.
pub fn link_faults_are_few()
    ensures notices { (s : Setup) → IsSetup s → (es : List Happening) (w : World) →
        IsRun s es → world_of s es ≡ Some w → IsTimely w → 8 * length (faults_in w.trace) ≤ length (noticed_in es) }
    ensures told { (s : Setup) (plan : List FateRow) → IsSetup s → InEveryRunBy s plan (λ es w. length (noticed_in es) ≤ length (gone_in plan es)) }
    ensures eight_times { (s : Setup) (plan : List FateRow) → IsSetup s →
        InEveryRunBy s plan (λ es w. 8 * length (faults_in w.trace) ≤ length (gone_in plan es)) }
    ensures none { (s : Setup) (plan : List FateRow) → IsSetup s → All (λ row. is_gone row.fate ≡ false) plan →
        InEveryRunBy s plan (λ es w. faults_in w.trace ≡ []) }
{}

/// In every run no tick is above the number of events up to it.
pub fn ticks_are_few()
    ensures events { (s : Setup) (cs : List Choice) (w : World) → world_after s cs ≡ Some w → AreCounted w.done }
    ensures nodes { (s : Setup) (cs : List Choice) (w : World) → world_after s cs ≡ Some w → (n : ℕ) → (w.nodes n).tick ≤ length w.done }
{}

/// In every run, and so in each that a seed picks, an event names nodes of the opening alone: its own, those of the link of the
/// frame or mark that it takes or of the frame of which it tells, and the one to which it sends.
pub fn events_name_nodes()
    ensures worlds { (s : Setup) → IsSetup s → (cs : List Choice) (w : World) → world_after s cs ≡ Some w → IsTimely w →
        All (NamesNodes s.opening.nodes) w.done }
    ensures runs { (s : Setup) → IsSetup s → (es : List Happening) (w : World) → IsRun s es → world_of s es ≡ Some w → IsTimely w →
        All (NamesNodes s.opening.nodes) es }
    ensures picked { (s : Setup) (plan : List FateRow) (seed last : ℕ) → IsSetup s → last ≤ 2 ^ 40 → (es : List Happening) →
        IsPicked s plan seed last es → All (NamesNodes s.opening.nodes) es }
{}

/// The first draws of a seed, and turns that do the events of the sample runs: where the order of turns is not that of
/// places, the events by place are the run.
pub fn the_sample_turns()
    ensures draws { draws 0 3 ≡ 1299921937 ∷ 218396424 ∷ 167951807 ∷ [] }
    ensures seed { events_by two.setup two.plan (draws 5 3) ≡ Some fifth_events }
    ensures first { events_by one.setup [] first_choices ≡ Some one.events }
    ensures first_end { enabled_after one.setup [] first_choices ≡ Some [] }
    ensures second { events_by two.setup two.plan second_choices ≡ Some two.events }
    ensures second_in_turn { events_in_turn two.setup two.plan second_choices ≡ Some (swapped two.events) }
    ensures second_end { enabled_after two.setup two.plan second_choices ≡ Some [] }
{}
