//! Laws of ends. Each stands on a function without a body, so that the check proves it.
ghost use Rattle.std.specs.Prelude.{◌≡◌, ℕ, true, false, Some, is_some, List, []};
ghost use Rattle.dom_history.specs.declared.plan.FateRow.{FateRow};
ghost use Rattle.dom_history.specs.declared.event.What.{What};
ghost use Rattle.dom_history.specs.Objects.{is_node};
ghost use Rattle.page_server.specs.Serving.{serve_of};
ghost use Rattle.run_laws.specs.DecidedReplies.{proc_at};
ghost use Rattle.node_runs.specs.Setups.{Setup, IsSetup, given};
ghost use Rattle.node_runs.specs.NodeStates.{Asked, Await, is_ended};
ghost use Rattle.node_runs.specs.CallsKeep.{EachOf};
ghost use Rattle.node_runs.specs.NodesKeep.{IsTimely, InEveryRun};
ghost use Rattle.node_runs.specs.Runs.{World, HasEnded};
ghost use Rattle.world_runs.specs.Turns.{takes_at, is_enabled, enabled_events, after_turns};
ghost use Rattle.world_runs.specs.EveryTurn.{AfterEveryTurn};
ghost use Rattle.world_runs.specs.OpenNotices.{open_notices};
ghost use Rattle.run_laws.specs.OpenOps.{AtEveryOpenOp};
ghost use Rattle.run_laws.specs.OpenAsks.{HasNoCall};
ghost use Rattle.run_laws.specs.OpenFrames.{HaveFrames};

/// What waits first on a link to a node that has not ended is enabled there, be it a frame or a mark.
pub fn what_waits_first_on_a_link_is_enabled()
    ensures { AfterEveryTurn (λ s plan w. (n : ℕ) → is_node s.opening n ≡ true → is_ended (given s n) (w.nodes n) ≡ false →
        EachOf (λ (what : What). is_enabled s w n what ≡ true) (takes_at plan w n)) }
{}

/// While an operation is open no node has ended, in every run in which no tick is above 2^40: so the home of an open call has not.
pub fn no_node_ends_while_an_operation_is_open()
    ensures { InEveryRun (λ s w. AtEveryOpenOp s w (λ n p o. (a : ℕ) → is_node s.opening a ≡ true → is_ended (given s a) (w.nodes a) ≡ false)) }
{}

/// A home answers the request of an open call each time it comes, in every run in which no tick is above 2^40: it is never too old.
pub fn a_home_answers_each_open_call()
    ensures { InEveryRun (λ s w. AtEveryOpenOp s w (λ n p o. (c : Asked) → o.awaits ≡ Await.Answer c →
        is_some (serve_of (w.nodes c.home).side (proc_at n p) c.waiting.number c.ask).answer ≡ true)) }
{}

/// Each open call has a frame that is on its way, its request or a reply to it: a copy of it waits on its link, or it was lost or is
/// late and its notice is still to come.
pub fn an_open_call_has_a_frame_on_its_way()
    ensures { (s : Setup) (plan : List FateRow) → IsSetup s → (cs : List ℕ) (w : World) → after_turns s plan cs ≡ Some w → IsTimely w → HaveFrames s plan w }
{}

/// Where no event is enabled, no notice is open and no call, so all nodes have ended: turns stop just where the run has ended.
pub fn no_turn_is_stuck()
    ensures notices { (s : Setup) (plan : List FateRow) → IsSetup s → (w : World) → enabled_events s plan w ≡ [] →
        (n : ℕ) → is_node s.opening n ≡ true → open_notices s plan w n ≡ [] }
    ensures calls { (s : Setup) (plan : List FateRow) → IsSetup s → (cs : List ℕ) (w : World) →
        after_turns s plan cs ≡ Some w → IsTimely w → enabled_events s plan w ≡ [] → HasNoCall s w }
    ensures ended { (s : Setup) (plan : List FateRow) → IsSetup s → (cs : List ℕ) (w : World) →
        after_turns s plan cs ≡ Some w → IsTimely w → enabled_events s plan w ≡ [] → HasEnded s w }
    ensures just { (s : Setup) (plan : List FateRow) (w : World) → HasEnded s w → enabled_events s plan w ≡ [] }
{}
