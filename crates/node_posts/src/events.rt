//! Events of the node of a post, whatever they come from.
ghost use Rattle.std.specs.Prelude.{◌≡◌, ◌≢◌, ◌≤◌, ◌<◌, ◌^◌, true, false, None, OnOk, OnErr, IfOk, IfErr, IfSome, IfNone, IsTrue, IsFalse};
ghost use Rattle.node_runs.specs.Incomings.{tick_of};
ghost use Rattle.world_runs.specs.NamedNodes.{NamesNodesIn};
ghost use Rattle.node_core.specs.Nodes.{state_of};
ghost use Rattle.node_core.specs.Receivings.{seen};
ghost use Rattle.node_posts.specs.Posts.{HasRun, GoesOn};
ghost use Rattle.node_posts.specs.Sendable.{CanSend};
ghost use Rattle.node_posts.specs.Turns.{Steps, IsRefused, IsSentStep, IsBeside, IsCause, MayDo, IsDone, IsStart};

use crate::known::emitted_known;
use crate::post::Post;
use dom_history::{Program, What};
use node_core::{Emitted, Incoming, Node, RunFault};
use page_store::Pages;
use std::alloc::Global;
use uid_names::NoMemory;

/// An event, if it is enabled: a run of the node alone goes on by it.
fn turn<P: Program, G: Pages>(
    alloc: Global,
    node: &mut Node<P, G>,
    what: What,
    incoming: &Incoming,
) -> Result<Option<Emitted>, NoMemory>
    requires tick { (state_of node.old).tick < 2 ^ 40 }
    requires early { tick_of (seen incoming.now) < 2 ^ 40 }
    ensures did { IfOk result (λ e. IfSome e (Steps P.wants P.becomes what (seen incoming.now) node.old node.new)) }
    ensures refused { IfOk result (λ e. IfNone e (IsRefused P.wants P.becomes what (seen incoming.now) node.old)) }
    ensures none { IfOk result (λ e. IfNone e (node.new ≡ node.old)) }
    ensures log { OnErr result (node.new.log ≡ node.old.log) }
{
    incoming.known();
    if !node.enabled(&what, incoming) {
        return Ok(None);
    }
    let emitted = node.step(alloc, what, incoming)?;
    emitted_known(&emitted);
    Ok(Some(emitted))
}

impl<P: Program, G: Pages> Post<P, G> {
    /// What an event emitted is sent, unless the event gave its node the last tick.
    fn finish(&mut self, alloc: Global, emitted: Emitted, last_tick: u64) -> Result<(), RunFault>
        requires last { last_tick ≤ 2 ^ 40 }
        requires can { (state_of self.old.node).tick < last_tick → CanSend self.old emitted }
        ensures sent { OnOk result (IsSentStep self.old.node.log.node (state_of self.old.node).tick emitted self.old self.new) }
        ensures low { OnOk result ((state_of self.new.node).tick < last_tick) }
        ensures cause { IfErr result (λ fault. IsCause last_tick fault self.new) }
        ensures beside { IsBeside self.old self.new }
        ensures others { (self.new.node ≡ self.old.node) × (self.new.fault ≡ self.old.fault) }
    {
        if self.node.tick() >= last_tick {
            return Err(RunFault::TickLimit(self.number()));
        }
        self.send(alloc, emitted)?;
        Ok(())
    }

    /// An event, if it is enabled; false where it is not. What it sends comes to the ends, unless it gives the node the last tick. A fault
    /// is noted.
    pub(crate) fn event(
        &mut self,
        alloc: Global,
        what: What,
        incoming: &Incoming,
        last_tick: u64,
    ) -> bool
        requires last { last_tick ≤ 2 ^ 40 }
        requires fault { self.old.fault ≡ None }
        requires may { MayDo P.wants P.becomes last_tick (λ nodes. NamesNodesIn nodes what) self.old }
        requires early { tick_of (seen incoming.now) < 2 ^ 40 }
        ensures done { IsTrue result → IsDone P.wants P.becomes last_tick what (seen incoming.now) self.old self.new self.new.fault }
        ensures refused { IsFalse result → IsRefused P.wants P.becomes what (seen incoming.now) self.old.node }
        ensures nothing { IsFalse result → self.new ≡ self.old }
    {
        let turned = match turn(alloc, &mut self.node, what, incoming) {
            Ok(turned) => turned,
            Err(error) => {
                self.fault = Some(RunFault::from(error));
                return true;
            }
        };
        let Some(emitted) = turned else {
            return false;
        };
        let sent = self.finish(alloc, emitted, last_tick);
        self.note(sent);
        true
    }

    /// The Begin of a process, if it is enabled and no fault came; false where nothing was done.
    pub fn begin(&mut self, alloc: Global, proc: u8, last_tick: u64) -> bool
        requires last { last_tick ≤ 2 ^ 40 }
        requires run { HasRun P.wants P.becomes last_tick self.old }
        ensures goes { GoesOn P.wants P.becomes last_tick self.old self.new }
        ensures nothing { IsFalse result → self.new ≡ self.old }
    {
        self.start(alloc, What::Begin(proc), last_tick)
    }

    /// The Go of a process, in the same way.
    pub fn go(&mut self, alloc: Global, proc: u8, last_tick: u64) -> bool
        requires last { last_tick ≤ 2 ^ 40 }
        requires run { HasRun P.wants P.becomes last_tick self.old }
        ensures goes { GoesOn P.wants P.becomes last_tick self.old self.new }
        ensures nothing { IsFalse result → self.new ≡ self.old }
    {
        self.start(alloc, What::Go(proc), last_tick)
    }

    /// The event that sends the mark of the node's phase, in the same way.
    pub fn make_ready(&mut self, alloc: Global, last_tick: u64) -> bool
        requires last { last_tick ≤ 2 ^ 40 }
        requires run { HasRun P.wants P.becomes last_tick self.old }
        ensures goes { GoesOn P.wants P.becomes last_tick self.old self.new }
        ensures nothing { IsFalse result → self.new ≡ self.old }
    {
        let phase = self.node.phase();
        self.start(alloc, What::Ready(phase), last_tick)
    }

    /// An event that receives nothing, if it is enabled and no fault came.
    fn start(&mut self, alloc: Global, what: What, last_tick: u64) -> bool
        requires last { last_tick ≤ 2 ^ 40 }
        requires run { HasRun P.wants P.becomes last_tick self.old }
        requires start { IsStart what }
        ensures goes { GoesOn P.wants P.becomes last_tick self.old self.new }
        ensures nothing { IsFalse result → self.new ≡ self.old }
    {
        if self.has_fault() {
            return false;
        }
        self.event(alloc, what, &Incoming::Nothing, last_tick)
    }
}
