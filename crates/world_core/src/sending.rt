//! What an event sends comes to the links, by the fault plan.
ghost use Rattle.std.specs.Prelude.{◌≡◌, ◌^◌, ◌<◌, ◌-◌, ◌==◌, [], true, Option, Some, IfOk, OnOk, IfSome, All, length, slice_get};
ghost use Rattle.uid_names.specs.declared.limits.TheConstants.{MAX_NODES};
ghost use Rattle.dom_history.specs.Plans.{fate_of};
ghost use Rattle.node_runs.specs.Deliveries.{is_gone as is_gone_fate};
ghost use Rattle.node_core.specs.Nodes.{state_of};
ghost use Rattle.ring_messages.specs.Frames.{caller_of};
ghost use Rattle.world_core.specs.Sending.{delivered};
ghost use Rattle.world_core.specs.SentMarks.{AreMarked, SameBeside};
ghost use Rattle.world_core.specs.Reached.{notice_if, ins_if, came_of, framed_ins, AreReached, AreSent};

use crate::world::World;
use dom_history::{Fate, FaultPlan, Program};
use node_core::Emitted;
use page_store::Pages;
use ring_links::{Notice, is_gone};
use ring_messages::Frame;
use std::alloc::Global;
use uid_names::{NoMemory, NodeId};

/// The fate of a frame by a plan. A plan that sets none is not looked into: all frames pass.
#[inline(always)]
fn fate_by(plan: &FaultPlan, from: NodeId, to: NodeId, index: u64) -> Fate
    ensures { result ≡ fate_of plan.now from to index }
{
    if plan.rows().is_empty() {
        return Fate::Pass;
    }
    plan.fate(from, to, index)
}

/// Where a node stands among all.
fn place_of(node: NodeId) -> usize
    ensures value { result ≡ node - 1 }
    ensures bound { result < MAX_NODES }
{
    usize::from(node.number()) - 1
}

impl<P: Program, G: Pages> World<P, G> {
    /// What an event of the node at this place emits is sent: a mark, or a frame, or nothing.
    pub(crate) fn send(
        &mut self,
        alloc: Global,
        at: usize,
        emitted: Emitted,
    ) -> Result<(), NoMemory>
        requires within { at < length self.old.stations.items }
        requires links { All (λ x. at < length x.ins.items) self.old.stations.items }
        requires few { All (λ x. IfSome (slice_get x.ins.items at) (λ l. l.link.frames < 2 ^ 63)) self.old.stations.items }
        requires nodes { IfSome emitted.frame (λ sent. (sent.1.to - 1 < length self.old.stations.items) × ((caller_of sent.1).node - 1 < length self.old.stations.items)) }
        ensures sent { OnOk result (AreSent at self.old.plan emitted.mark emitted.frame self.old.stations.items self.new.stations.items) }
        ensures others { SameBeside self.old self.new }
    {
        let Emitted { mark, frame } = emitted;
        match mark {
            Some(phase) => self.send_marks(at, phase),
            None => match frame {
                Some((index, frame)) => self.send_frame(alloc, at, index, frame),
                None => Ok(()),
            },
        }
    }

    /// A frame is sent: it comes to its link, and where it is lost or late, a notice of it to the process that calls.
    fn send_frame(
        &mut self,
        alloc: Global,
        at: usize,
        index: u64,
        frame: Frame,
    ) -> Result<(), NoMemory>
        requires to { frame.to - 1 < length self.old.stations.items }
        requires caller { (caller_of frame).node - 1 < length self.old.stations.items }
        requires links { All (λ x. at < length x.ins.items) self.old.stations.items }
        requires few { All (λ x. IfSome (slice_get x.ins.items at) (λ l. l.link.frames < 2 ^ 63)) self.old.stations.items }
        ensures reached { OnOk result (AreReached at (came_of self.old.plan (Some (index, frame))) (framed_ins self.old.plan at (Some (index, frame)))
            self.old.stations.items self.new.stations.items) }
        ensures others { SameBeside self.old self.new }
    {
        let fate = fate_by(&self.plan, frame.from(), frame.to(), index);
        if is_gone(fate) {
            return self.send_gone(alloc, at, index, fate, frame);
        }
        let to = place_of(frame.to());
        self.deliver_at(alloc, at, to, fate, frame)
    }

    /// A frame that is lost or late is sent: it comes to its link, and a notice of it to the process that calls. Not
    /// inlined: such frames are few.
    #[inline(never)]
    fn send_gone(
        &mut self,
        alloc: Global,
        at: usize,
        index: u64,
        fate: Fate,
        frame: Frame,
    ) -> Result<(), NoMemory>
        requires fate { fate ≡ fate_of self.old.plan frame.from frame.to index }
        requires gone { is_gone_fate fate ≡ true }
        requires to { frame.to - 1 < length self.old.stations.items }
        requires caller { (caller_of frame).node - 1 < length self.old.stations.items }
        requires links { All (λ x. at < length x.ins.items) self.old.stations.items }
        requires few { All (λ x. IfSome (slice_get x.ins.items at) (λ l. l.link.frames < 2 ^ 63)) self.old.stations.items }
        ensures reached { OnOk result (AreReached at (came_of self.old.plan (Some (index, frame))) (framed_ins self.old.plan at (Some (index, frame)))
            self.old.stations.items self.new.stations.items) }
        ensures others { SameBeside self.old self.new }
    {
        let notice = Notice::of(&frame, index);
        let caller = place_of(frame.caller().node());
        let to = place_of(frame.to());
        self.deliver_at(alloc, at, to, fate, frame)?;
        self.tell_at(alloc, at, caller, notice)
    }

    /// A notice comes to the node at a place, of a frame that the one at another place sends.
    fn tell_at(
        &mut self,
        alloc: Global,
        at: usize,
        to: usize,
        notice: Notice,
    ) -> Result<(), NoMemory>
        requires within { to < length self.old.stations.items }
        ensures reached { OnOk result (AreReached at (λ n. notice_if (n == to) notice) (λ n ins. ins) self.old.stations.items self.new.stations.items) }
        ensures others { SameBeside self.old self.new }
    {
        self.stations[to].tell(alloc, notice, to == at)
    }

    /// A frame of this fate comes to the node at a place, by its link from the one at another place.
    #[inline(always)]
    fn deliver_at(
        &mut self,
        alloc: Global,
        at: usize,
        to: usize,
        fate: Fate,
        frame: Frame,
    ) -> Result<(), NoMemory>
        requires within { to < length self.old.stations.items }
        requires links { All (λ x. at < length x.ins.items) self.old.stations.items }
        requires few { All (λ x. IfSome (slice_get x.ins.items at) (λ l. l.link.frames < 2 ^ 63)) self.old.stations.items }
        ensures reached { OnOk result (AreReached at (λ n. []) (λ n ins. ins_if (n == to) (delivered at fate frame ins) ins) self.old.stations.items self.new.stations.items) }
        ensures others { SameBeside self.old self.new }
    {
        self.stations[to].deliver(alloc, at, fate, frame, to == at)
    }

    /// The mark of the node at this place is sent to all others.
    fn send_marks(&mut self, at: usize, phase: u32) -> Result<(), NoMemory>
        requires within { at < length self.old.stations.items }
        requires links { All (λ x. at < length x.ins.items) self.old.stations.items }
        ensures marked { OnOk result (IfSome (slice_get self.old.stations.items at)
            (λ x. AreMarked at phase (state_of x.node).tick self.old.stations.items self.new.stations.items)) }
        ensures others { SameBeside self.old self.new }
    {
        let tick = self.stations[at].node.tick();
        for i in 0..self.stations.len() {
            if i != at {
                self.stations[i].take_in(at, phase, tick)?;
            }
        }
        Ok(())
    }
}
