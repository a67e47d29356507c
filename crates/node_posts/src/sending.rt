//! What an event sends comes to the ends of its node. Nothing is pushed.
ghost use Rattle.std.specs.Prelude.{◌≡◌, ◌≢◌, ◌++◌, ◌<◌, ◌^◌, [], ◌∷◌, ◌==◌, ℕ, Some, None, IfSome, OnOk, length, slice_get, map, option_to_list};
ghost use Rattle.node_core.specs.Nodes.{state_of};
ghost use Rattle.ring_links.specs.Notices.{notice_for};
ghost use Rattle.wire_links.specs.Carrying.{Posting};
ghost use Rattle.node_posts.specs.Sending.{AreOutsAfter, AreUnpushed, posting_if, told_on};
ghost use Rattle.node_posts.specs.Sendable.{CanSend, CanSendFrame, CanTake};
ghost use Rattle.node_posts.specs.Turns.{IsSentStep, IsBeside};

use crate::post::{Post, place_among};
use dom_history::{Fate, Program};
use node_core::{Emitted, Incoming};
use page_store::Pages;
use ring_links::Notice;
use ring_messages::Frame;
use std::alloc::Global;
use uid_names::NoMemory;
use wire_links::WireOut;

/// The mark of a phase goes to each end.
fn mark_outs(outs: &mut Vec<WireOut>, phase: u32, tick: u64) -> Result<(), NoMemory>
    requires { tick < 2 ^ 40 }
    ensures sent { OnOk result (AreOutsAfter (λ at. Posting.Mark phase tick ∷ []) outs.old.items outs.new.items) }
    ensures unpushed { AreUnpushed outs.old.items outs.new.items }
{
    for at in 0..outs.len() {
        outs[at].send_mark(phase, tick)?;
    }
    Ok(())
}

impl<P: Program, G: Pages> Post<P, G> {
    /// What an event of its node emits is sent: a mark, or a frame, or nothing.
    pub(crate) fn send(&mut self, alloc: Global, emitted: Emitted) -> Result<(), NoMemory>
        requires tick { (state_of self.old.node).tick < 2 ^ 40 }
        requires can { CanSend self.old emitted }
        ensures sent { OnOk result (IsSentStep self.old.node.log.node (state_of self.old.node).tick emitted self.old self.new) }
        ensures beside { IsBeside self.old self.new }
        ensures others { (self.new.node ≡ self.old.node) × (self.new.fault ≡ self.old.fault) }
    {
        let Emitted { mark, frame } = emitted;
        if let Some(phase) = mark {
            return mark_outs(&mut self.outs, phase, self.node.tick());
        }
        match frame {
            Some((_, frame)) => self.send_frame(alloc, frame),
            None => Ok(()),
        }
    }

    /// A frame is sent: to the node itself, or to the end of its link.
    fn send_frame(&mut self, alloc: Global, frame: Frame) -> Result<(), NoMemory>
        requires { CanSendFrame self.old.node.log.node self.old frame }
        ensures sent { (index : ℕ) → OnOk result (IsSentStep self.old.node.log.node (state_of self.old.node).tick
            (record { frame = Some (index, frame); mark = None }) self.old self.new) }
        ensures beside { IsBeside self.old self.new }
        ensures others { (self.new.node ≡ self.old.node) × (self.new.fault ≡ self.old.fault) }
    {
        let number = self.number();
        if frame.to().number() == number.number() {
            return self.own.send(alloc, Fate::Pass, Incoming::Frame(frame));
        }
        self.send_out(alloc, place_among(number, frame.to()), &frame)
    }

    /// A frame is sent to the end at a place; a request that is lost or late is noticed.
    fn send_out(&mut self, alloc: Global, at: usize, frame: &Frame) -> Result<(), NoMemory>
        requires within { at < length self.old.outs.items }
        requires takes { IfSome (slice_get self.old.outs.items at) (CanTake frame.now) }
        requires tick { frame.now.tick < 2 ^ 40 }
        ensures outs { OnOk result (AreOutsAfter (λ k. posting_if (k == at) frame.now) self.old.outs.items self.new.outs.items) }
        ensures notices { OnOk result (self.new.notices.items ≡ self.old.notices.items ++ told_on frame.now (slice_get self.old.outs.items at)) }
        ensures own { self.new.own ≡ self.old.own }
        ensures beside { IsBeside self.old self.new }
        ensures others { (self.new.node ≡ self.old.node) × (self.new.fault ≡ self.old.fault) }
    {
        let told = self.outs[at].send(alloc, frame)?;
        self.notice(told, frame)
    }

    /// The notice of a request that is lost or late waits for its process.
    fn notice(&mut self, told: Option<u64>, frame: &Frame) -> Result<(), NoMemory>
        ensures notices { OnOk result (self.new.notices.items ≡ self.old.notices.items ++ map (notice_for frame.now) (option_to_list told)) }
        ensures ends { (self.new.ins ≡ self.old.ins) × (self.new.outs ≡ self.old.outs) × (self.new.own ≡ self.old.own) }
        ensures others { (self.new.node ≡ self.old.node) × (self.new.fault ≡ self.old.fault) }
    {
        if let Some(index) = told {
            self.notices.reserve(1)?;
            self.notices.push_back_reserved(Notice::of(frame, index));
        }
        Ok(())
    }
}
