//! What is kept of the frames of a link.
ghost use Rattle.std.specs.Prelude.{◌≡◌, ◌+◌, ◌++◌, ◌∷◌, ◌==◌, ℕ, [], false, not, IsSome, IfSome, IfOk, OnOk, filter, length, option_copied, None, Some};
ghost use Rattle.std.specs.Option.{option_map};
ghost use Rattle.ring_messages.specs.Frames.{Message};
ghost use Rattle.journal_check.specs.Kept.{IsHead, head_of, head_at, told_if, live_at, bare_of, is_served as is_served_by, is_heard as is_heard_by};

use dom_history::{Program, What};
use node_core::{Incoming, Node};
use page_store::Pages;
use ring_messages::{Body, Copied, Frame};
use std::alloc::Global;
use std::marker::Model;
use uid_names::{NoMemory, NodeId};

/// What is kept of each frame: whose call it is of, when it was sent, in which version, whether it asks or answers, and whether it was told as lost or late.
#[derive(Clone, Copy, Debug, PartialEq, Eq)]
pub struct Head {
    pub number: u64,
    pub tick: u64,
    pub proc: u8,
    pub version: u8,
    pub asks: bool,
    pub told: bool,
}

// A run has one of these for each frame.
const _: () = prove!(size_of::<Head>() <= 24);

/// A frame whose call may not be over yet, with its number on the link.
#[derive(Drop)]
pub struct Live {
    pub index: u64,
    pub frame: Frame,
}

/// The head of a frame that is sent.
fn sent_head(frame: &Frame) -> Head
    ensures value { result ≡ head_of frame.now false }
    ensures ranges { IsHead result }
{
    Head {
        number: frame.number(),
        tick: frame.tick(),
        proc: frame.proc(),
        version: frame.version(),
        asks: frame.body().is_request(),
        told: false,
    }
}

/// The frame with nothing in it but its head.
fn bare_frame(from: NodeId, to: NodeId, head: &Head) -> Frame
    requires { IsHead head.now }
    ensures { result ≡ bare_of from to head.now }
{
    let body = if head.asks {
        Body::List { after: None }
    } else {
        Body::Done
    };
    let (proc, number) = (head.proc, head.number);
    Frame::new(head.version, from, to, proc, number, head.tick, body)
}

/// Whether a frame is a request of this process that is not above this one.
fn is_served(frame: &Frame, proc: u8, number: u64) -> bool
    ensures { result ≡ is_served_by proc number frame.now }
{
    frame.body().is_request() && frame.proc() == proc && frame.number() <= number
}

/// Whether a frame answers a call that is open no more at this node. A node that has ended is not asked.
fn is_heard<P: Program, G: Pages>(node: &Node<P, G>, index: u64, frame: &Frame) -> bool
    ensures { result ≡ is_heard_by node.now index frame.now }
{
    if frame.body().is_request() || node.ended() || node.program(frame.proc()).is_none() {
        return false;
    }
    let notice = What::Notice(frame.proc(), frame.from(), frame.to(), index);
    let (number, tick) = (frame.number(), frame.tick());
    !node.enabled(&notice, &Incoming::Gone { number, tick })
}

/// The frames that were sent on a link: the head of each, in order, and those whose call may not be over yet.
#[derive(Drop)]
pub struct Frames {
    heads: Vec<Head>,
    live: Vec<Live>,
}

impl Model for Frames {
    ghost use Rattle.std.specs.Prelude.{All};
    ghost use Rattle.journal_check.specs.Kept.{Kept, IsHead};

    ghost Value = { Kept };

    ghost view = { λ f. record { heads = f.heads.items; live = f.live.items } };

    ghost invariant = { λ f. All IsHead f.heads.items };
}

impl Frames {
    /// No frame was sent. Takes no memory.
    pub(crate) fn new(alloc: Global) -> Frames
        ensures { result ≡ record { heads = []; live = [] } }
    {
        Frames {
            heads: Vec::new(alloc),
            live: Vec::new(alloc),
        }
    }

    /// The head of the frame of this number, if so many were sent. Takes no memory.
    pub fn head(&self, index: u64) -> Option<&Head>
        ensures value { option_copied result ≡ head_at index self.now.heads }
        ensures head { IfSome (option_copied result) IsHead }
    {
        if index == 0 {
            return None;
        }
        if index > self.heads.len() as u64 {
            return None;
        }
        let at = index as usize - 1;
        Some(&self.heads[at])
    }

    /// The frame of this number, if its call may not be over. Takes no memory.
    pub fn frame(&self, index: u64) -> Option<&Frame>
        ensures { option_copied result ≡ live_at index self.now.live }
    {
        for live in &self.live {
            if live.index == index {
                return Some(&live.frame);
            }
        }
        None
    }

    /// The next frame is sent.
    pub(crate) fn send(&mut self, frame: Frame) -> Result<(), NoMemory>
        ensures heads { OnOk result (self.new.heads ≡ self.old.heads ++ head_of frame false ∷ []) }
        ensures live { OnOk result (self.new.live ≡ self.old.live ++ record { index = length self.old.heads + 1; frame = frame } ∷ []) }
    {
        self.heads.push(sent_head(&frame))?;
        let index = self.heads.len() as u64;
        self.live.push(Live { index, frame })?;
        Ok(())
    }

    /// A copy of the frame of this number, or where its call is over its head alone, as it comes from this node to that one; None where not so
    /// many were sent.
    pub(crate) fn taken(
        &self,
        alloc: Global,
        from: NodeId,
        to: NodeId,
        index: u64,
    ) -> Result<Option<Frame>, NoMemory>
        ensures live { (m : Message) → live_at index self.now.live ≡ Some m → IfOk result (λ taken. taken ≡ Some m) }
        ensures bare { live_at index self.now.live ≡ None → IfOk result (λ taken. taken ≡ option_map (bare_of from to) (head_at index self.now.heads)) }
    {
        if let Some(frame) = self.frame(index) {
            return Ok(Some(frame.copy(alloc)?));
        }
        match self.head(index) {
            Some(head) => Ok(Some(bare_frame(from, to, head))),
            None => Ok(None),
        }
    }

    /// The frame of this number was told as lost or late. Takes no memory.
    pub(crate) fn tell(&mut self, index: u64)
        requires { IsSome (head_at index self.old.heads) }
        ensures count { length self.new.heads ≡ length self.old.heads }
        ensures told { (i : ℕ) → head_at i self.new.heads ≡ told_if (i == index) (head_at i self.old.heads) }
        ensures live { self.new.live ≡ self.old.live }
    {
        let at = index as usize - 1;
        self.heads[at].told = true;
    }

    /// The requests of a process go that are not above this one, where this one was taken. Takes no memory.
    pub(crate) fn drop_served(&mut self, proc: u8, number: u64)
        ensures heads { self.new.heads ≡ self.old.heads }
        ensures live { self.new.live ≡ filter (λ l. not (is_served_by proc number l.frame)) self.old.live }
    {
        self.live
            .retain(|live| !is_served(&live.frame, proc, number));
    }

    /// The answers go whose call is open no more at this node, to which they were sent. Takes no memory.
    pub(crate) fn drop_heard<P: Program, G: Pages>(&mut self, node: &Node<P, G>)
        ensures heads { self.new.heads ≡ self.old.heads }
        ensures live { self.new.live ≡ filter (λ l. not (is_heard_by node.now l.index l.frame)) self.old.live }
    {
        if self.live.is_empty() {
            return;
        }
        self.live
            .retain(|live| !is_heard(node, live.index, &live.frame));
    }
}
