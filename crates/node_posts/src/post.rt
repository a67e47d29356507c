//! A node with the ends of its links.
ghost use Rattle.std.specs.Prelude.{◌≡◌, ℕ, true, false, Some, None, is_some, IsSome, IfSome, IfNone, IsOk, IfErr, length};
ghost use Rattle.std.specs.List.{list_any};
ghost use Rattle.dom_history.specs.declared.event.What.TheVariants as events;
ghost use Rattle.node_runs.specs.Incomings.Incoming.{Nothing};
ghost use Rattle.node_core.specs.Nodes.{program_of, is_enabled};
ghost use Rattle.node_posts.specs.Ended.{holds_mark, has_ended};
ghost use Rattle.node_posts.specs.Ends.{other_at, place_of};
ghost use Rattle.node_posts.specs.Posts.{HasRun};

use dom_history::{Program, What};
use node_core::{Incoming, Node, RunFault};
use page_store::Pages;
use ring_links::{Link, Notice};
use std::collections::VecDeque;
use uid_names::NodeId;
use wire_links::{WireIn, WireOut};

/// The frames of a node's link to itself that wait, the oldest first, each with its number there.
pub type FrameQueue = Link<Incoming>;

/// The notices of a node's own requests that are lost or late and were not taken yet, the oldest first.
pub type NoticeQueue = VecDeque<Notice>;

/// A node with its ends of the links between it and the other nodes, each list by rising number of the other node; its link to itself;
/// the notices that wait for it; and its fault, if one came.
#[derive(Drop)]
pub struct Post<P: Program, G: Pages> {
    pub node: Node<P, G>,
    pub ins: Vec<WireIn>,
    pub outs: Vec<WireOut>,
    pub own: FrameQueue,
    pub notices: NoticeQueue,
    pub fault: Option<RunFault>,
}

/// The other node of the link at a place; None where there can be no such link.
pub(crate) fn other_of(number: NodeId, at: usize) -> Option<NodeId>
    ensures { IfSome result (λ other. other ≡ other_at number at) }
{
    if at >= 8 {
        return None;
    }
    let at = at as u8;
    NodeId::new(if at + 1 < number.number() {
        at + 1
    } else {
        at + 2
    })
}

/// The place of the link between a node and another.
pub(crate) fn place_among(number: NodeId, other: NodeId) -> usize
    ensures { result ≡ place_of number other }
{
    let place = if other.number() < number.number() {
        other.number() - 1
    } else {
        other.number().saturating_sub(2)
    };
    usize::from(place)
}

/// Whether a mark waits at one of these ends.
fn hold_mark(outs: &[WireOut]) -> bool
    ensures { result ≡ list_any holds_mark outs.now }
{
    outs.iter().any(|out| out.holds_mark())
}

impl<P: Program, G: Pages> Post<P, G> {
    /// The number of its node. Takes no memory.
    pub fn number(&self) -> NodeId
        ensures { result ≡ self.now.node.log.node }
    {
        self.node.log().node
    }

    /// How many other nodes there are. Takes no memory.
    pub fn others(&self) -> usize
        ensures { result ≡ length self.now.outs.items }
    {
        self.outs.len()
    }

    /// The other node of the link at a place. Takes no memory.
    pub fn other(&self, at: usize) -> Option<NodeId>
        ensures { IfSome result (λ other. other ≡ other_at self.now.node.log.node at) }
    {
        other_of(self.number(), at)
    }

    /// Whether a fault came. Takes no memory.
    pub fn has_fault(&self) -> bool
        ensures { result ≡ is_some self.now.fault }
    {
        self.fault.is_some()
    }

    /// Whether its node has ended, and no mark waits in an outbox. Takes no memory.
    pub fn is_over(&self) -> bool
        ensures { result ≡ has_ended self.now }
    {
        self.node.ended() && !hold_mark(&self.outs)
    }

    /// How many commands of a process have their answer, where the process may begin an operation: the number, from 0, of its unfinished
    /// command. Takes no memory.
    pub fn unfinished(&self, proc: u8) -> Option<u32>
        ensures enabled { IsSome result → is_enabled self.now.node (events.Begin proc) Nothing ≡ true }
        ensures none { IfNone result (is_enabled self.now.node (events.Begin proc) Nothing ≡ false) }
        ensures number { IfSome result (λ k. IfSome (program_of self.now.node proc) (λ y. k ≡ P.answered y)) }
    {
        if !self.node.enabled(&What::Begin(proc), &Incoming::Nothing) {
            return None;
        }
        self.count_answered(proc)
    }

    /// How many commands of a process have their answer; None where it has no program, or where a fault came. Takes no memory.
    pub fn answered(&self, proc: u8) -> Option<u32>
        requires run { (limit : ℕ) × HasRun P.wants P.becomes limit self.now }
        ensures { IfSome result (λ k. IfSome (program_of self.now.node proc) (λ y. k ≡ P.answered y)) }
    {
        if self.has_fault() {
            return None;
        }
        self.count_answered(proc)
    }

    /// The same, at a node that found its memory.
    fn count_answered(&self, proc: u8) -> Option<u32>
        requires live { self.now.node.spent ≡ false }
        ensures number { IfSome result (λ k. IfSome (program_of self.now.node proc) (λ y. k ≡ P.answered y)) }
        ensures none { IfNone result (program_of self.now.node proc ≡ None) }
    {
        match self.node.program(proc) {
            Some(program) => Some(program.at()),
            None => None,
        }
    }

    /// A fault is noted, if one came.
    pub(crate) fn note(&mut self, done: Result<(), RunFault>)
        ensures ok { IsOk done → self.new ≡ self.old }
        ensures err { IfErr done (λ fault. self.new ≡ record self.old { fault = Some fault }) }
    {
        if let Err(fault) = done {
            self.fault = Some(fault);
        }
    }
}
