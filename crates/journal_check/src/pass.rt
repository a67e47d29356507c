//! The pass over the events of a run.
ghost use Rattle.std.specs.Prelude.{◌≡◌, ◌<◌, ◌≤◌, ◌+◌, ◌^◌, ◌*◌, ◌++◌, true, ℕ, List, IfOk, OnOk, IfSome, IsTrue, ◌↔◌, All, length, max, option_copied, Option};
ghost use Rattle.uid_names.specs.declared.ids.Place as places;
ghost use Rattle.uid_names.specs.declared.limits.TheConstants.{MAX_NODES};
ghost use Rattle.dom_history.specs.declared.event.What.TheVariants as events;
ghost use Rattle.dom_history.specs.Events.{Happening};
ghost use Rattle.fault_handler.specs.Desks.{IsNode};
ghost use Rattle.node_runs.specs.Setups.{Setup, IsSetup, given};
ghost use Rattle.node_runs.specs.NodeStates.{is_ended};
ghost use Rattle.node_runs.specs.Incomings.{tick_of};
ghost use Rattle.node_runs.specs.Runs.{World, first_world, is_above as stands_above, HasEnded};
ghost use Rattle.node_core.specs.Nodes.{Noted, given_of, state_of, is_enabled};
ghost use Rattle.node_core.specs.Receivings.{seen};
ghost use Rattle.journal_check.specs.Kept.{Kept};
ghost use Rattle.journal_check.specs.Changes.{AreOfNodes, ChangeLinks, IsFrameThere, IsTold, IsSent, IsServed, IsHeard};
ghost use Rattle.journal_check.specs.Passes.{last_place, marks_sent, IsKeptAs, IsReceived, may_follow};

use crate::frames::Frames;
use crate::received::{mark_tick, taken, told};
use crate::{is_among, link_of, place_of};
use dom_history::{Event, Program, What};
use node_core::{Emitted, Incoming, Node};
use page_store::Pages;
use ring_links::is_before;
use ring_messages::Frame;
use run_journals::checked::a_step_is_decided_by_its_node;
use std::alloc::Global;
use uid_names::{NoMemory, NodeId, Place, ProcId};

/// A mark that a node sent: of which phase, and when.
#[derive(Clone, Copy, Debug, PartialEq, Eq)]
pub struct SentMark {
    pub node: NodeId,
    pub phase: u32,
    pub tick: u64,
}

/// An event that happened: what it received, and where it told of a frame, whether that was told before. The frame that it sent is kept by the
/// pass (`Pass::frame`).
#[derive(Drop)]
pub struct Shown {
    pub event: Event,
    pub received: Incoming,
    pub again: bool,
}

/// All nodes behind some events of them, with what was sent on each link: a head for each frame, and the frame itself as long as its call may
/// not be over; and the place of the last event.
///
/// A pass that found no memory at an event does no other.
#[derive(Drop)]
pub struct Pass<P: Program, G: Pages> {
    pub(crate) nodes: Vec<Node<P, G>>,
    pub(crate) frames: Vec<Frames>,
    pub(crate) marks: Vec<SentMark>,
    pub(crate) last: Option<Place>,
}

/// Whether each of these nodes has ended.
fn have_ended<P: Program, G: Pages>(nodes: &[Node<P, G>]) -> bool
    ensures { IsTrue result ↔ All (λ x. is_ended (given_of x) (state_of x) ≡ true) nodes.now }
{
    for node in nodes {
        if !node.ended() {
            return false;
        }
    }
    true
}

/// Whether a place is above that of the last event, if there is one.
fn is_above(last: Option<Place>, place: Place) -> bool
    ensures { (es : List Happening) → last ≡ last_place es → result ≡ stands_above place es }
{
    match last {
        None => true,
        Some(before) => is_before(before, place),
    }
}

/// The frame of a Notice was told. Takes no memory.
fn tell(frames: &mut Vec<Frames>, nodes: usize, what: &What)
    requires links { AreOfNodes nodes frames.old.items }
    requires there { IsFrameThere nodes what.now frames.old.items }
    ensures { ChangeLinks nodes (IsTold what.now) frames.old.items frames.new.items }
{
    if let What::Notice(_proc, from, to, index) = what {
        frames[link_of(*from, *to, nodes)].tell(*index);
    }
}

/// A frame was sent, if one was.
fn send(frames: &mut Vec<Frames>, nodes: usize, sent: Option<(u64, Frame)>) -> Result<(), NoMemory>
    requires links { AreOfNodes nodes frames.old.items }
    requires named { IfSome sent (λ sent. IsNode nodes sent.1.from × IsNode nodes sent.1.to) }
    ensures { OnOk result (ChangeLinks nodes (IsSent sent) frames.old.items frames.new.items) }
{
    let Some((_index, frame)) = sent else {
        return Ok(());
    };
    let link = link_of(frame.from(), frame.to(), nodes);
    frames[link].send(frame)
}

/// The mark of a phase was sent by a node, if one was.
fn mark(
    marks: &mut Vec<SentMark>,
    phase: Option<u32>,
    node: NodeId,
    tick: u64,
) -> Result<(), NoMemory>
    ensures { OnOk result (marks.new.items ≡ marks.old.items ++ marks_sent phase node tick) }
{
    if let Some(phase) = phase {
        marks.push(SentMark { node, phase, tick })?;
    }
    Ok(())
}

/// A request that was taken was decided, and those before it: they go. Takes no memory.
fn drop_served(frames: &mut Vec<Frames>, nodes: usize, received: &Incoming)
    requires links { AreOfNodes nodes frames.old.items }
    ensures { ChangeLinks nodes (IsServed (seen received.now)) frames.old.items frames.new.items }
{
    let Incoming::Frame(frame) = received else {
        return;
    };
    if !frame.body().is_request() {
        return;
    }
    let from = frame.from();
    if !is_among(from, nodes) {
        return;
    }
    let to = frame.to();
    if !is_among(to, nodes) {
        return;
    }
    frames[link_of(from, to, nodes)].drop_served(frame.proc(), frame.number());
}

/// The answers to a node go whose call is open there no more. Takes no memory.
fn drop_heard<P: Program, G: Pages>(
    frames: &mut Vec<Frames>,
    nodes: usize,
    at: NodeId,
    node: &Node<P, G>,
)
    requires links { AreOfNodes nodes frames.old.items }
    requires at { IsNode nodes at }
    ensures { ChangeLinks nodes (IsHeard node.now at) frames.old.items frames.new.items }
{
    for from in 0..nodes {
        frames[from * nodes + place_of(at)].drop_heard(node);
    }
}

impl<P: Program, G: Pages> Pass<P, G> {
    ghost use Rattle.journal_check.specs.Passes.{Made, AreNodesOf, HasLinks, IsEnabledAt, StandsFor, MayHappen, IsShown, IsStep};

    /// The nodes as they were made, which are all, by number.
    pub fn new(alloc: Global, nodes: Vec<Node<P, G>>) -> Result<Pass<P, G>, NoMemory>
        requires nodes { length nodes.items ≤ MAX_NODES }
        ensures { IfOk result (λ pass. (made : Made P) (s : Setup) → IsSetup s → AreNodesOf P.wants P.becomes made s (first_world s) nodes.items →
            StandsFor P.wants P.becomes made s pass (first_world s)) }
    {
        let count = nodes.len();
        let mut frames = Vec::with_capacity(alloc, count * count)?;
        for _link in 0..count * count {
            frames.push(Frames::new(alloc))?;
        }
        Ok(Pass {
            nodes,
            frames,
            marks: Vec::new(alloc),
            last: None,
        })
    }

    /// All nodes, by number. Takes no memory.
    pub fn nodes(&self) -> &[Node<P, G>]
        ensures { result.now ≡ self.now.nodes.items }
    {
        &self.nodes
    }

    /// The frame of this number on a link, if it was sent, until its call is over where it was sent. Takes no memory.
    pub fn frame(&self, from: NodeId, to: NodeId, index: u64) -> Option<&Frame>
        requires stands { (made : Made P) × (s : Setup) × (w : World) × StandsFor P.wants P.becomes made s self.now w }
        ensures { (made : Made P) (s : Setup) (w : World) → StandsFor P.wants P.becomes made s self.now w → IsKeptAs w from to index (option_copied result) }
    {
        let count = self.nodes.len();
        if !is_among(from, count) {
            return None;
        }
        if !is_among(to, count) {
            return None;
        }
        let link = link_of(from, to, count);
        self.frames[link].frame(index)
    }

    /// What the event receives that takes a frame; None where it was not sent.
    fn took(
        &self,
        alloc: Global,
        from: NodeId,
        node: NodeId,
        index: u64,
    ) -> Result<Option<(Incoming, bool)>, NoMemory>
        requires links { HasLinks self.now }
        requires node { IsNode (length self.now.nodes.items) node }
        ensures { (made : Made P) (s : Setup) (w : World) → StandsFor P.wants P.becomes made s self.now w → IfOk result (IsReceived w node (events.Take from index)) }
    {
        let count = self.nodes.len();
        if !is_among(from, count) {
            return Ok(None);
        }
        let link = link_of(from, node, count);
        match taken(alloc, &self.frames[link], from, node, index)? {
            Some(incoming) => Ok(Some((incoming, false))),
            None => Ok(None),
        }
    }

    /// What the event receives that tells of a frame, and whether that was told before; None where it was not sent, or is of no call of this
    /// process. Takes no memory.
    fn heard(
        &self,
        node: NodeId,
        proc: u8,
        from: NodeId,
        to: NodeId,
        index: u64,
    ) -> Option<(Incoming, bool)>
        requires links { HasLinks self.now }
        ensures { (made : Made P) (s : Setup) (w : World) → StandsFor P.wants P.becomes made s self.now w → IsReceived w node (events.Notice proc from to index) result }
    {
        let Some(caller) = ProcId::new(node, proc) else {
            return None;
        };
        let count = self.nodes.len();
        if !is_among(from, count) {
            return None;
        }
        if !is_among(to, count) {
            return None;
        }
        let link = link_of(from, to, count);
        told(&self.frames[link], caller, from, to, index)
    }

    /// What the event receives that takes the mark of a phase; None where it was not sent. Takes no memory.
    fn marked(&self, from: NodeId, phase: u32) -> Option<(Incoming, bool)>
        ensures { (made : Made P) (s : Setup) (w : World) (n : ℕ) → StandsFor P.wants P.becomes made s self.now w → IsReceived w n (events.Mark from phase) result }
    {
        match mark_tick(&self.marks, from, phase) {
            Some(tick) => Some((Incoming::Mark { tick }, false)),
            None => None,
        }
    }

    /// What an event of a node receives, and where it tells of a frame, whether that was told before; None where nothing of the kind was sent.
    fn received(
        &self,
        alloc: Global,
        node: NodeId,
        what: &What,
    ) -> Result<Option<(Incoming, bool)>, NoMemory>
        requires links { HasLinks self.now }
        requires node { IsNode (length self.now.nodes.items) node }
        ensures { (made : Made P) (s : Setup) (w : World) → StandsFor P.wants P.becomes made s self.now w → IfOk result (IsReceived w node what.now) }
    {
        match what {
            What::Begin(_) | What::Go(_) | What::Ready(_) => Ok(Some((Incoming::Nothing, false))),
            What::Take(from, index) => self.took(alloc, *from, node, *index),
            What::Notice(proc, from, to, index) => {
                Ok(self.heard(node, *proc, *from, *to, *index))
            }
            What::Mark(from, phase) => Ok(self.marked(*from, *phase)),
        }
    }

    /// Whether an event of a node may happen that receives this: it is enabled, and stands above the last one. Takes no memory.
    fn may(&self, node: NodeId, what: &What, received: &Incoming) -> bool
        requires stands { (made : Made P) × (s : Setup) × (w : World) × StandsFor P.wants P.becomes made s self.now w × (length w.done < 2 ^ 40) }
        requires node { IsNode (length self.now.nodes.items) node }
        requires tick { tick_of (seen received.now) < 2 ^ 40 }
        ensures follows { (made : Made P) (s : Setup) (w : World) → StandsFor P.wants P.becomes made s self.now w →
            result ≡ may_follow (given s node) w node what.now (seen received.now) }
        ensures enabled { IsTrue result → IsEnabledAt self.now node what.now (seen received.now) }
    {
        let at = place_of(node);
        let own = &self.nodes[at];
        let tick = own.tick().max(received.tick()) + 1;
        let may = own.enabled(what, received);
        let above = is_above(self.last, Place { tick, node });
        may && above
    }

    /// An event of a node that may happen.
    fn happen(
        &mut self,
        alloc: Global,
        node: NodeId,
        what: What,
        received: Incoming,
        again: bool,
    ) -> Result<Shown, NoMemory>
        requires node { IsNode (length self.old.nodes.items) node }
        requires enabled { IsEnabledAt self.old node what (seen received) }
        requires may { (made : Made P) × (s : Setup) × (w : World) × MayHappen P.wants P.becomes made s self.old w node what received again }
        ensures { (made : Made P) (s : Setup) (w : World) → MayHappen P.wants P.becomes made s self.old w node what received again →
            IfOk result (IsShown P.wants P.becomes made s w node what self.new) }
    {
        // So the event is decided by its node.
        a_step_is_decided_by_its_node();
        let at = place_of(node);
        let count = self.nodes.len();
        let (event, emitted) = self.nodes[at].step_aside(alloc, what, &received)?;
        tell(&mut self.frames, count, &what);
        let Emitted { frame, mark: phase } = emitted;
        mark(&mut self.marks, phase, node, event.place().tick)?;
        send(&mut self.frames, count, frame)?;
        drop_served(&mut self.frames, count, &received);
        drop_heard(&mut self.frames, count, node, &self.nodes[at]);
        self.last = Some(event.place());
        Ok(Shown {
            event,
            received,
            again,
        })
    }

    /// The event that comes of this at a node behind those that the pass did, if one may happen next, with what it received. There is no other, and
    /// where none may happen the pass did nothing.
    pub fn step(
        &mut self,
        alloc: Global,
        node: NodeId,
        what: What,
    ) -> Result<Option<Shown>, NoMemory>
        requires stands { (made : Made P) × (s : Setup) × (w : World) × StandsFor P.wants P.becomes made s self.old w × (length w.done < 2 ^ 40) }
        ensures { (made : Made P) (s : Setup) (w : World) → StandsFor P.wants P.becomes made s self.old w → length w.done < 2 ^ 40 →
            IfOk result (IsStep P.wants P.becomes made s w node what self.new) }
    {
        // So where none comes of it none may happen.
        a_step_is_decided_by_its_node();
        let count = self.nodes.len();
        if !is_among(node, count) {
            return Ok(None);
        }
        let Some((received, again)) = self.received(alloc, node, &what)? else {
            return Ok(None);
        };
        if !self.may(node, &what, &received) {
            return Ok(None);
        }
        Ok(Some(self.happen(alloc, node, what, received, again)?))
    }

    /// Whether all nodes have ended. Takes no memory.
    pub fn ended(&self) -> bool
        ensures { (made : Made P) (s : Setup) (w : World) → StandsFor P.wants P.becomes made s self.now w → IsTrue result ↔ HasEnded s w }
    {
        have_ended(&self.nodes)
    }
}
