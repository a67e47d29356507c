//! What an event receives, of what is kept.
ghost use Rattle.std.specs.Prelude.{◌≡◌, ◌==◌, ◌&&◌, if◌then◌else◌, IfOk, map, reverse};
ghost use Rattle.std.specs.List.{find};
ghost use Rattle.std.specs.Option.{option_map};
ghost use Rattle.node_runs.specs.CallsKeep.{AreCalls};
ghost use Rattle.node_runs.specs.Runs.{World};
ghost use Rattle.journal_check.specs.Kept.{IsKeptOf};
ghost use Rattle.journal_check.specs.Passes.{IsToldBy, IsTakenAs, mark_seen};

use crate::frames::{Frames, Head};
use crate::pass::SentMark;
use node_core::Incoming;
use std::alloc::Global;
use uid_names::{NoMemory, NodeId, ProcId};

/// The node of the process whose call a frame is of.
fn caller_node(head: &Head, from: NodeId, to: NodeId) -> NodeId
    ensures { result ≡ (if head.now.asks then from else to) }
{
    if head.asks { from } else { to }
}

/// Whether a frame is of a call of this process.
fn is_callers(head: &Head, from: NodeId, to: NodeId, caller: ProcId) -> bool
    ensures { result ≡ (((if head.now.asks then from else to) == caller.node) && (head.now.proc == caller.number)) }
{
    let node = caller_node(head, from, to);
    node == caller.node() && head.proc == caller.number()
}

/// What the Notice of a frame receives, if it is of this process's call, and whether it was told before. Takes no memory.
pub(crate) fn told(
    frames: &Frames,
    caller: ProcId,
    from: NodeId,
    to: NodeId,
    index: u64,
) -> Option<(Incoming, bool)>
    ensures { (w : World) → AreCalls w → IsKeptOf w from to frames.now → IsToldBy w caller from to index result }
{
    let Some(head) = frames.head(index) else {
        return None;
    };
    if !is_callers(head, from, to, caller) {
        return None;
    }
    let (number, tick) = (head.number, head.tick);
    Some((Incoming::Gone { number, tick }, head.told))
}

/// What a frame that is taken receives: the frame, or where its call is over its head alone.
pub(crate) fn taken(
    alloc: Global,
    frames: &Frames,
    from: NodeId,
    to: NodeId,
    index: u64,
) -> Result<Option<Incoming>, NoMemory>
    ensures { (w : World) → AreCalls w → IsKeptOf w from to frames.now → IfOk result (IsTakenAs w from to index) }
{
    match frames.taken(alloc, from, to, index)? {
        Some(frame) => Ok(Some(Incoming::Frame(frame))),
        None => Ok(None),
    }
}

/// Whether a mark is of this phase of this node.
fn is_mark_of(mark: &SentMark, from: NodeId, phase: u32) -> bool
    ensures { result ≡ ((mark.now.node == from) && (mark.now.phase == phase)) }
{
    mark.node == from && mark.phase == phase
}

/// The tick of the mark of a phase of a node, if it was sent: the last one is looked at first. Takes no memory.
pub(crate) fn mark_tick(marks: &[SentMark], from: NodeId, phase: u32) -> Option<u64>
    ensures { result ≡ option_map (λ m. m.tick) (find (λ m. (m.node == from) && (m.phase == phase)) (map mark_seen (reverse marks.now))) }
{
    for i in 0..marks.len() {
        let at = marks.len() - 1 - i;
        let mark = &marks[at];
        if is_mark_of(mark, from, phase) {
            return Some(mark.tick);
        }
    }
    None
}
