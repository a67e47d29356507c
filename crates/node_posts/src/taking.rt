//! What comes to a post: entries of its rings, frames of its own link, notices.
ghost use Rattle.std.specs.Prelude.{◌≡◌, ◌≤◌, ◌<◌, ◌^◌, ◌==◌, ℕ, [], None, length, IfSome, IfNone};
ghost use Rattle.std.specs.List.{AllZip};
ghost use Rattle.fault_handler.specs.Desks.{IsNode};
ghost use Rattle.wire_links.specs.Wires.{SameIn};
ghost use Rattle.node_posts.specs.Ends.{own_event};
ghost use Rattle.node_posts.specs.Posts.{HasRun, GoesOn};
ghost use Rattle.node_posts.specs.Reading.{come_if, AreTaken};
ghost use Rattle.node_posts.specs.Turns.{MayDo, Comes};

use crate::post::Post;
use crate::reading::read_carried;
use dom_history::{Program, What};
use node_core::{Incoming, RunFault};
use page_store::Pages;
use ring_links::Waiting;
use std::alloc::Global;
use uid_names::NodeId;
use wire_links::{Carried, WireIn};

/// The oldest entry of the ring at a place, if there is such a ring and an entry.
fn take_at(ins: &mut Vec<WireIn>, at: usize) -> Option<Carried>
    ensures some { IfSome result (λ x. AreTaken (λ k. come_if (k == at) x) ins.old.items ins.new.items) }
    ensures within { IfSome result (λ x. at < length ins.old.items) }
    ensures none { IfNone result (AreTaken (λ k. []) ins.old.items ins.new.items) }
    ensures same { AllZip SameIn ins.old.items ins.new.items }
{
    if at >= ins.len() {
        return None;
    }
    ins[at].take()
}

/// Whether an entry waits in the ring at a place, as far as is seen now.
fn waits_at(ins: &mut Vec<WireIn>, at: usize) -> bool
    ensures none { AreTaken (λ k. []) ins.old.items ins.new.items }
    ensures same { AllZip SameIn ins.old.items ins.new.items }
{
    if at >= ins.len() {
        return false;
    }
    !ins[at].is_empty()
}

/// The event that takes what waits on a node's link to itself.
fn taking(number: NodeId, waiting: Waiting) -> What
    ensures { result ≡ own_event number waiting }
{
    match waiting {
        Waiting::Copy(index) => What::Take(number, index),
        Waiting::Mark(phase) => What::Mark(number, phase),
    }
}

impl<P: Program, G: Pages> Post<P, G> {
    /// An entry that came out of the ring from a node is taken, or dropped where its event is not enabled.
    fn come(&mut self, alloc: Global, from: NodeId, carried: &Carried, last_tick: u64)
        requires last { last_tick ≤ 2 ^ 40 }
        requires fault { self.old.fault ≡ None }
        requires may { MayDo P.wants P.becomes last_tick (λ nodes. IsNode nodes from) self.old }
        ensures { Comes P.wants P.becomes last_tick from carried.now self.old self.new }
    {
        let read = match read_carried(alloc, from, self.number(), carried) {
            Ok(read) => read,
            Err(error) => {
                self.fault = Some(RunFault::from(error));
                return;
            }
        };
        if let Some((what, incoming)) = read {
            self.event(alloc, what, &incoming, last_tick);
        }
    }

    /// Whether an entry waits in the ring at a place, as far as is seen now.
    fn waits(&mut self, at: usize) -> bool
        ensures goes { (limit : ℕ) → limit ≤ 2 ^ 40 → GoesOn P.wants P.becomes limit self.old self.new }
    {
        if self.has_fault() {
            return false;
        }
        waits_at(&mut self.ins, at)
    }

    /// Whether an entry waits in one of the rings, as far as is seen now: what is pushed behind the look is not. False where a fault came.
    /// Takes no memory, and does nothing else.
    pub fn has_incoming(&mut self) -> bool
        ensures goes { (limit : ℕ) → limit ≤ 2 ^ 40 → GoesOn P.wants P.becomes limit self.old self.new }
    {
        for at in 0..self.ins.len() {
            if self.waits(at) {
                return true;
            }
        }
        false
    }

    /// Takes the oldest entry of the ring at a place, unless its node has ended or a fault came; false where nothing came out. An entry
    /// whose event is not enabled is dropped.
    pub fn take(&mut self, alloc: Global, at: usize, last_tick: u64) -> bool
        requires last { last_tick ≤ 2 ^ 40 }
        requires run { HasRun P.wants P.becomes last_tick self.old }
        ensures goes { GoesOn P.wants P.becomes last_tick self.old self.new }
    {
        if self.has_fault() {
            return false;
        }
        if self.node.ended() {
            return false;
        }
        let Some(from) = self.other(at) else {
            return false;
        };
        let Some(carried) = take_at(&mut self.ins, at) else {
            return false;
        };
        self.come(alloc, from, &carried, last_tick);
        true
    }

    /// Takes the oldest frame of the node's link to itself, unless the node has ended or a fault came; false where there is none.
    pub fn take_own(&mut self, alloc: Global, last_tick: u64) -> bool
        requires last { last_tick ≤ 2 ^ 40 }
        requires run { HasRun P.wants P.becomes last_tick self.old }
        ensures goes { GoesOn P.wants P.becomes last_tick self.old self.new }
    {
        if self.has_fault() {
            return false;
        }
        if self.node.ended() {
            return false;
        }
        let Some(entry) = self.own.pop() else {
            return false;
        };
        let what = taking(self.number(), entry.waiting);
        self.event(alloc, what, &entry.received, last_tick);
        true
    }

    /// Takes the oldest notice, unless a fault came; false where there is none. One of a call that is not open is dropped.
    pub fn hear(&mut self, alloc: Global, last_tick: u64) -> bool
        requires last { last_tick ≤ 2 ^ 40 }
        requires run { HasRun P.wants P.becomes last_tick self.old }
        ensures goes { GoesOn P.wants P.becomes last_tick self.old self.new }
    {
        if self.has_fault() {
            return false;
        }
        let Some(notice) = self.notices.pop_front() else {
            return false;
        };
        let incoming = Incoming::Gone {
            number: notice.number,
            tick: notice.tick,
        };
        self.event(alloc, notice.what(), &incoming, last_tick);
        true
    }
}
