//! The two ends of a link.
ghost use Rattle.std.specs.Prelude.{◌≡◌, ◌≢◌, ◌+◌, ◌<◌, ◌≤◌, ◌^◌, ◌++◌, ◌∷◌, ◌↔◌, [], length, OnOk, OnErr, IfOk, IfSome, IfNone, IsSome, IsTrue, IsFalse};
ghost use Rattle.std.specs.List.{list_any};
ghost use Rattle.std.specs.VecDeque.{deque_len, deque_capacity};
ghost use mathlib.Core.List.{IsPrefix};
ghost use Rattle.ring_messages.specs.Spelling.{spelling};
ghost use Rattle.ring_links.specs.Carried as links;
ghost use Rattle.wire_links.specs.declared.carried.Parcel.TheVariants as parcel;
ghost use Rattle.node_runs.specs.Deliveries.{is_gone as is_gone_fate};
ghost use Rattle.wire_links.specs.Carrying.{gone_of, frame_sent, mark_sent, told_at_once};
ghost use Rattle.wire_links.specs.Outboxes.{is_mark as is_mark_entry};
ghost use Rattle.wire_links.specs.Wires.{wire_of, pushed, outbox, free, from_of, to_of, next_fate, taken, known, AreEnds, AreUnused, IsOfLink, SameOut, SameIn, OutStays};

use crate::carried::{Carried, Parcel};
use crate::fates::LinkFates;
use crate::spelled::{Spelled, Tick};
use dom_history::{Fate, FaultPlan};
use ring_links::{Link, Waiting, is_gone};
use ring_messages::Frame;
use rtrb::{Consumer, Producer, RingBuffer};
use std::alloc::Global;
use std::collections::VecDeque;
use uid_names::{NoMemory, NodeId};

/// How many entries a ring has room for.
pub const RING_ROOM: usize = 256;

/// The end from which a link leads. What waits to be pushed stands in the link; word of a reply that is lost or late, and what stands before
/// it, in the outbox.
pub struct WireOut {
    fates: LinkFates,
    link: Link<Parcel>,
    outbox: VecDeque<Carried>,
    producer: Producer<Carried>,
}

// Of its own, so that what drops one calls this and does not take it apart in place.
impl Drop for WireOut {
    fn drop(self) {
        let WireOut {
            fates: _,
            link: _,
            outbox: _,
            producer: _,
        } = self;
    }
}

/// The end to which it leads.
pub struct WireIn {
    consumer: Consumer<Carried>,
}

// Of its own, so that what drops one calls this and does not take it apart in place.
impl Drop for WireIn {
    fn drop(self) {
        let WireIn { consumer: _ } = self;
    }
}

/// The two ends of a link on which nothing was sent, over a ring that has room for [`RING_ROOM`] entries.
pub fn pair(
    alloc: Global,
    from: NodeId,
    to: NodeId,
    plan: &FaultPlan,
) -> Result<(WireOut, WireIn), NoMemory>
    requires { from ≢ to }
    ensures ends { IfOk result (λ r. AreEnds r.0 r.1) }
    ensures empty { IfOk result (λ r. AreUnused r.0 r.1) }
    ensures link { IfOk result (λ r. IsOfLink plan.now from to r.0) }
    ensures room { IfOk result (λ r. free r.0 ≡ RING_ROOM) }
{
    pair_with_room(alloc, from, to, plan, RING_ROOM)
}

/// The same over a ring that has room for so many entries.
pub fn pair_with_room(
    alloc: Global,
    from: NodeId,
    to: NodeId,
    plan: &FaultPlan,
    room: usize,
) -> Result<(WireOut, WireIn), NoMemory>
    requires { from ≢ to }
    ensures ends { IfOk result (λ r. AreEnds r.0 r.1) }
    ensures empty { IfOk result (λ r. AreUnused r.0 r.1) }
    ensures link { IfOk result (λ r. IsOfLink plan.now from to r.0) }
    ensures room { IfOk result (λ r. free r.0 ≡ room) }
{
    let fates = LinkFates::of(alloc, plan, from, to)?;
    let (producer, consumer) = RingBuffer::new(alloc, room)?;
    let out = WireOut {
        fates,
        link: Link::new(alloc),
        outbox: VecDeque::new(alloc),
        producer,
    };
    Ok((out, WireIn { consumer }))
}

/// A frame of this fate is sent on a link. Without memory nothing has changed.
fn put(alloc: Global, link: &mut Link<Parcel>, fate: Fate, frame: &Frame) -> Result<(), NoMemory>
    requires few { link.old.frames < 2 ^ 63 }
    requires tick { frame.now.tick < 2 ^ 40 }
    ensures sent { OnOk result (link.new ≡ links.frame_sent fate (parcel.Frame (spelling frame.now)) link.old) }
    ensures err { OnErr result (link.new ≡ link.old) }
{
    link.send(alloc, fate, Parcel::Frame(Spelled::of(alloc, frame)?))
}

/// Word of a reply that is lost or late, with its number on the link.
fn word_of(frame: &Frame, index: u64) -> Carried
    requires tick { frame.now.tick < 2 ^ 40 }
    ensures { result ≡ gone_of frame.now index }
{
    Carried::Gone {
        proc: frame.proc(),
        number: frame.number(),
        index,
        tick: Tick::new(frame.tick()),
    }
}

/// Whether what goes through a ring is a mark.
fn is_mark(entry: &Carried) -> bool
    ensures { result ≡ is_mark_entry entry.now }
{
    match entry {
        Carried::Put(entry) => matches!(entry.waiting, Waiting::Mark(_)),
        Carried::Gone { .. } => false,
    }
}

/// Whether a mark is among these.
fn any_mark(outbox: &VecDeque<Carried>) -> bool
    ensures { result ≡ list_any is_mark_entry outbox.now.items }
{
    outbox.iter().any(is_mark)
}

impl WireOut {
    /// How many frames were sent. Takes no memory.
    pub fn frames(&self) -> u64
        ensures { result ≡ (wire_of self.now).frames }
    {
        self.link.frames()
    }

    /// How many entries wait to be pushed. Takes no memory.
    pub fn waiting(&self) -> usize
        ensures { result ≡ length (outbox self.now) }
    {
        self.outbox.len() + self.link.waiting()
    }

    /// Whether a mark waits to be pushed. Takes no memory.
    #[tactic(auto, using(crate::proofs::Outboxes::marks_waiting))]
    pub fn holds_mark(&self) -> bool
        ensures { result ≡ list_any is_mark_entry (outbox self.now) }
    {
        any_mark(&self.outbox) || self.link.holds_mark()
    }

    /// A frame is sent, by its fate; its number, just where it is a request that is lost or late. Nothing is pushed. Without memory nothing
    /// was sent.
    pub fn send(&mut self, alloc: Global, frame: &Frame) -> Result<Option<u64>, NoMemory>
        requires link { (frame.now.from ≡ from_of self.old) × (frame.now.to ≡ to_of self.old) }
        requires few { (wire_of self.old).frames < 2 ^ 63 }
        requires tick { frame.now.tick < 2 ^ 40 }
        ensures sent { OnOk result (wire_of self.new ≡ frame_sent (next_fate self.old) frame.now (wire_of self.old)) }
        ensures told { IfOk result (λ told. told ≡ told_at_once (next_fate self.old) frame.now ((wire_of self.old).frames + 1)) }
        ensures err { OnErr result (wire_of self.new ≡ wire_of self.old) }
        ensures pushed { pushed self.new ≡ pushed self.old }
        ensures same { SameOut self.old self.new }
    {
        let index = self.link.frames() + 1;
        let fate = self.fates.fate(index);
        if is_gone(fate) {
            return self.send_gone(alloc, fate, frame, index);
        }
        put(alloc, &mut self.link, fate, frame)?;
        Ok(None)
    }

    /// The mark of a phase is sent. Nothing is pushed. Without memory nothing was sent.
    pub fn send_mark(&mut self, phase: u32, tick: u64) -> Result<(), NoMemory>
        requires tick { tick < 2 ^ 40 }
        ensures sent { OnOk result (wire_of self.new ≡ mark_sent phase tick (wire_of self.old)) }
        ensures err { OnErr result (wire_of self.new ≡ wire_of self.old) }
        ensures pushed { pushed self.new ≡ pushed self.old }
        ensures same { SameOut self.old self.new }
    {
        self.link.mark(phase, Parcel::Mark(Tick::new(tick)))
    }

    /// Pushes while the ring takes; true where nothing is left, and else the ring is full. Takes no memory.
    pub fn flush(&mut self) -> bool
        ensures wire { wire_of self.new ≡ wire_of self.old }
        ensures value { IsTrue result ↔ (outbox self.new ≡ []) }
        ensures full { outbox self.new ≢ [] → free self.new ≡ 0 }
        ensures room { length (outbox self.old) ≤ free self.old → IsTrue result }
        ensures same { SameOut self.old self.new }
    {
        self.flush_outbox();
        if self.outbox.is_empty() {
            self.flush_link();
        }
        self.waiting() == 0
    }

    /// A frame is sent that is lost or late. Word of a request goes to its caller, which is here, of a reply in its place: behind what waits.
    // Not inlined: such frames are few.
    #[inline(never)]
    fn send_gone(
        &mut self,
        alloc: Global,
        fate: Fate,
        frame: &Frame,
        index: u64,
    ) -> Result<Option<u64>, NoMemory>
        requires gone { IsTrue (is_gone_fate fate) }
        requires next { index ≡ (wire_of self.old).frames + 1 }
        requires few { (wire_of self.old).frames < 2 ^ 63 }
        requires tick { frame.now.tick < 2 ^ 40 }
        ensures sent { OnOk result (wire_of self.new ≡ frame_sent fate frame.now (wire_of self.old)) }
        ensures told { IfOk result (λ told. told ≡ told_at_once fate frame.now index) }
        ensures err { OnErr result (wire_of self.new ≡ wire_of self.old) }
        ensures others { (self.new.producer ≡ self.old.producer) × (self.new.fates ≡ self.old.fates) }
    {
        if frame.body().is_request() {
            put(alloc, &mut self.link, fate, frame)?;
            return Ok(Some(index));
        }
        self.drain()?;
        put(alloc, &mut self.link, fate, frame)?;
        self.outbox.push_back_reserved(word_of(frame, index));
        Ok(None)
    }

    /// What waits in the link goes into the outbox, which has room for one entry more.
    #[tactic(auto, using(crate::proofs::Draining::drain_one, crate::proofs::Draining::none_waits))]
    fn drain(&mut self) -> Result<(), NoMemory>
        ensures wire { wire_of self.new ≡ wire_of self.old }
        ensures all { OnOk result (self.new.link.queue ≡ []) }
        ensures room { OnOk result (deque_len self.new.outbox < deque_capacity self.new.outbox) }
        ensures others { (self.new.producer ≡ self.old.producer) × (self.new.fates ≡ self.old.fates) }
    {
        loop {
            self.outbox.reserve(1)?;
            match self.link.pop() {
                None => return Ok(()),
                Some(entry) => self.outbox.push_back_reserved(Carried::Put(entry)),
            }
        }
    }

    /// Whether the ring takes an entry.
    #[inline(always)]
    fn takes(&mut self) -> bool
        ensures value { IsTrue result ↔ (0 < free self.new) }
        ensures free { free self.old ≤ free self.new }
        ensures pushed { pushed self.new ≡ pushed self.old }
        ensures same { SameOut self.old self.new }
        ensures others { (self.new.link ≡ self.old.link) × (self.new.outbox ≡ self.old.outbox) }
    {
        self.producer.cached_slots() > 0 || self.producer.slots() > 0
    }

    /// Pushes what waits in the outbox, while the ring takes.
    fn flush_outbox(&mut self)
        ensures wire { wire_of self.new ≡ wire_of self.old }
        ensures full { self.new.outbox.items ≢ [] → free self.new ≡ 0 }
        ensures room { length (outbox self.old) ≤ free self.old → length (outbox self.new) ≤ free self.new }
        ensures same { SameOut self.old self.new }
    {
        while !self.outbox.is_empty() && self.takes() {
            if let Some(entry) = self.outbox.pop_front() {
                self.producer.push_reserved(entry);
            }
        }
    }

    /// Pushes what waits in the link, where the outbox is empty, while the ring takes.
    fn flush_link(&mut self)
        requires { self.old.outbox.items ≡ [] }
        ensures wire { wire_of self.new ≡ wire_of self.old }
        ensures full { outbox self.new ≢ [] → free self.new ≡ 0 }
        ensures room { length (outbox self.old) ≤ free self.old → length (outbox self.new) ≤ free self.new }
        ensures same { SameOut self.old self.new }
    {
        while self.link.waiting() > 0 && self.takes() {
            if let Some(entry) = self.link.pop() {
                self.producer.push_reserved(Carried::Put(entry));
            }
        }
    }
}

impl WireIn {
    /// The oldest entry that was pushed and not taken: of those that are known to wait the first. Never None where one is
    /// known. Takes no memory.
    pub fn take(&mut self) -> Option<Carried>
        ensures some { IfSome result (λ x. taken self.new ≡ taken self.old ++ x ∷ []) }
        ensures none { IfNone result (taken self.new ≡ taken self.old) }
        ensures first { IfSome result (λ x. IsPrefix (known self.old) (x ∷ known self.new)) }
        ensures never { 0 < length (known self.old) → IsSome result }
        ensures nothing { IfNone result (known self.new ≡ []) }
        ensures same { SameIn self.old self.new }
    {
        self.consumer.pop().ok()
    }

    /// Whether nothing waits here, as far as this end sees it now; what it sees is known from then on. Takes no memory.
    pub fn is_empty(&mut self) -> bool
        ensures nothing { IsTrue result → known self.new ≡ [] }
        ensures some { IsFalse result → 0 < length (known self.new) }
        ensures taken { taken self.new ≡ taken self.old }
        ensures first { IsPrefix (known self.old) (known self.new) }
        ensures same { SameIn self.old self.new }
    {
        self.consumer.is_empty()
    }

    /// How many entries were pushed and not taken, with both ends of one link in one hand; they are known from then on. What
    /// was taken is a first part of what was put. Takes no memory.
    pub fn beside(&mut self, out: &mut WireOut) -> u64
        requires { AreEnds out.old self.old }
        ensures fifo { taken self.new ++ known self.new ≡ pushed out.new }
        ensures prefix { (wire_of out.new).put ≡ taken self.new ++ (known self.new ++ outbox out.new) }
        ensures count { result ≡ length (known self.new) }
        ensures taken { taken self.new ≡ taken self.old }
        ensures same { SameIn self.old self.new }
        ensures out { OutStays out.old out.new }
    {
        self.consumer.slots_beside(&mut out.producer) as u64
    }
}
