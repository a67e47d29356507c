//! A link from a node to a node, or to itself: what was sent there and waits to be taken, by the fates of frames.
ghost use Rattle.std.specs.Prelude.{◌≡◌, ◌+◌, ◌^◌, ◌<◌, ◌≤◌, ◌++◌, ◌∷◌, [], drop, length, slice_get, OnOk, OnErr, IfSome, IfNone, false};
ghost use Rattle.std.specs.List.{prefix_len, list_any};
ghost use Rattle.std.specs.Option.{option_copied};
ghost use Rattle.std.specs.VecDeque.{deque_len, deque_capacity};
ghost use Rattle.dom_history.specs.declared.plan.Fate.TheVariants as fates;
ghost use Rattle.uid_names.specs.InOrder.{AreInOrder, put_in_order};
ghost use Rattle.ring_links.specs.Carried.{empty_link, copy_of, own_copy, is_mark as is_mark_entry, frame_sent, mark_sent};
ghost use Rattle.ring_links.specs.Later.{is_before as falls_sooner, falls_before, is_behind, AreLater, HaveFallen};

use crate::entry::{Entry, Waiting};
use dom_history::Fate;
use ring_messages::Copied;
use std::alloc::Global;
use std::collections::VecDeque;
use std::marker::Model;
use uid_names::NoMemory;

/// A copy of the frame of this number falls behind that frame, which is a later one or itself.
#[derive(Drop, Debug)]
pub struct Later<T> {
    pub index: u64,
    pub behind: u64,
    pub received: T,
}

/// Whether a copy falls before one of this number that falls behind this frame.
fn is_before<T>(copy: &Later<T>, behind: u64, index: u64) -> bool
    ensures { result ≡ falls_sooner behind index copy.now }
{
    copy.behind < behind || (copy.behind == behind && copy.index < index)
}

/// How many copies fall before one of this number that falls behind this frame.
fn count_before<T>(later: &VecDeque<Later<T>>, behind: u64, index: u64) -> usize
    requires { AreInOrder falls_before later.now.items }
    ensures place { result ≡ prefix_len (falls_sooner behind index) later.now.items }
    ensures within { result ≤ deque_len later.now }
{
    later.partition_point(|copy| is_before(copy, behind, index))
}

/// A copy goes in its place among those that fall later. Without memory they stay as they were.
fn put_later<T: Drop>(later: &mut VecDeque<Later<T>>, copy: Later<T>) -> Result<(), NoMemory>
    requires { AreInOrder falls_before later.old.items }
    ensures ok { OnOk result (later.new.items ≡ put_in_order falls_before copy later.old.items) }
    ensures len { OnOk result (deque_len later.new ≡ deque_len later.old + 1) }
    ensures err { OnErr result (later.new.items ≡ later.old.items) }
{
    let place = count_before(later, copy.behind, copy.index);
    later.insert(place, copy)?;
    Ok(())
}

/// Whether the first of these copies falls behind this frame.
#[inline(always)]
fn falls_first<T>(later: &VecDeque<Later<T>>, frame: u64) -> bool
    ensures { result ≡ is_behind frame (slice_get later.now.items 0) }
{
    match later.front() {
        Some(copy) => copy.behind == frame,
        None => false,
    }
}

/// The first of these copies, if there is one.
fn pop_first<T>(later: &mut VecDeque<Later<T>>) -> Option<Later<T>>
    ensures first { result ≡ slice_get later.old.items 0 }
    ensures rest { later.new.items ≡ drop 1 later.old.items }
    ensures fewer { IfSome result (λ _. deque_len later.new + 1 ≡ deque_len later.old) }
{
    later.pop_front()
}

/// The first of these copies, if it falls behind this frame.
fn pop_behind<T>(later: &mut VecDeque<Later<T>>, frame: u64) -> Option<Later<T>>
    ensures some { IfSome result (λ copy. (copy.behind ≡ frame) × (later.old.items ≡ copy ∷ later.new.items)) }
    ensures none { IfNone result ((later.new.items ≡ later.old.items) × (is_behind frame (slice_get later.old.items 0) ≡ false)) }
    ensures fewer { IfSome result (λ _. deque_len later.new + 1 ≡ deque_len later.old) }
{
    if falls_first(later, frame) {
        pop_first(later)
    } else {
        None
    }
}

/// A copy of the frame of this number waits from now on. There is room for it.
#[inline(always)]
fn put_copy<T>(queue: &mut VecDeque<Entry<T>>, index: u64, received: T)
    requires room { deque_len queue.old < deque_capacity queue.old }
    ensures waits { queue.new.items ≡ queue.old.items ++ copy_of received index ∷ [] }
    ensures len { deque_len queue.new ≡ deque_len queue.old + 1 }
    ensures capacity { deque_capacity queue.new ≡ deque_capacity queue.old }
{
    let waiting = Waiting::Copy(index);
    queue.push_back_reserved(Entry { waiting, received });
}

/// The copies that fall behind the next frame, where so many were sent, wait from now on: they are the first ones. There is room for
/// all that fall later. Not inlined: copies that fall are few.
#[inline(never)]
fn fall_some<T: Drop>(queue: &mut VecDeque<Entry<T>>, later: &mut VecDeque<Later<T>>, frames: u64)
    requires few { frames < 2 ^ 63 }
    requires room { deque_len queue.old + deque_len later.old ≤ deque_capacity queue.old }
    requires later { AreLater (frames + 1) frames later.old.items }
    ensures { HaveFallen frames queue.old.items queue.new.items later.old.items later.new.items }
{
    loop {
        match pop_behind(later, frames + 1) {
            None => return,
            Some(copy) => put_copy(queue, copy.index, copy.received),
        }
    }
}

/// A copy of the next frame, where so many were sent, that falls behind so many later ones.
fn own_later<T>(frames: u64, received: T, after: u32) -> Later<T>
    requires few { frames < 2 ^ 63 }
    ensures { result ≡ own_copy frames after received }
{
    let index = frames + 1;
    let behind = index + u64::from(after);
    Later {
        index,
        behind,
        received,
    }
}

/// Whether an entry is the mark of a phase.
fn is_mark<T>(entry: &Entry<T>) -> bool
    ensures { result ≡ is_mark_entry entry.now }
{
    matches!(entry.waiting, Waiting::Mark(_))
}

/// A link: how many frames were sent there, what waits, the oldest first, and the copies that fall behind a later frame,
/// in the order in which they fall.
#[derive(Drop, Debug)]
pub struct Link<T> {
    frames: u64,
    queue: VecDeque<Entry<T>>,
    later: VecDeque<Later<T>>,
}

impl<T> Model for Link<T> {
    ghost use Rattle.ring_links.specs.Carried.{Carrying};
    ghost use Rattle.ring_links.specs.Later.{by_number, AreLater};

    ghost Value = { Carrying T };

    ghost view = { λ l. record { frames = l.frames; queue = l.queue.items; later = by_number l.later.items } };

    ghost invariant = { λ l. AreLater l.frames l.frames l.later.items };
}

impl<T: Drop> Link<T> {
    /// A link on which nothing was sent. Takes no memory.
    pub fn new(alloc: Global) -> Link<T>
        ensures { result ≡ empty_link }
    {
        Link {
            frames: 0,
            queue: VecDeque::new(alloc),
            later: VecDeque::new(alloc),
        }
    }

    /// How many frames were sent. Takes no memory.
    pub fn frames(&self) -> u64
        ensures { result ≡ self.now.frames }
    {
        self.frames
    }

    /// What may be taken: the oldest that waits. Takes no memory.
    pub fn oldest(&self) -> Option<&Entry<T>>
        ensures { option_copied result ≡ slice_get self.now.queue 0 }
    {
        self.queue.front()
    }

    /// How many entries wait. Takes no memory.
    pub fn waiting(&self) -> usize
        ensures count { result ≡ length self.now.queue }
        ensures small { result < 2 ^ 63 }
    {
        self.queue.len()
    }

    /// Whether a mark waits. Takes no memory.
    pub fn holds_mark(&self) -> bool
        ensures { result ≡ list_any is_mark_entry self.now.queue }
    {
        self.queue.iter().any(is_mark)
    }

    /// The oldest is taken. Takes no memory.
    pub fn take(&mut self)
        ensures { self.new ≡ record self.old { queue = drop 1 self.old.queue } }
    {
        let _ = self.queue.pop_front();
    }

    /// Takes the oldest that waits, and hands it out. Takes no memory.
    pub fn pop(&mut self) -> Option<Entry<T>>
        ensures oldest { result ≡ slice_get self.old.queue 0 }
        ensures taken { self.new ≡ record self.old { queue = drop 1 self.old.queue } }
    {
        self.queue.pop_front()
    }

    /// The mark of a phase is sent. Without memory nothing has changed.
    pub fn mark(&mut self, phase: u32, received: T) -> Result<(), NoMemory>
        ensures sent { OnOk result (self.new ≡ mark_sent phase received self.old) }
        ensures err { OnErr result (self.new ≡ self.old) }
    {
        // A `push_back` hands the entry back where there is no memory: it is moved twice more for that.
        self.queue.reserve(1)?;
        let waiting = Waiting::Mark(phase);
        self.queue.push_back_reserved(Entry { waiting, received });
        Ok(())
    }

    /// A frame is sent that is delivered in its place.
    #[inline(always)]
    fn pass(&mut self, frame: T) -> Result<(), NoMemory>
        requires few { self.old.frames < 2 ^ 63 }
        ensures sent { OnOk result (self.new ≡ frame_sent fates.Pass frame self.old) }
        ensures err { OnErr result (self.new ≡ self.old) }
    {
        if falls_first(&self.later, self.frames + 1) {
            return self.pass_before(frame);
        }
        self.queue.reserve(1)?;
        put_copy(&mut self.queue, self.frames + 1, frame);
        self.frames += 1;
        Ok(())
    }

    /// The same, where copies fall behind it.
    // Not inlined, as `lose`, `late` and `twice`: such frames are few, and where frames pass nothing is made ready for them. Each takes
    // room for all that may fall before it changes anything.
    #[inline(never)]
    fn pass_before(&mut self, frame: T) -> Result<(), NoMemory>
        requires few { self.old.frames < 2 ^ 63 }
        ensures sent { OnOk result (self.new ≡ frame_sent fates.Pass frame self.old) }
        ensures err { OnErr result (self.new ≡ self.old) }
    {
        self.queue.reserve(self.later.len() + 1)?;
        put_copy(&mut self.queue, self.frames + 1, frame);
        fall_some(&mut self.queue, &mut self.later, self.frames);
        self.frames += 1;
        Ok(())
    }

    /// A frame is sent that is never delivered.
    #[inline(never)]
    fn lose(&mut self) -> Result<(), NoMemory>
        requires few { self.old.frames < 2 ^ 63 }
        ensures sent { (frame : T) → OnOk result (self.new ≡ frame_sent fates.Lose frame self.old) }
        ensures err { OnErr result (self.new ≡ self.old) }
    {
        self.queue.reserve(self.later.len())?;
        fall_some(&mut self.queue, &mut self.later, self.frames);
        self.frames += 1;
        Ok(())
    }

    /// A frame is sent that is delivered behind so many later frames.
    #[inline(never)]
    fn late(&mut self, frame: T, after: u32) -> Result<(), NoMemory>
        requires few { self.old.frames < 2 ^ 63 }
        ensures sent { OnOk result (self.new ≡ frame_sent (fates.Late after) frame self.old) }
        ensures err { OnErr result (self.new ≡ self.old) }
    {
        self.queue.reserve(self.later.len() + 1)?;
        put_later(&mut self.later, own_later(self.frames, frame, after))?;
        fall_some(&mut self.queue, &mut self.later, self.frames);
        self.frames += 1;
        Ok(())
    }
}

impl<T: Copied> Link<T> {
    /// A frame of this fate is sent: those of its copies wait from now on that fall in its place, and behind it. Without memory nothing
    /// has changed.
    #[inline(always)]
    pub fn send(&mut self, alloc: Global, fate: Fate, frame: T) -> Result<(), NoMemory>
        requires few { self.old.frames < 2 ^ 63 }
        ensures sent { OnOk result (self.new ≡ frame_sent fate frame self.old) }
        ensures err { OnErr result (self.new ≡ self.old) }
    {
        match fate {
            Fate::Pass => self.pass(frame),
            Fate::Lose => self.lose(),
            Fate::Late(after) => self.late(frame, after),
            Fate::Twice(after) => self.twice(alloc, frame, after),
        }
    }

    /// A frame is sent that is delivered in its place, and again behind so many later frames.
    #[inline(never)]
    fn twice(&mut self, alloc: Global, frame: T, after: u32) -> Result<(), NoMemory>
        requires few { self.old.frames < 2 ^ 63 }
        ensures sent { OnOk result (self.new ≡ frame_sent (fates.Twice after) frame self.old) }
        ensures err { OnErr result (self.new ≡ self.old) }
    {
        let again = frame.copy(alloc)?;
        self.queue.reserve(self.later.len() + 2)?;
        put_later(&mut self.later, own_later(self.frames, again, after))?;
        put_copy(&mut self.queue, self.frames + 1, frame);
        fall_some(&mut self.queue, &mut self.later, self.frames);
        self.frames += 1;
        Ok(())
    }
}
