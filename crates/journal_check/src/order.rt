//! The order of the frames of a link: those that are delivered against those that are taken, matched as either comes.
ghost use Rattle.std.specs.Prelude.{◌≡◌, ◌≢◌, ◌+◌, ◌<◌, ◌^◌, ◌++◌, ◌∷◌, [], ℕ, List, Some, OnOk, drop};
ghost use Rattle.dom_history.specs.declared.plan.Fate.{Fate as Fates};
ghost use Rattle.run_journals.specs.Matching.{Taken as TakenFrame, at_line};
ghost use Rattle.journal_check.specs.Orders.{IsOrder, IsSettled, copy_index, next_index, fault_in};

use dom_history::Fate;
use ring_links::laws::links_go_by_what_waits;
use ring_links::{Link, Waiting};
use ring_messages::Copied;
use std::alloc::Global;
use std::collections::VecDeque;
use uid_names::NoMemory;

/// What waits on a link here: nothing but the numbers of frames.
#[derive(Clone, Copy, Debug, PartialEq, Eq)]
pub struct Bare;

impl Copied for Bare {
    fn copy(&self, _alloc: Global) -> Result<Bare, NoMemory> {
        Ok(Bare)
    }
}

/// A frame that was taken before it is known to be delivered, and the line that took it.
#[derive(Clone, Copy, Debug, PartialEq, Eq)]
pub struct Early {
    pub index: u64,
    pub line: u64,
}

/// The frames of a link that are delivered and not taken yet, or those that were taken and are not delivered yet; and the line of the first
/// that was taken out of its place, behind which nothing is matched any more.
#[derive(Drop)]
pub struct Order {
    pub(crate) waiting: Link<Bare>,
    pub(crate) early: VecDeque<Early>,
    pub(crate) fault: Option<u64>,
}

/// The number of the frame that waits.
fn index_of(waiting: Waiting) -> Option<u64>
    ensures { result ≡ copy_index waiting }
{
    match waiting {
        Waiting::Copy(index) => Some(index),
        Waiting::Mark(_) => None,
    }
}

impl Order {
    /// Nothing was sent. Takes no memory.
    pub(crate) fn new(alloc: Global) -> Order
        ensures { (fate : ℕ → Fates) → IsOrder fate 0 [] result }
    {
        Order {
            waiting: Link::new(alloc),
            early: VecDeque::new(alloc),
            fault: None,
        }
    }

    /// The frame that is delivered next. Takes no memory.
    fn next(&self) -> Option<u64>
        ensures { result ≡ next_index self.now.waiting }
    {
        match self.waiting.oldest() {
            Some(entry) => index_of(entry.waiting),
            None => None,
        }
    }

    /// The next frame, which is this one, is taken; where another is, that is the first fault. Takes no memory.
    fn take_next(&mut self, next: u64, taken: Early)
        requires { next_index self.old.waiting ≡ Some next }
        ensures same { taken.index ≡ next → self.new ≡ record self.old { waiting = record self.old.waiting { queue = drop 1 self.old.waiting.queue } } }
        ensures other { taken.index ≢ next → self.new ≡ record self.old { fault = Some taken.line } }
    {
        if taken.index == next {
            self.waiting.take();
        } else {
            self.fault = Some(taken.line);
        }
    }

    /// What waits is matched with what was taken early, until one of both has nothing left, or they differ. Takes no memory.
    fn settle(&mut self)
        ensures order { IsSettled self.old self.new }
        ensures frames { self.new.waiting.frames ≡ self.old.waiting.frames }
        ensures later { self.new.waiting.later ≡ self.old.waiting.later }
    {
        while self.fault.is_none() {
            let Some(next) = self.next() else {
                return;
            };
            let Some(taken) = self.early.pop_front() else {
                return;
            };
            self.take_next(next, taken);
        }
    }

    /// The next frame of this fate is sent: what it delivers is matched with what was taken early.
    pub(crate) fn send(&mut self, alloc: Global, fate: Fate) -> Result<(), NoMemory>
        requires few { self.old.waiting.frames < 2 ^ 63 }
        ensures { (fates : ℕ → Fates) (count : ℕ) (taken : List TakenFrame) → IsOrder fates count taken self.old → fates (count + 1) ≡ fate →
            OnOk result (IsOrder fates (count + 1) taken self.new) }
    {
        // What its entries carry is nothing here.
        links_go_by_what_waits::<Bare>();
        self.waiting.send(alloc, fate, Bare)?;
        self.settle();
        Ok(())
    }

    /// A frame is taken, by this line.
    pub(crate) fn take(&mut self, index: u64, line: u64) -> Result<(), NoMemory>
        ensures { (fates : ℕ → Fates) (count : ℕ) (taken : List TakenFrame) → IsOrder fates count taken self.old →
            OnOk result (IsOrder fates count (taken ++ at_line line index ∷ []) self.new) }
    {
        if self.fault.is_some() {
            return Ok(());
        }
        let taken = Early { index, line };
        match self.next() {
            Some(next) => {
                self.take_next(next, taken);
                Ok(())
            }
            None => {
                self.early.push_back(taken)?;
                Ok(())
            }
        }
    }

    /// The line of the first frame that was taken out of its place, once no more are sent: one that is never delivered is out of its place
    /// too. Takes no memory.
    pub(crate) fn first_fault(&self) -> Option<u64>
        ensures { result ≡ fault_in self.now }
    {
        if self.fault.is_some() {
            return self.fault;
        }
        match self.early.front() {
            Some(early) => Some(early.line),
            None => None,
        }
    }
}
