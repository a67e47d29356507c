//! All that is ready at a post but Begins.
ghost use Rattle.std.specs.Prelude.{◌≤◌, ◌^◌};
ghost use Rattle.node_posts.specs.Posts.{HasRun, GoesOn};

use crate::post::Post;
use dom_history::Program;
use page_store::Pages;
use std::alloc::Global;
use uid_names::NODE_PROCESSES;

/// How many entries of one link are taken, before the next one is looked at.
pub const TAKEN_AT_ONCE: usize = 64;

impl<P: Program, G: Pages> Post<P, G> {
    /// One round: each process goes on that may, the notices that wait are taken, the frames of the node's own link, entries of each ring,
    /// and the node's mark is sent, if it may be. False where nothing was done and nothing came. Nothing is pushed.
    pub fn serve_round(&mut self, alloc: Global, last_tick: u64) -> bool
        requires last { last_tick ≤ 2 ^ 40 }
        requires run { HasRun P.wants P.becomes last_tick self.old }
        ensures goes { GoesOn P.wants P.becomes last_tick self.old self.new }
    {
        let went = self.go_all(alloc, last_tick);
        let heard = self.hear_all(alloc, last_tick);
        let took_own = self.take_own_some(alloc, last_tick);
        let took = self.take_all(alloc, last_tick);
        let ready = self.make_ready(alloc, last_tick);
        went || heard || took_own || took || ready
    }

    /// Each process goes on that may.
    fn go_all(&mut self, alloc: Global, last_tick: u64) -> bool
        requires last { last_tick ≤ 2 ^ 40 }
        requires run { HasRun P.wants P.becomes last_tick self.old }
        ensures goes { GoesOn P.wants P.becomes last_tick self.old self.new }
    {
        let mut went = false;
        for i in 0..NODE_PROCESSES as u8 {
            went |= self.go(alloc, i + 1, last_tick);
        }
        went
    }

    /// The notices that wait are taken.
    fn hear_all(&mut self, alloc: Global, last_tick: u64) -> bool
        requires last { last_tick ≤ 2 ^ 40 }
        requires run { HasRun P.wants P.becomes last_tick self.old }
        ensures goes { GoesOn P.wants P.becomes last_tick self.old self.new }
    {
        let mut heard = false;
        for _ in 0..self.notices.len() {
            heard |= self.hear(alloc, last_tick);
        }
        heard
    }

    /// Frames of the node's link to itself are taken, as many as are taken at once.
    fn take_own_some(&mut self, alloc: Global, last_tick: u64) -> bool
        requires last { last_tick ≤ 2 ^ 40 }
        requires run { HasRun P.wants P.becomes last_tick self.old }
        ensures goes { GoesOn P.wants P.becomes last_tick self.old self.new }
    {
        for taken in 0..TAKEN_AT_ONCE {
            if !self.take_own(alloc, last_tick) {
                return taken > 0;
            }
        }
        true
    }

    /// Entries of each ring are taken.
    fn take_all(&mut self, alloc: Global, last_tick: u64) -> bool
        requires last { last_tick ≤ 2 ^ 40 }
        requires run { HasRun P.wants P.becomes last_tick self.old }
        ensures goes { GoesOn P.wants P.becomes last_tick self.old self.new }
    {
        let mut took = false;
        for at in 0..self.ins.len() {
            took |= self.take_some(alloc, at, last_tick);
        }
        took
    }

    /// Entries of the ring at a place are taken, as many as are taken at once.
    fn take_some(&mut self, alloc: Global, at: usize, last_tick: u64) -> bool
        requires last { last_tick ≤ 2 ^ 40 }
        requires run { HasRun P.wants P.becomes last_tick self.old }
        ensures goes { GoesOn P.wants P.becomes last_tick self.old self.new }
    {
        for taken in 0..TAKEN_AT_ONCE {
            if !self.take(alloc, at, last_tick) {
                return taken > 0;
            }
        }
        true
    }
}
