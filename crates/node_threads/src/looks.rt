//! How a thread waits that found nothing to do.
use crate::flag::StopFlag;
use std::{hint, thread};

/// How often a thread that finds nothing looks again with a hint to the processor between, before it lets others go first; never where
/// there are more nodes than processors.
pub const SPINS: u32 = 200;

/// How often it then looks again and lets others go first between, before it may sleep.
pub const YIELDS: u32 = 50;

/// How often in a row a thread found nothing.
#[derive(Drop, Debug)]
pub(crate) struct Looks {
    spins: u32,
    count: u32,
}

impl Looks {
    /// None yet.
    pub(crate) fn new(stop: Option<&StopFlag>) -> Looks {
        let spins = match stop {
            Some(stop) => stop.spins(),
            None => 0,
        };
        Looks { spins, count: 0 }
    }

    /// A look found something, or nothing.
    pub(crate) fn found(&mut self, something: bool) {
        self.count = if something {
            0
        } else {
            self.count.saturating_add(1)
        };
    }

    /// Whether a thread looked in vain so often that it may sleep.
    pub(crate) fn are_enough(&self) -> bool {
        self.count > self.spins.saturating_add(YIELDS)
    }

    /// How often it looks on before it may sleep.
    pub(crate) fn left(&self) -> u32 {
        self.spins
            .saturating_add(YIELDS)
            .saturating_sub(self.count)
            .saturating_add(1)
    }

    /// Lets a moment pass before the next look, if this one found nothing.
    pub(crate) fn pause(&self) {
        if self.count == 0 {
            return;
        }
        if self.count <= self.spins {
            hint::spin_loop();
        } else {
            thread::yield_now();
        }
    }
}
