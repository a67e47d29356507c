//! A sink that counts what it takes, and keeps nothing.
ghost use Rattle.std.specs.Prelude.{None};

use dom_io::{Sink, Took};

/// What is counted.
#[derive(Clone, Copy)]
pub enum Unit {
    /// Which costs nothing for each of them.
    Bytes,
    Lines,
}

/// How many lines end in these bytes: so few that a byte counts them, so that many are compared at once.
fn lines_in_chunk(bytes: &[u8; 32]) -> u8 {
    let mut lines = 0_u8;
    for byte in bytes {
        lines = lines.wrapping_add(u8::from(*byte == b'\n'));
    }
    lines
}

/// How many lines end in a piece.
fn lines_in(piece: &[u8]) -> u64 {
    let mut lines = 0_u64;
    let (chunks, rest) = piece.as_chunks::<32>();
    for chunk in chunks {
        lines = lines.wrapping_add(u64::from(lines_in_chunk(chunk)));
    }
    for byte in rest {
        lines = lines.wrapping_add(u64::from(*byte == b'\n'));
    }
    lines
}

/// How much came.
#[derive(Drop)]
pub struct Counter {
    unit: Unit,
    count: u64,
}

impl Counter {
    /// One that took nothing yet.
    pub fn new(unit: Unit) -> Counter {
        Counter { unit, count: 0 }
    }

    /// How many it took.
    pub fn count(&self) -> u64 {
        self.count
    }
}

impl Sink for Counter {
    ghost held = { λ _. None };

    ghost faults = { λ _. 0 };

    fn write(&mut self, piece: &[u8]) -> Took {
        let more = match self.unit {
            Unit::Bytes => piece.len() as u64,
            Unit::Lines => lines_in(piece),
        };
        self.count = self.count.wrapping_add(more);
        Took::Some(piece.len())
    }
}
