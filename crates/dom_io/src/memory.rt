//! A source and a sink in memory, which fail at listed calls.
ghost use Rattle.std.specs.Prelude.{◌≡◌, ◌≤◌, Some, IfOk};
ghost use Rattle.dom_io.specs.Counts.{last_count};
ghost use Rattle.dom_io.specs.Sources.{fresh_supply, read_answer, read_from, read_into};
ghost use Rattle.dom_io.specs.Sinks.{fresh_stock, write_answer, write_to};

use crate::calls::Calls;
use crate::outside::{Sink, Source, Took};
use std::alloc::Global;
use std::marker::Model;
use uid_names::NoMemory;

/// Bytes in memory to read, which fails at listed calls.
#[derive(Drop, Debug)]
pub struct MemSource {
    bytes: Vec<u8>,
    at: usize,
    calls: Calls,
}

impl Model for MemSource {
    ghost use Rattle.std.specs.Prelude.{◌≤◌, length, drop};
    ghost use Rattle.dom_io.specs.Sources.{Supply};

    ghost Value = { Supply };

    ghost view = { λ s. record { left = drop s.at s.bytes.items; calls = s.calls } };

    ghost invariant = { λ s. s.at ≤ length s.bytes.items };
}

impl MemSource {
    /// A source of these bytes, whose calls of these numbers fail, counted from 1.
    pub fn new(alloc: Global, bytes: &[u8], fails: &[u64]) -> Result<MemSource, NoMemory>
        ensures { IfOk result (λ source. source ≡ fresh_supply bytes.now fails.now) }
    {
        let bytes = Vec::from_slice(alloc, bytes)?;
        let calls = Calls::new(alloc, fails)?;
        Ok(MemSource {
            bytes,
            at: 0,
            calls,
        })
    }

    /// The bytes that are left.
    pub fn rest(&self) -> &[u8]
        ensures { result.now ≡ self.now.left }
    {
        &self.bytes[self.at..]
    }
}

impl Source for MemSource {
    ghost left = { λ s. Some s.left };

    ghost faults = { λ s. s.calls.faults };

    fn read(&mut self, buf: &mut [u8]) -> Took
        ensures answer { result ≡ read_answer self.old buf.old }
        ensures source { self.new ≡ read_from self.old buf.old }
        ensures buffer { buf.new ≡ read_into self.old buf.old }
        ensures count { self.old.calls.faults ≤ self.new.calls.faults }
        ensures bounded { self.new.calls.faults ≤ last_count }
    {
        let failed = self.calls.next_fails();
        self.calls.count(failed);
        if failed {
            return Took::Failed;
        }
        let count = buf.len().min(self.bytes.len() - self.at);
        buf[..count].copy_from_slice(&self.bytes[self.at..self.at + count]);
        self.at += count;
        Took::Some(count)
    }
}

/// A place in memory for so many bytes, which fails at listed calls and where it is full.
#[derive(Drop, Debug)]
pub struct MemSink {
    room: usize,
    bytes: Vec<u8>,
    calls: Calls,
}

impl Model for MemSink {
    ghost use Rattle.std.specs.Prelude.{◌≤◌, vec_len, vec_capacity};
    ghost use Rattle.dom_io.specs.Sinks.{Stock};

    ghost Value = { Stock };

    ghost view = { λ s. record { room = s.room; bytes = s.bytes.items; calls = s.calls } };

    ghost invariant = { λ s. (vec_len s.bytes ≤ s.room) × (s.room ≤ vec_capacity s.bytes) };
}

impl MemSink {
    /// An empty sink with room for so many bytes, whose calls of these numbers fail, counted from 1.
    /// It takes all its memory here.
    pub fn new(alloc: Global, room: usize, fails: &[u64]) -> Result<MemSink, NoMemory>
        ensures { IfOk result (λ sink. sink ≡ fresh_stock room fails.now) }
    {
        let bytes = Vec::with_capacity(alloc, room)?;
        let calls = Calls::new(alloc, fails)?;
        Ok(MemSink { room, bytes, calls })
    }

    /// The bytes that it holds.
    pub fn bytes(&self) -> &[u8]
        ensures { result.now ≡ self.now.bytes }
    {
        self.bytes.as_slice()
    }
}

impl Sink for MemSink {
    ghost held = { λ s. Some s.bytes };

    ghost faults = { λ s. s.calls.faults };

    fn write(&mut self, piece: &[u8]) -> Took
        ensures answer { result ≡ write_answer self.old piece.now }
        ensures sink { self.new ≡ write_to self.old piece.now }
        ensures count { self.old.calls.faults ≤ self.new.calls.faults }
        ensures bounded { self.new.calls.faults ≤ last_count }
    {
        let free = self.room - self.bytes.len();
        let failed = self.calls.next_fails() || (free == 0 && !piece.is_empty());
        self.calls.count(failed);
        if failed {
            return Took::Failed;
        }
        let count = piece.len().min(free);
        match self.bytes.extend_from_slice(&piece[..count]) {
            Ok(()) => Took::Some(count),
            Err(_) => unreachable!(),
        }
    }
}
