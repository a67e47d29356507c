//! A buffer for lines, whose room is taken when it is made.
ghost use Rattle.std.specs.Prelude.{◌≡◌, ◌+◌, ◌≤◌, [], ◌++◌, length, take, decimal, IfOk};
ghost use Rattle.journal_text.specs.Buffers.{filled};
ghost use Rattle.journal_text.specs.Lines.{journal};

use crate::sizes::{decimal_len, journal_len};
use dom_history::{EventList, NodeNames};
use itoa::write_digits;
use std::alloc::Global;
use std::marker::Model;
use uid_names::NoMemory;

/// Lines behind one another, in a room of bytes that was taken when the buffer was made.
#[derive(Drop, Debug)]
pub struct LineBuffer {
    /// The whole room, in which each byte is there from the first on: so a piece is put by a copy, with no question of room.
    bytes: Vec<u8>,
    /// How many of them are text.
    len: usize,
}

impl Model for LineBuffer {
    ghost use Rattle.std.specs.Prelude.{vec_len, take, ◌≤◌};
    ghost use Rattle.journal_text.specs.Buffers.{Filled, filled};

    ghost Value = { Filled };

    ghost view = { λ b. filled (take b.len b.bytes.items) (vec_len b.bytes) };

    ghost invariant = { λ b. b.len ≤ vec_len b.bytes };
}

/// Puts a number's decimal digits behind so many bytes, and tells where they end.
fn put_digits(bytes: &mut [u8], len: usize, n: u64) -> usize
    requires { len + length (decimal n) ≤ length bytes.old }
    ensures end { result ≡ len + length (decimal n) }
    ensures digits { take result bytes.new ≡ take len bytes.old ++ decimal n }
{
    let end = len + decimal_len(n);
    write_digits(n, bytes, end);
    end
}

impl LineBuffer {
    /// An empty buffer with room for the lines of these events.
    pub fn for_events(
        alloc: Global,
        events: &EventList,
        names: &NodeNames,
    ) -> Result<LineBuffer, NoMemory>
        ensures empty { IfOk result (λ b. b.text ≡ []) }
        ensures room { IfOk result (λ b. length (journal names.now events.now) ≤ b.room) }
    {
        // No memory holds a text that is longer than each length.
        let room = journal_len(events.items(), names).ok_or(NoMemory)?;
        LineBuffer::with_room(alloc, room)
    }

    /// An empty buffer with room for so many bytes.
    pub(crate) fn with_room(alloc: Global, room: usize) -> Result<LineBuffer, NoMemory>
        ensures { IfOk result (λ b. b ≡ filled [] room) }
    {
        let bytes = Vec::from_elem(alloc, 0, room)?;
        Ok(LineBuffer { bytes, len: 0 })
    }

    /// Puts bytes last. Takes no memory.
    // Inlined, so that a piece of a known length is a store or two.
    #[inline(always)]
    pub(crate) fn put(&mut self, more: &[u8])
        requires { length self.old.text + length more.now ≤ self.old.room }
        ensures { self.new ≡ filled (self.old.text ++ more.now) self.old.room }
    {
        let end = self.len + more.len();
        self.bytes[self.len..end].copy_from_slice(more);
        self.len = end;
    }

    /// Puts a number last, in decimal digits. Takes no memory.
    // Most numbers have one digit.
    #[tactic(auto, using(std::proofs::lemmas::Fmt::decimal_digit))]
    #[inline(always)]
    pub(crate) fn put_decimal(&mut self, n: u64)
        requires { length self.old.text + length (decimal n) ≤ self.old.room }
        ensures { self.new ≡ filled (self.old.text ++ decimal n) self.old.room }
    {
        if n < 10 {
            self.put(&[b'0' + n as u8]);
        } else {
            self.len = put_digits(&mut self.bytes, self.len, n);
        }
    }

    /// How many bytes more there is room for. Takes no memory.
    pub(crate) fn left(&self) -> usize
        ensures { length self.now.text + result ≡ self.now.room }
    {
        self.bytes.len() - self.len
    }

    /// Takes out what was written. Takes no memory.
    pub(crate) fn clear(&mut self)
        ensures { self.new ≡ filled [] self.old.room }
    {
        self.len = 0;
    }

    /// What was written. Takes no memory.
    pub fn bytes(&self) -> &[u8]
        ensures { result.now ≡ self.now.text }
    {
        &self.bytes[..self.len]
    }
}
