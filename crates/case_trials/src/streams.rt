//! The streams of a run: a reader and writers that take few bytes at a time, fail at listed calls, are full, or never end.
use std::alloc::Global;
use std::io;
use std::io::{Read, Write};

/// How the calls of a stream go: the most bytes of one, the numbers of those that fail, counted from 1, and whether these are
/// interrupted or broken off.
#[derive(Clone, Copy)]
pub(crate) struct Calls<'a> {
    pub(crate) step: usize,
    pub(crate) fails: &'a [u64],
    pub(crate) interrupted: bool,
}

impl Calls<'_> {
    /// Fails where the call of this number is to fail.
    fn go(&self, number: u64) -> io::Result<()> {
        if !self.fails.contains(&number) {
            return Ok(());
        }
        let kind = if self.interrupted {
            io::ErrorKind::Interrupted
        } else {
            io::ErrorKind::BrokenPipe
        };
        Err(io::Error::from(kind))
    }
}

/// The bytes of a script as they are read; where they have no end they come again and again.
#[derive(Drop)]
pub(crate) struct Feed<'a> {
    script: &'a [u8],
    left: &'a [u8],
    endless: bool,
    calls: Calls<'a>,
    reads: u64,
    taken: u64,
}

impl<'a> Feed<'a> {
    /// Nothing was read.
    pub(crate) fn new(script: &'a [u8], endless: bool, calls: Calls<'a>) -> Feed<'a> {
        Feed {
            script,
            left: script,
            endless,
            calls,
            reads: 0,
            taken: 0,
        }
    }

    /// How many reads there were, and how many bytes they took.
    pub(crate) fn counts(&self) -> (u64, u64) {
        (self.reads, self.taken)
    }
}

impl Read for Feed<'_> {
    fn read(&mut self, buf: &mut [u8]) -> io::Result<usize> {
        self.reads = self.reads.saturating_add(1);
        self.calls.go(self.reads)?;
        if self.left.is_empty() && self.endless {
            self.left = self.script;
        }
        let left = self.left;
        let count = buf.len().min(left.len()).min(self.calls.step);
        buf[..count].copy_from_slice(&left[..count]);
        self.left = &left[count..];
        self.taken = self.taken.saturating_add(count as u64);
        Ok(count)
    }
}

/// What was written to a stream, and how many bytes were there at each write.
#[derive(Drop)]
pub(crate) struct Written {
    pub(crate) bytes: Vec<u8>,
    pub(crate) begins: Vec<usize>,
}

/// A stream that is written to, and has room for so many bytes.
#[derive(Drop)]
pub(crate) struct Tray<'a> {
    written: Written,
    room: usize,
    calls: Calls<'a>,
}

impl<'a> Tray<'a> {
    /// Nothing was written.
    pub(crate) fn new(alloc: Global, room: usize, calls: Calls<'a>) -> Tray<'a> {
        Tray {
            written: Written {
                bytes: Vec::new(alloc),
                begins: Vec::new(alloc),
            },
            room,
            calls,
        }
    }

    /// What was written.
    pub(crate) fn into_written(self) -> Written {
        self.written
    }
}

impl Write for Tray<'_> {
    fn write(&mut self, buf: &[u8]) -> io::Result<usize> {
        let begin = self.written.bytes.len();
        self.written.begins.push(begin)?;
        self.calls.go(self.written.begins.len() as u64)?;
        let free = self.room.saturating_sub(begin);
        let count = buf.len().min(self.calls.step).min(free);
        self.written.bytes.extend_from_slice(&buf[..count])?;
        Ok(count)
    }

    fn flush(&mut self) -> io::Result<()> {
        Ok(())
    }
}
