//! Runs that stop early: each call of a stream fails in turn, or a stream is full behind each byte in turn.
use crate::running::{Limits, Outcome, Streams, run};
use crate::streams::Written;
use anyhow::Result;
use std::alloc::Global;
use std::sync::Wait;
use std::thread::Threads;

/// What makes a run stop.
#[derive(Clone, Copy)]
pub(crate) enum Stop {
    /// A read fails.
    Read,
    /// A write to standard output fails.
    Write,
    /// A write to standard error fails.
    JournalWrite,
    /// Standard output is full.
    Room,
    /// Standard error is full.
    JournalRoom,
}

/// Runs that stop by this, each further on than the one before, and their status.
#[derive(Clone, Copy)]
pub(crate) struct Stops {
    pub(crate) stop: Stop,
    pub(crate) status: u64,
}

/// How many bytes were written before the write at this place.
fn begin_at(written: &Written, at: usize) -> usize {
    written.begins.get(at).copied().unwrap_or(0)
}

/// The first so many bytes, or all.
fn first_of(bytes: &[u8], count: usize) -> &[u8] {
    &bytes[..count.min(bytes.len())]
}

impl Stops {
    /// How many there are of a run that does not stop.
    fn count(self, whole: &Outcome) -> usize {
        match self.stop {
            Stop::Read => whole.reads as usize,
            Stop::Write => whole.out.begins.len(),
            Stop::JournalWrite => whole.journal.begins.len(),
            Stop::Room => whole.out.bytes.len(),
            Stop::JournalRoom => whole.journal.bytes.len(),
        }
    }

    /// How many bytes of standard output and of standard error are written by the run that stops at this place.
    fn due(self, whole: &Outcome, at: usize) -> (usize, usize) {
        let all = whole.out.bytes.len();
        match self.stop {
            Stop::Read => (0, 0),
            Stop::Write => (begin_at(&whole.out, at), 0),
            Stop::JournalWrite => (all, begin_at(&whole.journal, at)),
            Stop::Room => (at, 0),
            Stop::JournalRoom => (all, at),
        }
    }

    /// Whether the call that fails is the last one of its stream.
    fn ends_its_stream(self, stopped: &Outcome, at: usize) -> bool {
        let calls = match self.stop {
            Stop::Read => stopped.reads as usize,
            Stop::Write => stopped.out.begins.len(),
            Stop::JournalWrite => stopped.journal.begins.len(),
            Stop::Room | Stop::JournalRoom => return true,
        };
        calls == at.wrapping_add(1)
    }

    /// Whether a run that stopped at this place came to what is due there: its status, and just the first bytes of the whole run.
    fn is_due(self, whole: &Outcome, stopped: &Outcome, at: usize) -> bool {
        let (out, journal) = self.due(whole, at);
        stopped.status == self.status
            && stopped.out.bytes.as_slice() == first_of(&whole.out.bytes, out)
            && stopped.journal.bytes.as_slice() == first_of(&whole.journal.bytes, journal)
            && self.ends_its_stream(stopped, at)
    }

    /// The streams of the run that stops at this place, by a call of one of these numbers.
    fn streams<'a>(self, streams: Streams<'a>, at: usize, fails: &'a [u64]) -> Streams<'a> {
        let Streams { out, journal, .. } = streams;
        match self.stop {
            Stop::Read => Streams {
                failing_reads: fails,
                ..streams
            },
            Stop::Write => Streams {
                out: Limits { fails, ..out },
                ..streams
            },
            Stop::JournalWrite => Streams {
                journal: Limits { fails, ..journal },
                ..streams
            },
            Stop::Room => Streams {
                out: Limits { room: at, ..out },
                ..streams
            },
            Stop::JournalRoom => Streams {
                journal: Limits {
                    room: at,
                    ..journal
                },
                ..streams
            },
        }
    }

    /// Tries them with the words of this line: how many there are, and whether each came to what is due there. There is one at least.
    pub(crate) fn try_all<R: Threads + Wait + Sync>(
        self,
        rt: &R,
        alloc: Global,
        streams: Streams<'_>,
        line: &str,
        whole: &Outcome,
    ) -> Result<(u64, bool)> {
        let count = self.count(whole);
        for at in 0..count {
            let fails = [(at as u64).wrapping_add(1)];
            let stopped = run(rt, alloc, self.streams(streams, at, &fails), line)?;
            if !self.is_due(whole, &stopped, at) {
                return Ok((count as u64, false));
            }
        }
        Ok((count as u64, 0 < count))
    }
}
