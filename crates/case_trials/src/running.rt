//! A run of `domain` over streams that go as a case says.
use crate::streams::{Calls, Feed, Tray, Written};
use anyhow::Result;
use dom_io::{RealSink, RealSource};
use script_runner::{OpenGate, run_domain};
use std::alloc::Global;
use std::sync::Wait;
use std::thread::Threads;

/// What a stream that is written to takes: so many bytes, and no call of these numbers.
#[derive(Clone, Copy)]
pub(crate) struct Limits<'a> {
    pub(crate) room: usize,
    pub(crate) fails: &'a [u64],
}

/// The streams of a run. A call takes at most `step` bytes, and calls that fail are interrupted or broken off.
#[derive(Clone, Copy)]
pub(crate) struct Streams<'a> {
    pub(crate) script: &'a [u8],
    pub(crate) endless: bool,
    pub(crate) step: usize,
    pub(crate) interrupted: bool,
    pub(crate) failing_reads: &'a [u64],
    pub(crate) out: Limits<'a>,
    pub(crate) journal: Limits<'a>,
}

impl<'a> Streams<'a> {
    /// How the calls of one of them go, of which these fail.
    fn calls(self, fails: &'a [u64]) -> Calls<'a> {
        Calls {
            step: self.step,
            fails,
            interrupted: self.interrupted,
        }
    }

    /// One that is written to.
    fn tray(self, alloc: Global, limits: Limits<'a>) -> Tray<'a> {
        Tray::new(alloc, limits.room, self.calls(limits.fails))
    }
}

/// What a run came to: its status, how often and how much of the script was read, and what was written.
#[derive(Drop)]
pub(crate) struct Outcome {
    pub(crate) status: u64,
    pub(crate) reads: u64,
    pub(crate) taken: u64,
    pub(crate) out: Written,
    pub(crate) journal: Written,
}

/// The words of a line of words.
fn words_of(alloc: Global, line: &str) -> Result<Vec<String>> {
    let mut words = Vec::new(alloc);
    if line.is_empty() {
        return Ok(words);
    }
    for word in line.split(' ') {
        let word = if word == "\"\"" { "" } else { word };
        words.push(String::from_str(alloc, word)?)?;
    }
    Ok(words)
}

/// The status with which `domain` ends over these streams.
fn status_of<R: Threads + Wait + Sync>(
    rt: &R,
    alloc: Global,
    words: &[String],
    feed: &mut Feed<'_>,
    out: &mut Tray<'_>,
    journal: &mut Tray<'_>,
) -> u8 {
    let mut source = RealSource::new(feed);
    let mut sink = RealSink::new(out);
    let mut lines = RealSink::new(journal);
    run_domain(
        rt,
        alloc,
        words,
        &mut source,
        &mut sink,
        &mut lines,
        &OpenGate,
    )
}

/// Runs `domain` with the words of this line.
pub(crate) fn run<R: Threads + Wait + Sync>(
    rt: &R,
    alloc: Global,
    streams: Streams<'_>,
    line: &str,
) -> Result<Outcome> {
    let words = words_of(alloc, line)?;
    let calls = streams.calls(streams.failing_reads);
    let mut feed = Feed::new(streams.script, streams.endless, calls);
    let mut out = streams.tray(alloc, streams.out);
    let mut journal = streams.tray(alloc, streams.journal);
    let status = status_of(
        rt,
        alloc,
        words.as_slice(),
        &mut feed,
        &mut out,
        &mut journal,
    );
    let (reads, taken) = feed.counts();
    Ok(Outcome {
        status: u64::from(status),
        reads,
        taken,
        out: out.into_written(),
        journal: journal.into_written(),
    })
}
