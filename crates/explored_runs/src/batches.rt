//! Numbers are run in batches, after each of which it may be told how far they are.
ghost use Rattle.std.specs.Prelude.{◌<◌, ◌≤◌};

use dom_io::{Sink, write_all};
use dom_text::put_decimal;
use std::alloc::Global;
use uid_names::{ByteList, NoMemory};

/// So many numbers a thread are run before it is told how far it came. Threads wait for one another behind each batch.
const BATCH: u64 = 512;

/// No more threads are started at a time than this.
pub(crate) const MOST_THREADS: usize = 1_024;

/// How many numbers of all were run, in words.
fn progress_text(alloc: Global, done: u64, all: u64) -> Result<ByteList, NoMemory> {
    let mut text = ByteList::from_slice(alloc, b"run ")?;
    put_decimal(&mut text, done)?;
    text.extend(b" of ")?;
    put_decimal(&mut text, all)?;
    text.extend(b"\n")?;
    Ok(text)
}

/// Tells how many numbers of all were run. That is no part of what came of them, and is left out where there is no memory or a write fails.
pub(crate) fn tell<N: Sink>(alloc: Global, notes: &mut N, done: u64, all: u64) {
    if let Ok(text) = progress_text(alloc, done, all) {
        let _told = write_all(notes, text.bytes());
    }
}

/// Where the numbers of a batch end that begins here.
pub(crate) fn batch_end(next: u64, end: u64, threads: usize) -> u64
    requires left { next < end }
    ensures onward { next < result }
    ensures within { result ≤ end }
{
    let width = BATCH * threads.clamp(1, MOST_THREADS) as u64;
    next + width.min(end - next)
}
