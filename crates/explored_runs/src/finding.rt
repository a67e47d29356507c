//! Finds a number of turns.
ghost use Rattle.std.specs.Prelude.{◌≤◌, IfOk};
ghost use Rattle.explored_runs.specs.Sought.{IsFound};

use crate::batches::{MOST_THREADS, batch_end, tell};
use crate::numbers::{Found, found_of_numbers};
use dom_io::Sink;
use script_reader::Script;
use script_runner::names::names_of;
use std::alloc::Global;
use std::thread::Threads;
use uid_names::{ByteList, NoMemory};

/// The lowest number from the first up to the end, which is none of them, in whose turns the script has a journal that has a line with these words in
/// order, and the first such line; None where there is none. The numbers are run on so many threads; after each batch of them it is told how many were,
/// if it is to be.
pub fn find<R: Threads, N: Sink>(
    rt: &R,
    alloc: Global,
    script: &Script,
    words: &[ByteList],
    first: u64,
    end: u64,
    threads: usize,
    mut notes: Option<&mut N>,
) -> Result<Option<Found>, NoMemory>
    requires { first ≤ end }
    ensures { IfOk result (IsFound script.now words.now first end) }
{
    let names = names_of(alloc, script.nodes())?;
    let threads = threads.min(MOST_THREADS);
    let mut next = first;
    while next < end {
        let to = batch_end(next, end, threads);
        let sought = found_of_numbers(rt, alloc, script, &names, words, next, to, threads)?;
        if let Some(found) = sought {
            return Ok(Some(found));
        }
        next = to;
        if let Some(notes) = &mut notes {
            tell(alloc, *notes, next - first, end - first);
        }
    }
    Ok(None)
}
