//! Explores the runs of a script.
ghost use Rattle.std.specs.Prelude.{◌≤◌, IfOk};
ghost use Rattle.explored_runs.specs.Explored.{IsExplored};

use crate::batches::{MOST_THREADS, batch_end, tell};
use crate::numbers::explored_of_numbers;
use dom_io::Sink;
use explored_counts::Explored;
use script_reader::Script;
use std::alloc::Global;
use std::thread::Threads;
use uid_names::NoMemory;

/// What comes of a script in the turns of each number from the first up to the end, which is none of them, on so many threads; after each batch of
/// numbers it is told how many were run, if it is to be. What came of them is the same for any number of threads, but where there is no memory.
pub fn explore<R: Threads, N: Sink>(
    rt: &R,
    alloc: Global,
    script: &Script,
    first: u64,
    end: u64,
    threads: usize,
    mut notes: Option<&mut N>,
) -> Result<Explored, NoMemory>
    requires { first ≤ end }
    ensures { IfOk result (IsExplored script.now first end) }
{
    let mut explored = Explored::new(alloc);
    let mut next = first;
    while next < end {
        let to = batch_end(next, end, threads);
        let parts = explored_of_numbers(rt, alloc, script, next, to, threads.min(MOST_THREADS))?;
        explored.join_all(parts)?;
        next = to;
        if let Some(notes) = &mut notes {
            tell(alloc, *notes, next - first, end - first);
        }
    }
    Ok(explored)
}
