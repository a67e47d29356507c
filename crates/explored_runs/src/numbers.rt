//! What came of many numbers, counted, and the lowest of them whose journal has a line with some words, on several threads.
ghost use Rattle.std.specs.Prelude.{◌≡◌, ◌≤◌, ◌<◌, IfOk};
ghost use Rattle.script_runs.specs.Reports.{names_of as names_in};
ghost use Rattle.explored_runs.specs.Explored.{AreParts, IsExplored};
ghost use Rattle.explored_runs.specs.Sought.{IsFound};

use crate::came::came_of;
use crate::journals::line_of;
use dom_history::NodeNames;
use explored_counts::Explored;
use run_outcomes::KEPT_OUTCOMES;
use script_reader::Script;
use std::alloc::Global;
use std::thread::{Threads, join};
use uid_names::{ByteList, NoMemory};

/// What came of so many numbers is counted at a time, so that each of their outcomes is kept.
const PART: u64 = KEPT_OUTCOMES as u64;

/// What came of the numbers from one up to another, which is none of them, counted.
fn explored_part(alloc: Global, script: &Script, from: u64, to: u64) -> Result<Explored, NoMemory>
    requires order { from ≤ to }
    ensures { IfOk result (IsExplored script.now from to) }
{
    let mut explored = Explored::new(alloc);
    for number in from..to {
        explored.add(alloc, number, &came_of(alloc, script, number))?;
    }
    Ok(explored)
}

/// What came of the numbers from one up to another, which is none of them, counted one after the other in this thread: in parts
/// so short that each of their outcomes is kept.
fn explored_in_turn(
    alloc: Global,
    script: &Script,
    from: u64,
    to: u64,
) -> Result<Vec<Explored>, NoMemory>
    requires { from ≤ to }
    ensures { IfOk result (λ parts. AreParts script.now from to parts.items) }
{
    let mut parts = Vec::new(alloc);
    let mut next = from;
    while next < to {
        let end = next + PART.min(to - next);
        parts.push(explored_part(alloc, script, next, end)?)?;
        next = end;
    }
    Ok(parts)
}

/// What came of the numbers from one up to another, which is none of them, counted in parts, in their order. They are run on as many threads as are
/// asked for, of which each has as many of them, and counts what comes of its own.
pub fn explored_of_numbers<R: Threads>(
    rt: &R,
    alloc: Global,
    script: &Script,
    from: u64,
    to: u64,
    threads: usize,
) -> Result<Vec<Explored>, NoMemory>
    requires { from ≤ to }
    ensures { IfOk result (λ parts. AreParts script.now from to parts.items) }
{
    if threads <= 1 {
        return explored_in_turn(alloc, script, from, to);
    }
    let middle = from + (to - from) / threads as u64;
    let (first, second) = join(
        rt,
        || -> Result<Vec<Explored>, NoMemory>
            requires { from ≤ middle }
            ensures { IfOk result (λ parts. AreParts script.entry.now from middle parts.items) }
        { explored_in_turn(alloc, script, from, middle) },
        || -> Result<Vec<Explored>, NoMemory>
            requires { (middle ≤ to) × (1 < threads) }
            ensures { IfOk result (λ parts. AreParts script.entry.now middle to parts.items) }
        { explored_of_numbers(rt, alloc, script, middle, to, threads - 1) },
    );
    let mut parts = first?;
    let mut rest = second?;
    parts.append(&mut rest)?;
    Ok(parts)
}

/// A number of turns, and the first line of its journal that has the words.
#[derive(Drop, Debug)]
pub struct Found {
    pub number: u64,
    pub line: ByteList,
}

/// The lowest of the numbers from one up to another, which is none of them, whose journal has a line with these words; they are run one after
/// another.
#[tactic(auto, using(crate::proofs::Halves::found_now))]
fn found_in_turn(
    alloc: Global,
    script: &Script,
    names: &NodeNames,
    words: &[ByteList],
    from: u64,
    to: u64,
) -> Result<Option<Found>, NoMemory>
    requires names { names.now ≡ names_in script.now }
    requires order { from ≤ to }
    ensures { IfOk result (IsFound script.now words.now from to) }
{
    for number in from..to {
        let sought = line_of(alloc, script, names, words, number)?;
        if let Some(line) = sought {
            return Ok(Some(Found { number, line }));
        }
    }
    Ok(None)
}

/// The lowest of the numbers from one up to another, which is none of them, whose journal has a line with these words. They are run on as many threads
/// as are asked for, of which each has as many of them.
pub(crate) fn found_of_numbers<R: Threads>(
    rt: &R,
    alloc: Global,
    script: &Script,
    names: &NodeNames,
    words: &[ByteList],
    from: u64,
    to: u64,
    threads: usize,
) -> Result<Option<Found>, NoMemory>
    requires names { names.now ≡ names_in script.now }
    requires order { from ≤ to }
    ensures { IfOk result (IsFound script.now words.now from to) }
{
    if threads <= 1 {
        return found_in_turn(alloc, script, names, words, from, to);
    }
    let middle = from + (to - from) / threads as u64;
    let (first, second) = join(
        rt,
        || -> Result<Option<Found>, NoMemory>
            requires { (names.now ≡ names_in script.now) × (from ≤ middle) }
            ensures { IfOk result (IsFound script.entry.now words.entry.now from middle) }
        { found_in_turn(alloc, script, names, words, from, middle) },
        || -> Result<Option<Found>, NoMemory>
            requires { (names.now ≡ names_in script.now) × (middle ≤ to) × (1 < threads) }
            ensures { IfOk result (IsFound script.entry.now words.entry.now middle to) }
        { found_of_numbers(rt, alloc, script, names, words, middle, to, threads - 1) },
    );
    let first = first?;
    let second = second?;
    Ok(first.or(second))
}
