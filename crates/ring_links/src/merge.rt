//! The events of several nodes in one order.
ghost use Rattle.std.specs.Prelude.{◌≡◌, ◌<◌, length, All, IfOk, IfSome, MatchOption, false};
ghost use Rattle.dom_history.specs.Histories.{place_lt};
ghost use Rattle.dom_history.specs.MergedLogs.{next_at};
ghost use Rattle.ring_links.specs.Merged.{AreLogs, AreMerged};
ghost use Rattle.ring_links.specs.Ranks.{is_below, no_event, IsRankOf, AreNext, IsLeast};

use dom_history::{MergedLogs, NodeLog};
use std::alloc::Global;
use uid_names::{NoMemory, Place};

/// Whether a place is below another: by tick, and of one tick by the number of the node. Takes no memory.
pub fn is_before(a: Place, b: Place) -> bool
    ensures { result ≡ place_lt a b }
{
    a.tick < b.tick || (a.tick == b.tick && a.node.number() < b.node.number())
}

/// Where the next event of a log stands among all, in two numbers that are compared as they are: the tick, and the number of the node.
#[derive(Clone, Copy)]
struct Rank {
    tick: u64,
    node: u8,
}

/// Where no event comes next: above each place.
const NO_EVENT: Rank = Rank {
    tick: u64::MAX,
    node: u8::MAX,
};

/// Whether a rank is below another.
#[inline(always)]
fn is_below(a: Rank, b: Rank) -> bool
    ensures { result ≡ is_below a b }
{
    a.tick < b.tick || (a.tick == b.tick && a.node < b.node)
}

/// The rank of the event of the log at `i` that comes next.
fn next_rank(merged: &MergedLogs, i: usize) -> Rank
    requires { i < length merged.now.logs }
    ensures { IsRankOf (next_at merged.now.logs merged.now.came i) result }
{
    match merged.next(i) {
        Some(event) => {
            let Place { tick, node } = event.place();
            Rank {
                tick,
                node: node.number(),
            }
        }
        None => NO_EVENT,
    }
}

/// The rank of each log's next event.
fn next_ranks(alloc: Global, merged: &MergedLogs) -> Result<Vec<Rank>, NoMemory>
    ensures { IfOk result (λ nexts. AreNext merged.now.logs merged.now.came nexts.items) }
{
    let count = merged.logs().len();
    let mut nexts = Vec::with_capacity(alloc, count)?;
    for i in 0..count {
        nexts.push(next_rank(merged, i))?;
    }
    Ok(nexts)
}

/// The log whose next event comes first of all, by the ranks of all next events.
fn first_log(nexts: &[Rank]) -> Option<usize>
    ensures within { IfSome result (λ i. i < length nexts.now) }
    ensures first { MatchOption result (All (λ r. is_below r no_event ≡ false) nexts.now) (IsLeast nexts.now) }
{
    let mut first = None;
    let mut least = NO_EVENT;
    for i in 0..nexts.len() {
        let next = nexts[i];
        if is_below(next, least) {
            first = Some(i);
            least = next;
        }
    }
    first
}

/// All events of these logs by rising place.
pub fn by_place(alloc: Global, logs: Vec<NodeLog>) -> Result<MergedLogs, NoMemory>
    requires { AreLogs logs.items }
    ensures { IfOk result (λ merged. AreMerged logs.items merged.events) }
{
    let mut merged = MergedLogs::new(alloc, logs)?;
    let mut nexts = next_ranks(alloc, &merged)?;
    loop {
        match first_log(nexts.as_slice()) {
            Some(i) => {
                merged.pass(i)?;
                nexts[i] = next_rank(&merged, i);
            }
            None => return Ok(merged),
        }
    }
}
