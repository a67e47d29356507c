//! What came of numbers, counted.
ghost use Rattle.std.specs.Prelude.{◌≡◌, ◌+◌, ◌-◌, ◌<◌, ◌≤◌, ◌^◌, Some, OnOk, All};
ghost use Rattle.explored_counts.specs.Seen.{empty_explored, both_missed as both, missed_with, explored_with, joined, joined_all, total_of, totals_of, missed_count};

use crate::came::CameOf;
use run_outcomes::Tally;
use std::alloc::Global;
use uid_names::NoMemory;

/// Numbers that have no answers for one cause: how many, and the lowest.
#[derive(Clone, Copy, Debug, PartialEq, Eq)]
pub struct Missed {
    pub count: u64,
    pub lowest: u64,
}

/// What came of numbers: the outcomes, and the numbers in whose turns a node came to the last tick, and those that found no memory.
#[derive(Drop, Debug)]
pub struct Explored {
    pub tally: Tally,
    pub last_tick: Option<Missed>,
    pub no_memory: Option<Missed>,
}

/// One number more.
fn one_more_missed(so_far: Option<Missed>, number: u64) -> Missed
    requires { missed_count so_far < 2 ^ 64 - 1 }
    ensures { Some result ≡ missed_with number so_far }
{
    match so_far {
        None => Missed {
            count: 1,
            lowest: number,
        },
        Some(missed) => Missed {
            count: missed.count + 1,
            lowest: number.min(missed.lowest),
        },
    }
}

/// Numbers that have no answers for one cause, with more of them.
fn both_missed(so_far: Option<Missed>, more: Option<Missed>) -> Option<Missed>
    requires { missed_count so_far + missed_count more < 2 ^ 64 }
    ensures both { result ≡ both more so_far }
    ensures count { missed_count result ≡ missed_count so_far + missed_count more }
{
    let Some(more) = more else {
        return so_far;
    };
    let Some(missed) = so_far else {
        return Some(more);
    };
    Some(Missed {
        count: missed.count + more.count,
        lowest: more.lowest.min(missed.lowest),
    })
}

impl Explored {
    /// No number was added. Takes no memory.
    pub fn new(alloc: Global) -> Explored
        ensures { result ≡ empty_explored }
    {
        Explored {
            tally: Tally::new(alloc),
            last_tick: None,
            no_memory: None,
        }
    }

    /// Adds what came of a number. Memory is wanted for an outcome that was not met before.
    pub fn add(&mut self, alloc: Global, number: u64, came: &CameOf) -> Result<(), NoMemory>
        requires few { total_of self.old < 2 ^ 64 - 1 }
        ensures added { OnOk result (self.new ≡ explored_with number came.now self.old) }
        ensures total { OnOk result (total_of self.new ≡ total_of self.old + 1) }
    {
        match came {
            CameOf::Answers(outcome) => self.tally.add(alloc, number, outcome.items())?,
            CameOf::LastTick => self.last_tick = Some(one_more_missed(self.last_tick, number)),
            CameOf::NoMemory => self.no_memory = Some(one_more_missed(self.no_memory, number)),
        }
        Ok(())
    }

    /// Adds what came of other numbers, of which all outcomes are kept. Memory is wanted for outcomes that were not met before; without it some of them were
    /// added.
    pub fn join(&mut self, more: Explored) -> Result<(), NoMemory>
        requires few { total_of self.old + total_of more < 2 ^ 64 }
        requires kept { more.tally.rest ≡ 0 }
        ensures added { OnOk result (self.new ≡ joined more self.old) }
        ensures total { OnOk result (total_of self.new ≡ total_of self.old + total_of more) }
    {
        self.tally.add_rows(more.tally)?;
        self.last_tick = both_missed(self.last_tick, more.last_tick);
        self.no_memory = both_missed(self.no_memory, more.no_memory);
        Ok(())
    }

    /// Adds what came of the numbers of several lists, one after another, of each of which all outcomes are kept. Memory is wanted for outcomes that were
    /// not met before; without it some of them were added.
    pub fn join_all(&mut self, parts: Vec<Explored>) -> Result<(), NoMemory>
        requires few { total_of self.old + totals_of parts.items < 2 ^ 64 }
        requires kept { All (λ part. part.tally.rest ≡ 0) parts.items }
        ensures added { OnOk result (self.new ≡ joined_all parts.items self.old) }
    {
        for part in parts {
            self.join(part)?;
        }
        Ok(())
    }
}
