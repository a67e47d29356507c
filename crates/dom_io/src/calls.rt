//! The calls of a source or a sink in memory: which of them fail, and how many were made and failed.
ghost use Rattle.std.specs.Prelude.{◌≡◌, ◌≤◌, IfOk};
ghost use Rattle.dom_io.specs.Counts.{last_count};
ghost use Rattle.dom_io.specs.Calls.{fresh_schedule, next_fails, counted};

use std::alloc::Global;
use std::marker::Model;
use uid_names::NoMemory;

/// Which calls fail, how many were made, and how many failed. Both counts stop at their last value.
#[derive(Drop, Debug)]
pub(crate) struct Calls {
    fails: Vec<u64>,
    made: u64,
    faults: u64,
}

impl Model for Calls {
    ghost use Rattle.std.specs.Prelude.{◌≤◌};
    ghost use Rattle.dom_io.specs.Counts.{last_count};
    ghost use Rattle.dom_io.specs.Calls.{Schedule};

    ghost Value = { Schedule };

    ghost view = { λ c. record { fails = c.fails.items; made = c.made; faults = c.faults } };

    ghost invariant = { λ c. c.faults ≤ last_count };
}

impl Calls {
    /// No call was made yet, and these will fail, counted from 1.
    pub(crate) fn new(alloc: Global, fails: &[u64]) -> Result<Calls, NoMemory>
        ensures { IfOk result (λ calls. calls ≡ fresh_schedule fails.now) }
    {
        let fails = Vec::from_slice(alloc, fails)?;
        Ok(Calls {
            fails,
            made: 0,
            faults: 0,
        })
    }

    /// Whether the next call is one that fails.
    pub(crate) fn next_fails(&self) -> bool
        ensures { result ≡ next_fails self.now }
    {
        let number = u128::from(self.made) + 1;
        self.fails.iter().any(|fail| u128::from(*fail) == number)
    }

    /// Counts a call, and a fault where it failed.
    pub(crate) fn count(&mut self, failed: bool)
        ensures counts { self.new ≡ counted failed self.old }
        ensures never_falls { self.old.faults ≤ self.new.faults }
        ensures bounded { self.new.faults ≤ last_count }
    {
        self.made = self.made.saturating_add(1);
        if failed {
            self.faults = self.faults.saturating_add(1);
        }
    }
}
