//! Which outcomes the numbers gave, and how many numbers gave each.
ghost use Rattle.std.specs.Prelude.{◌≡◌, ◌↔◌, ◌+◌, ◌-◌, ◌<◌, ◌≤◌, ◌^◌, ℕ, [], IsTrue, IsNone, IfSome, OnOk, OnErr, IfOk, Contains, All, length, nat_lt, false};
ghost use Rattle.std.specs.List.{position};
ghost use Rattle.run_outcomes.specs.Outcomes.{same_outcome};
ghost use Rattle.run_outcomes.specs.Tallies.{empty_tally, fresh_row, noted, tallied, tallied_by, with_more, row_tallied, row_tallied_by, rows_tallied, is_commoner, IsCommonest};

use crate::outcome::{Outcome, OutcomeRow, copy_outcome, is_same_outcome};
use std::alloc::Global;
use std::marker::Model;
use uid_names::NoMemory;

/// So many distinct outcomes are kept; those of the numbers behind them are only counted.
pub const KEPT_OUTCOMES: usize = 1_000;

/// An outcome, how many numbers gave it, and the lowest of them.
#[derive(Drop, Debug)]
pub struct KeptOutcome {
    pub outcome: Outcome,
    pub count: u64,
    pub lowest: u64,
}

/// The outcomes that were met, in the order in which they were first met, and how many numbers gave one that is not kept.
#[derive(Drop, Debug)]
pub struct Tally {
    rows: Vec<KeptOutcome>,
    rest: u64,
    added: u64,
}

impl Model for Tally {
    ghost use Rattle.std.specs.Prelude.{◌≡◌, ◌+◌};
    ghost use Rattle.run_outcomes.specs.Tallies.{Tallied, counts_of};

    ghost Value = { Tallied };

    ghost view = { λ t. record { rows = t.rows.items; rest = t.rest; added = t.added } };

    ghost invariant = { λ t. counts_of t.rows.items + t.rest ≡ t.added };
}

/// Where the row of an outcome stands.
fn place_of(rows: &[KeptOutcome], outcome: &[OutcomeRow]) -> Option<usize>
    ensures { result ≡ position (λ k. same_outcome k.outcome outcome.now) rows.now }
{
    rows.iter()
        .position(|row| is_same_outcome(row.outcome.items(), outcome))
}

/// The row of an outcome that one number gave.
fn first_row(alloc: Global, number: u64, outcome: &[OutcomeRow]) -> Result<KeptOutcome, NoMemory>
    ensures { IfOk result (λ row. row ≡ fresh_row number outcome.now) }
{
    Ok(KeptOutcome {
        outcome: copy_outcome(alloc, outcome)?,
        count: 1,
        lowest: number,
    })
}

/// Notes that one number more gave the outcome of a row.
fn note(row: &mut KeptOutcome, number: u64)
    requires few { row.old.count < 2 ^ 64 - 1 }
    ensures { row.new ≡ noted number row.old }
{
    row.count += 1;
    row.lowest = number.min(row.lowest);
}

/// Notes that the numbers of another row gave the outcome of a row.
fn note_row(row: &mut KeptOutcome, more: &KeptOutcome)
    requires few { row.old.count + more.now.count < 2 ^ 64 }
    ensures { row.new ≡ with_more more.now row.old }
{
    row.count += more.count;
    row.lowest = more.lowest.min(row.lowest);
}

impl Tally {
    /// No number was added. Takes no memory.
    pub fn new(alloc: Global) -> Tally
        ensures { result ≡ empty_tally }
    {
        Tally {
            rows: Vec::new(alloc),
            rest: 0,
            added: 0,
        }
    }

    /// Adds that a number gave an outcome. Memory is wanted only for an outcome that was not met before; without it the tally stays as it was.
    pub fn add(
        &mut self,
        alloc: Global,
        number: u64,
        outcome: &[OutcomeRow],
    ) -> Result<(), NoMemory>
        requires few { self.old.added < 2 ^ 64 - 1 }
        ensures ok { OnOk result (self.new ≡ tallied number outcome.now self.old) }
        ensures err { OnErr result (self.new ≡ self.old) }
    {
        let Some(at) = place_of(&self.rows, outcome) else {
            return self.add_other(alloc, number, outcome);
        };
        note(&mut self.rows[at], number);
        self.added += 1;
        Ok(())
    }

    /// Adds that a number gave an outcome that is not kept.
    fn add_other(
        &mut self,
        alloc: Global,
        number: u64,
        outcome: &[OutcomeRow],
    ) -> Result<(), NoMemory>
        requires few { self.old.added < 2 ^ 64 - 1 }
        ensures ok { OnOk result (self.new ≡ tallied_by false (nat_lt (length self.old.rows) KEPT_OUTCOMES) number outcome.now self.old) }
        ensures err { OnErr result (self.new ≡ self.old) }
    {
        if self.rows.len() < KEPT_OUTCOMES {
            self.rows.push(first_row(alloc, number, outcome)?)?;
            self.added += 1;
            return Ok(());
        }
        self.rest += 1;
        self.added += 1;
        Ok(())
    }

    /// Adds the numbers of a row of another tally. Memory is wanted only for an outcome that was not met before; without it the tally stays as it was.
    fn add_row(&mut self, more: KeptOutcome) -> Result<(), NoMemory>
        requires few { self.old.added + more.count < 2 ^ 64 }
        ensures ok { OnOk result (self.new ≡ row_tallied more self.old) }
        ensures err { OnErr result (self.new ≡ self.old) }
    {
        let Some(at) = place_of(&self.rows, more.outcome.items()) else {
            return self.add_other_row(more);
        };
        self.added += more.count;
        note_row(&mut self.rows[at], &more);
        Ok(())
    }

    /// Adds the numbers of a row whose outcome is not kept.
    fn add_other_row(&mut self, more: KeptOutcome) -> Result<(), NoMemory>
        requires few { self.old.added + more.count < 2 ^ 64 }
        ensures ok { OnOk result (self.new ≡ row_tallied_by false (nat_lt (length self.old.rows) KEPT_OUTCOMES) more self.old) }
        ensures err { OnErr result (self.new ≡ self.old) }
    {
        let count = more.count;
        if self.rows.len() < KEPT_OUTCOMES {
            self.rows.push(more)?;
        } else {
            self.rest += count;
        }
        self.added += count;
        Ok(())
    }

    /// Adds all rows of another tally, in order. Memory is wanted for outcomes that were not met before; without it some of the rows were added.
    pub fn add_rows(&mut self, other: Tally) -> Result<(), NoMemory>
        requires few { self.old.added + other.added < 2 ^ 64 }
        ensures added { OnOk result (self.new ≡ rows_tallied other.rows self.old) }
        ensures total { OnOk result (self.new.added + other.rest ≡ self.old.added + other.added) }
    {
        for row in other.rows {
            self.add_row(row)?;
        }
        Ok(())
    }

    /// The outcomes that are kept, in the order in which they were first met: at most 1,000, each once.
    pub fn rows(&self) -> &[KeptOutcome]
        ensures { result.now ≡ self.now.rows }
    {
        self.rows.as_slice()
    }

    /// How many numbers gave an outcome that is not kept.
    pub fn rest(&self) -> u64
        ensures { result ≡ self.now.rest }
    {
        self.rest
    }

    /// How many numbers were added.
    pub fn added(&self) -> u64
        ensures { result ≡ self.now.added }
    {
        self.added
    }
}

/// Whether more numbers gave an outcome than another, or as many and a lower one.
fn is_commoner(row: &KeptOutcome, other: &KeptOutcome) -> bool
    ensures { result ≡ is_commoner row.now other.now }
{
    row.count > other.count || (row.count == other.count && row.lowest < other.lowest)
}

/// Where the row of the outcome stands that most numbers gave; of those that as many gave, the one that the lowest number gave. None where
/// there is no row.
pub fn commonest(rows: &[KeptOutcome]) -> Option<usize>
    ensures none { IsNone result ↔ (rows.now ≡ []) }
    ensures commonest { IfSome result (IsCommonest rows.now) }
{
    if rows.is_empty() {
        return None;
    }
    let mut best = 0;
    for i in 1..rows.len() {
        if is_commoner(&rows[i], &rows[best]) {
            best = i;
        }
    }
    Some(best)
}
