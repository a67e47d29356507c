//! A program that goes round a list, whatever it is told.
ghost use Rattle.std.specs.Prelude.{◌≡◌, IfOk};
ghost use Rattle.dom_history.specs.Ranges.{IsWant};

use dom_history::{Op, Program, Reply, Want};
use std::alloc::Global;
use std::marker::Model;
use uid_names::NoMemory;

/// A copy of what a program wants.
fn copy_of(alloc: Global, want: &Want) -> Result<Want, NoMemory>
    ensures { IfOk result (λ copy. copy ≡ want.now) }
{
    Ok(match want {
        Want::Do(op) => Want::Do(op.copy(alloc)?),
        Want::Phase => Want::Phase,
        Want::Done => Want::Done,
    })
}

/// What stands in a list, which is something.
#[derive(Drop)]
pub struct WantList {
    wants: Vec<Want>,
}

impl Model for WantList {
    ghost use Rattle.std.specs.Prelude.{◌<◌, List, All, length};
    ghost use Rattle.dom_history.specs.declared.op.Want.{Want};
    ghost use Rattle.dom_history.specs.Ranges.{IsWant};

    ghost Value = { List Want };

    ghost view = { λ l. l.wants.items };

    ghost invariant = { λ l. (0 < length l.wants.items) × All IsWant l.wants.items };
}

impl WantList {
    ghost use Rattle.dom_history.specs.Ranges.{IsOp};

    /// A list of one.
    pub fn new(alloc: Global, first: Want) -> Result<WantList, NoMemory>
        requires { IsWant first }
    {
        let wants = vec![in alloc; first]?;
        Ok(WantList { wants })
    }

    /// Puts an operation last.
    pub fn add(&mut self, op: Op) -> Result<(), NoMemory>
        requires { IsOp op }
    {
        self.put(Want::Do(op))
    }

    /// Puts the next phase last.
    pub fn add_phase(&mut self) -> Result<(), NoMemory> {
        self.put(Want::Phase)
    }

    fn put(&mut self, want: Want) -> Result<(), NoMemory>
        requires { IsWant want }
    {
        self.wants.push(want)?;
        Ok(())
    }
}

/// The program. Before it was asked it waits for the first phase; then it wants what stands in the list, and after the
/// last the first again, so often as its count says, and then it is done.
#[derive(Drop)]
pub struct Rounds {
    wants: Vec<Want>,
    count: u32,
    asked: usize,
    spent: bool,
}

impl Model for Rounds {
    ghost use Rattle.std.specs.Prelude.{◌<◌, All, length};
    ghost use Rattle.dom_history.specs.Ranges.{IsWant};
    ghost use Rattle.timed_work.specs.Rounds.{Round};

    ghost Value = { Round };

    ghost view = { λ r. record { wants = r.wants.items; count = r.count; asked = r.asked; spent = r.spent } };

    ghost invariant = { λ r. (0 < length r.wants.items) × All IsWant r.wants.items };
}

impl Rounds {
    ghost use Rattle.std.specs.Prelude.{◌+◌};
    ghost use Rattle.timed_work.specs.Rounds.{IsReady, want_in};

    /// Wants what stands in a list, `count` times as a whole.
    pub fn new(list: WantList, count: u32) -> Rounds
        ensures { IsReady result }
    {
        Rounds {
            wants: list.wants,
            count,
            asked: 0,
            spent: false,
        }
    }

    /// What it wants when it is asked once more.
    fn want(&self, alloc: Global) -> Result<Want, NoMemory>
        ensures value { IfOk result (λ want. want ≡ want_in self.now.wants self.now.count (self.now.asked + 1)) }
        ensures range { IfOk result IsWant }
    {
        if self.asked < self.count as usize {
            copy_of(alloc, &self.wants[self.asked % self.wants.len()])
        } else {
            Ok(Want::Done)
        }
    }
}

impl Program for Rounds {
    ghost use Rattle.timed_work.specs.Rounds.{round_wants, round_after};

    ghost wants = { λ r. round_wants r };

    ghost becomes = { λ r told. round_after r told };

    ghost answered = { λ r. 0 };

    ghost spent = { λ r. r.spent };

    fn next(&mut self, alloc: Global, _last: Option<&Reply>) -> Result<Want, NoMemory> {
        // Until the turn is done; where it finds no memory the value stays so.
        self.spent = true;
        let want = self.want(alloc)?;
        self.asked += 1;
        self.spent = false;
        Ok(want)
    }

    fn at(&self) -> u32 {
        0
    }
}
