//! A program that does one operation, and then two others in turn, whatever it is told.
ghost use Rattle.std.specs.Prelude.{◌≡◌, false};
ghost use Rattle.dom_history.specs.Ranges.{IsOp};
ghost use Rattle.timed_work.specs.Repeating.{following};

use dom_history::{Op, Program, Reply, Want};
use std::alloc::Global;
use std::marker::Model;
use uid_names::NoMemory;

/// Which operation it wants now.
#[derive(Clone, Copy)]
enum Turn {
    First,
    Odd,
    Even,
}

fn following(turn: Option<Turn>) -> Turn
    ensures { result ≡ following turn }
{
    match turn {
        None => Turn::First,
        Some(Turn::First | Turn::Even) => Turn::Odd,
        Some(Turn::Odd) => Turn::Even,
    }
}

/// The program. Before it was asked it has no turn, and waits for the first phase.
#[derive(Drop)]
pub struct Repeat {
    first: Op,
    odd: Op,
    even: Op,
    turn: Option<Turn>,
    spent: bool,
}

impl Model for Repeat {
    ghost use Rattle.dom_history.specs.Ranges.{IsOp};
    ghost use Rattle.timed_work.specs.Repeating.{Repeated};

    ghost Value = { Repeated };

    ghost view = { λ r. record { first = r.first; odd = r.odd; even = r.even; turn = r.turn; spent = r.spent } };

    ghost invariant = { λ r. IsOp r.first × (IsOp r.odd × IsOp r.even) };
}

impl Repeat {
    ghost use Rattle.std.specs.Prelude.{◌≡◌, false};
    ghost use Rattle.dom_history.specs.declared.op.Want.TheVariants.{Phase};
    ghost use Rattle.timed_work.specs.Repeating.{op_at, want_of};

    /// Does the first operation, and then the others in turn.
    pub fn new(first: Op, odd: Op, even: Op) -> Repeat
        requires first { IsOp first }
        requires odd { IsOp odd }
        requires even { IsOp even }
        ensures whole { result.spent ≡ false }
        ensures fresh { want_of result ≡ Phase }
    {
        Repeat {
            first,
            odd,
            even,
            turn: None,
            spent: false,
        }
    }

    fn operation(&self, turn: Turn) -> &Op
        ensures value { result.now ≡ op_at turn self.now }
        ensures range { IsOp result.now }
    {
        match turn {
            Turn::First => &self.first,
            Turn::Odd => &self.odd,
            Turn::Even => &self.even,
        }
    }
}

impl Program for Repeat {
    ghost use Rattle.timed_work.specs.Repeating.{want_of, moved};

    ghost wants = { λ r. want_of r };

    ghost becomes = { λ r told. moved r };

    ghost answered = { λ r. 0 };

    ghost spent = { λ r. r.spent };

    fn next(&mut self, alloc: Global, _last: Option<&Reply>) -> Result<Want, NoMemory> {
        // Until the turn is done; where it finds no memory the value stays so.
        self.spent = true;
        let turn = following(self.turn);
        self.turn = Some(turn);
        let op = self.operation(turn).copy(alloc)?;
        self.spent = false;
        Ok(Want::Do(op))
    }

    fn at(&self) -> u32 {
        0
    }
}
