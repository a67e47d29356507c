//! What drives a process.
ghost use Rattle.std.specs.Prelude.{◌≡◌, ℕ, Bool, true, false, Option, IfOk, OnOk, OnErr};
ghost use Rattle.std.specs.Option.{option_copied};
ghost use Rattle.dom_history.specs.declared.op.Reply.{Reply};
ghost use Rattle.dom_history.specs.declared.op.Want.{Want};
ghost use Rattle.dom_history.specs.Ranges.{IsWant};
ghost use Rattle.dom_history.specs.Programs.{FitsWant};

use crate::op::{Reply, Want};
use std::alloc::Global;
use uid_names::NoMemory;

/// A process's program: it is told the last reply, and says what it wants next.
///
/// What it wants, and the value that a call leaves, are functions of the value before and of what it is told. So what
/// it asks once it has heard a list of replies and phases is what its first value wants after all of them
/// (`asked_by`). A value that found no memory is spent: it is not called again.
pub trait Program: Drop {
    /// What it wants now: what its last call answered. Before its first call it wants Phase, since it waits for the
    /// first one to begin.
    ghost wants: { Self → Want };

    /// What it is once it was told this: a reply to its operation, or None where a phase begins.
    ghost becomes: { Self → Option Reply → Self };

    /// How many of its commands have their answer.
    ghost answered: { Self → ℕ };

    /// Whether it found no memory.
    ghost spent: { Self → Bool };

    /// Tells it the last reply, or nothing at the first call and after a phase.
    fn next(&mut self, alloc: Global, last: Option<&Reply>) -> Result<Want, NoMemory>
        requires whole { spent self.old ≡ false }
        requires fits { FitsWant (wants self.old) (option_copied last) }
        ensures after { OnOk result (self.new ≡ becomes self.old (option_copied last.entry)) }
        ensures want { IfOk result (λ want. want ≡ wants (becomes self.old (option_copied last.entry))) }
        ensures range { IfOk result IsWant }
        ensures whole { OnOk result (spent self.new ≡ false) }
        ensures memory { OnErr result (spent self.new ≡ true) };

    /// How many of its commands have their answer. Takes no memory.
    fn at(&self) -> u32
        requires { spent self.now ≡ false }
        ensures { result ≡ answered self.now };
}
