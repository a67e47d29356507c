//! The last answer to each process.
ghost use Rattle.std.specs.Prelude.{◌≡◌, ◌<◌, [], IfOk};
ghost use Rattle.std.specs.Option.{option_copied};
ghost use Rattle.call_once.specs.Calls.{call_of, last_of, body_of, looked, with_call, AreByProcess};
ghost use Rattle.call_once.specs.Slots.{proc_at, call_in};

use std::alloc::Global;
use std::marker::Model;
use uid_names::{NoMemory, PROCESSES, ProcId};

/// How the number of a call stands to the last one that was answered.
#[derive(Clone, Copy, Debug, PartialEq, Eq)]
pub enum Looked {
    /// It is greater: the call is to be decided.
    Fresh,
    /// It is the same: the answer that was kept is to be given again.
    Again,
    /// It is smaller: nobody waits for an answer any more.
    Old,
}

/// A call that was answered: its number, and the body of the answer.
#[derive(Drop, Debug)]
struct Kept<B> {
    number: u64,
    body: B,
}

/// The last call of each process that was answered, with its answer.
#[derive(Drop, Debug)]
pub struct Served<B> {
    slots: Vec<Option<Kept<B>>>,
}

impl<B> Model for Served<B> {
    ghost use Rattle.std.specs.Prelude.{◌≡◌, List, length};
    ghost use Rattle.call_once.specs.Calls.{Call};

    ghost Value = { List (Call B) };

    ghost use Rattle.uid_names.specs.declared.limits.TheConstants.{PROCESSES};
    ghost use Rattle.call_once.specs.Slots.{calls_in};

    ghost view = { λ s. calls_in 0 s.slots.items };

    ghost invariant = { λ s. length s.slots.items ≡ PROCESSES };
}

/// The place of a process, at which that one stands.
fn place_of(proc: ProcId) -> usize
    ensures place { proc_at result ≡ proc }
    ensures bound { result < PROCESSES }
{
    // Their ranges.
    let _node = proc.node().number();
    let _number = proc.number();
    proc.place()
}

impl<B: Drop> Served<B> {
    /// No call was answered yet. Makes room for an answer to each process.
    pub fn new(alloc: Global) -> Result<Served<B>, NoMemory>
        ensures { IfOk result (λ served. served ≡ []) }
    {
        let mut slots = Vec::with_capacity(alloc, PROCESSES)?;
        for _place in 0..PROCESSES {
            slots.push(None)?;
        }
        Ok(Served { slots })
    }

    /// How a number stands to the process's last one, which is 0 at first. Takes no memory.
    pub fn look(&self, proc: ProcId, number: u64) -> Looked
        ensures { result ≡ looked number (last_of proc self.now) }
    {
        let last = self.last(proc);
        if number > last {
            Looked::Fresh
        } else if number == last {
            Looked::Again
        } else {
            Looked::Old
        }
    }

    /// The number of the process's last call.
    fn last(&self, proc: ProcId) -> u64
        ensures { result ≡ last_of proc self.now }
    {
        self.call(proc).map_or(0, |call| call.number)
    }

    /// The process's last call.
    fn call(&self, proc: ProcId) -> Option<&Kept<B>>
        ensures { call_of proc self.now ≡ call_in proc (option_copied result) }
    {
        self.slots[place_of(proc)].as_ref()
    }

    /// Makes this the process's last call, and drops the answer that was kept before. Takes no memory.
    pub fn keep(&mut self, proc: ProcId, number: u64, body: B)
        ensures kept { self.new ≡ with_call (record { proc = proc; number = number; body = body }) self.old }
        ensures by_process { AreByProcess self.old }
    {
        self.slots[place_of(proc)] = Some(Kept { number, body });
    }

    /// The answer to the process's last call; None where none was kept. Takes no memory.
    pub fn kept(&self, proc: ProcId) -> Option<&B>
        ensures { option_copied result ≡ body_of proc self.now }
    {
        self.call(proc).map(|call| &call.body)
    }
}
