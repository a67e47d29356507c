//! A program that counts up a number which stands in an object.
ghost use Rattle.std.specs.Prelude.{◌≡◌, IfOk, length};
ghost use Rattle.std.specs.Int.{w64, from_le_bytes};
ghost use Rattle.std.specs.Option.{option_copied};
ghost use Rattle.dom_history.specs.Ranges.{IsWant};
ghost use Rattle.dom_history.specs.Programs.{FitsWant};
ghost use Rattle.count_up.specs.Counters.{HasEightBytes, first_counter, want_of, is_fine, after_lock, number_in, loaded, after_unlock, counter_after, seen_by};

use dom_history::{Op, Program, Reply, Spot, Want};
use std::alloc::Global;
use uid_names::{ByteList, Mode, NoMemory, Uid};

/// What it waits for: a phase to begin, or the answer to what it asked; or its end.
#[derive(Clone, Copy, Debug, PartialEq, Eq)]
pub enum Step {
    Waits,
    Locks,
    Loads,
    Stores,
    Unlocks,
    Ends,
    /// It was answered what it does not expect, and asks no more.
    Fails,
}

/// Adds one to the number so many times, each time under a lock of its own, which it asks for again where it is refused. In the phase behind
/// these rounds it loads the number once more.
#[derive(Drop)]
pub struct Counter {
    uid: Uid,
    rounds: u32,
    left: u32,
    /// What it loaded or stored last.
    number: u64,
    step: Step,
    spent: bool,
}

/// The number of these eight bytes.
fn number_of(bytes: &[u8]) -> u64
    requires { length bytes.now ≡ 8 }
    ensures { result ≡ from_le_bytes w64 bytes.now }
{
    let mut word = [0; 8];
    word.copy_from_slice(bytes);
    u64::from_le_bytes(word)
}

/// What follows the answer to a lock.
fn after_lock(told: Option<&Reply>) -> Step
    ensures { result ≡ after_lock (option_copied told.entry) }
{
    match told {
        Some(Reply::Fine) => Step::Loads,
        Some(Reply::Conflict(_, _)) => Step::Locks,
        _ => Step::Fails,
    }
}

/// The number that was loaded: 0 where nothing was stored yet.
fn number_in(told: Option<&Reply>) -> Option<u64>
    requires { HasEightBytes (option_copied told) }
    ensures { result ≡ number_in (option_copied told.entry) }
{
    match told {
        Some(Reply::Bytes(bytes)) => Some(number_of(bytes.bytes())),
        Some(Reply::PastEnd) => Some(0),
        _ => None,
    }
}

fn is_fine(told: Option<&Reply>) -> bool
    ensures { result ≡ is_fine (option_copied told.entry) }
{
    matches!(told, Some(Reply::Fine))
}

/// What follows an unlock, where so many rounds were left.
fn after_unlock(left: u32) -> Step
    ensures { result ≡ after_unlock left }
{
    match left {
        0 => Step::Ends,
        1 => Step::Waits,
        _ => Step::Locks,
    }
}

impl Counter {
    /// Adds one to the number in this object, so many times.
    pub fn new(uid: Uid, rounds: u32) -> Counter
        ensures { result ≡ first_counter uid rounds }
    {
        Counter {
            uid,
            rounds,
            left: rounds,
            number: 0,
            step: Step::Waits,
            spent: false,
        }
    }

    /// The number that it loaded last, where it came to its end.
    pub fn seen(&self) -> Option<u64>
        ensures { result ≡ seen_by self.now }
    {
        match self.step {
            Step::Ends => Some(self.number),
            _ => None,
        }
    }

    fn hear(&mut self, told: Option<&Reply>)
        requires { FitsWant (want_of self.old) (option_copied told) }
        ensures { self.new ≡ counter_after self.old (option_copied told.entry) }
    {
        match self.step {
            Step::Waits => self.step = Step::Locks,
            Step::Locks => self.step = after_lock(told),
            Step::Loads => self.load(number_in(told)),
            Step::Stores if is_fine(told) => self.step = Step::Unlocks,
            Step::Unlocks if is_fine(told) => {
                self.step = after_unlock(self.left);
                self.left = self.left.saturating_sub(1);
            }
            Step::Stores | Step::Unlocks => self.step = Step::Fails,
            Step::Ends | Step::Fails => {}
        }
    }

    fn load(&mut self, number: Option<u64>)
        ensures { self.new ≡ loaded number self.old }
    {
        match number {
            None => self.step = Step::Fails,
            Some(number) if self.left == 0 => {
                self.number = number;
                self.step = Step::Unlocks;
            }
            Some(number) => {
                self.number = number.wrapping_add(1);
                self.step = Step::Stores;
            }
        }
    }

    fn want(&self, alloc: Global) -> Result<Want, NoMemory>
        ensures want { IfOk result (λ want. want ≡ want_of self.now) }
        ensures range { IfOk result IsWant }
    {
        let (uid, spot) = (self.uid, Spot::Of(self.uid, 0));
        // What each name of an object keeps.
        let _number = uid.number();
        Ok(match self.step {
            Step::Waits => Want::Phase,
            Step::Locks => {
                let mode = if self.left == 0 {
                    Mode::Read
                } else {
                    Mode::Write
                };
                Want::Do(Op::Lock { uid, mode })
            }
            Step::Loads => Want::Do(Op::Load { spot, count: 8 }),
            Step::Stores => {
                let bytes = ByteList::from_slice(alloc, &self.number.to_le_bytes())?;
                Want::Do(Op::Store { spot, bytes })
            }
            Step::Unlocks => Want::Do(Op::Unlock { uid }),
            Step::Ends | Step::Fails => Want::Done,
        })
    }
}

impl Program for Counter {
    ghost use Rattle.std.specs.Prelude.{◌-◌};
    ghost use Rattle.count_up.specs.Counters.{want_of, counter_after};

    ghost wants = { λ c. want_of c };

    ghost becomes = { λ c told. counter_after c told };

    ghost answered = { λ c. c.rounds - c.left };

    ghost spent = { λ c. c.spent };

    fn next(&mut self, alloc: Global, last: Option<&Reply>) -> Result<Want, NoMemory> {
        // Until the turn is done; where it finds no memory the value stays so.
        self.spent = true;
        self.hear(last);
        let want = self.want(alloc)?;
        self.spent = false;
        Ok(want)
    }

    fn at(&self) -> u32 {
        self.rounds.saturating_sub(self.left)
    }
}
