//! The draws of a phase. No function takes memory.
ghost use Rattle.std.specs.Prelude.{◌≡◌, ◌<◌};
ghost use Rattle.script_maker.specs.Generated.{last_offset, number_of, object_of, offset_of, shift_of, state_behind};

use drawn_numbers::Draws;
use std::marker::Model;
use uid_names::PROCESSES;

/// How many objects there are; as many as processes.
const OBJECTS: u32 = PROCESSES as u32;

/// Below what the offset of a store is drawn, and the number that is stored.
const OFFSETS: u32 = 4000;

const NUMBERS: u32 = 100_000_000;

/// What was drawn for a phase, seen as the state in front of its draws. Processes and objects are counted from 0.
#[derive(Drop)]
pub(crate) struct PhaseDraws {
    begin: u64,
    shift: u32,
    offsets: [u32; PROCESSES],
    numbers: [u32; PROCESSES],
}

impl Model for PhaseDraws {
    ghost use Rattle.std.specs.Prelude.{ℕ};
    ghost use Rattle.script_maker.specs.Walk.Drawing.{HoldsDraws};

    ghost Value = { ℕ };

    ghost view = { λ d. d.begin };

    ghost invariant = { HoldsDraws };
}

impl PhaseDraws {
    /// Draws what a phase needs.
    pub(crate) fn new(draws: &mut Draws) -> PhaseDraws
        ensures state { draws.new ≡ state_behind draws.old 65 }
        ensures value { result ≡ draws.old }
    {
        let begin = draws.state();
        let shift = draws.below(OBJECTS);
        let mut offsets = [0; PROCESSES];
        let mut numbers = [0; PROCESSES];
        for q in 0..PROCESSES {
            let offset = draws.below(OFFSETS);
            let number = draws.below(NUMBERS);
            offsets[q] = offset;
            numbers[q] = number;
        }
        PhaseDraws {
            begin,
            shift,
            offsets,
            numbers,
        }
    }

    /// How far the objects are shifted against the processes.
    fn shift(&self) -> u32
        ensures value { result ≡ shift_of self.now }
        ensures range { result < 32 }
    {
        self.shift
    }

    /// The object that a process works on.
    pub(crate) fn object(&self, q: usize) -> u32
        requires { q < 32 }
        ensures value { result ≡ object_of self.now q }
        ensures range { result < 32 }
    {
        (q as u32 + self.shift()) % OBJECTS
    }

    /// Where a process stores.
    pub(crate) fn offset(&self, q: usize) -> u32
        requires { q < 32 }
        ensures value { result ≡ offset_of self.now q }
        ensures range { result < 4000 }
    {
        self.offsets[q]
    }

    /// The number that a process stores.
    pub(crate) fn number(&self, q: usize) -> u32
        requires { q < 32 }
        ensures { result ≡ number_of self.now q }
    {
        self.numbers[q]
    }

    /// Where the process stores that works on an object.
    pub(crate) fn offset_at(&self, object: u32) -> u32
        requires { object < 32 }
        ensures value { result ≡ last_offset self.now object }
        ensures range { result < 4000 }
    {
        let q = (object + OBJECTS - self.shift()) % OBJECTS;
        self.offset(q as usize)
    }
}
