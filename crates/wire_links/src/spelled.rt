//! Ticks and bytes of frames, as they go through a ring.
ghost use Rattle.std.specs.Prelude.{◌≡◌, ◌<◌, ◌^◌, IfOk};
ghost use Rattle.ring_messages.specs.Spelled.{Spells};

use ring_messages::laws::frames_have_one_spelling;
use ring_messages::{Frame, FrameFault, read, write};
use std::alloc::Global;
use std::marker::Model;
use uid_names::{ByteList, NoMemory};

/// A tick below 2^40.
#[derive(Clone, Copy, Debug, PartialEq, Eq)]
pub struct Tick {
    value: u64,
}

impl Model for Tick {
    ghost use Rattle.std.specs.Prelude.{ℕ, ◌<◌, ◌^◌};

    ghost Value = { ℕ };

    ghost view = { λ t. t.value };

    ghost invariant = { λ t. t.value < 2 ^ 40 };

    ghost inverse = { λ n. record { value = n } };
}

impl Tick {
    /// The tick of that number.
    pub fn new(value: u64) -> Tick
        requires { value < 2 ^ 40 }
        ensures { result ≡ value }
    {
        Tick { value }
    }

    /// Its number.
    pub fn value(self) -> u64
        ensures value { result ≡ self }
        ensures small { result < 2 ^ 40 }
    {
        self.value
    }
}

/// The bytes of a frame with a tick below 2^40.
#[derive(Drop, Debug)]
pub struct Spelled {
    bytes: ByteList,
}

impl Model for Spelled {
    ghost use Rattle.std.specs.Prelude.{ℕ, List};
    ghost use Rattle.wire_links.specs.Spelt.{IsSpelt};

    ghost Value = { List ℕ };

    ghost view = { λ s. s.bytes };

    ghost invariant = { λ s. IsSpelt s.bytes };
}

impl Spelled {
    /// The bytes of a frame.
    pub fn of(alloc: Global, frame: &Frame) -> Result<Spelled, NoMemory>
        requires tick { frame.now.tick < 2 ^ 40 }
        ensures { IfOk result (Spells frame.now) }
    {
        Ok(Spelled {
            bytes: write(alloc, frame)?,
        })
    }

    /// The bytes. Takes no memory.
    pub fn bytes(&self) -> &[u8]
        ensures { result.now ≡ self.now }
    {
        self.bytes.bytes()
    }

    /// The frame that has these bytes: there is just one.
    pub fn frame(&self, alloc: Global) -> Result<Frame, NoMemory>
        ensures spells { IfOk result (λ frame. Spells frame self.now) }
        ensures tick { IfOk result (λ frame. frame.tick < 2 ^ 40) }
    {
        frames_have_one_spelling();
        match read(alloc, self.bytes.bytes()) {
            Ok(frame) => Ok(frame),
            Err(FrameFault::NoMemory) => Err(NoMemory),
            Err(FrameFault::BadFrame) => unreachable!(),
        }
    }

    /// A copy.
    pub fn copy(&self, alloc: Global) -> Result<Spelled, NoMemory>
        ensures { IfOk result (λ copy. copy ≡ self.now) }
    {
        Ok(Spelled {
            bytes: self.bytes.copy(alloc)?,
        })
    }
}
