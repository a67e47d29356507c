//! How large a frame and a pool may be, the number of a frame, the flags of its page, and the refusal for want of memory.
use std::alloc::AllocError;
use std::marker::Model;
use thiserror::Error;

/// The bytes of a page, and so of a frame.
pub const PAGE_BYTES: usize = 1024;

/// The fewest frames of a pool.
pub const FEWEST_FRAMES: u16 = 5;

/// The most frames of a pool.
pub const MOST_FRAMES: u16 = 256;

/// There was no memory.
#[derive(Clone, Copy, Debug, PartialEq, Eq, Error)]
#[error("no memory")]
pub struct NoMemory;

impl From<AllocError> for NoMemory {
    fn from(_error: AllocError) -> NoMemory {
        NoMemory
    }
}

/// What is noted of the page in a frame.
#[derive(Clone, Copy, Debug, PartialEq, Eq)]
pub struct Flags {
    /// The page was changed since it came from its home or was last taken there.
    pub dirty: bool,
    /// The page was not changed since it was last sent home.
    pub sent: bool,
    /// The page is on its way home.
    pub transit: bool,
}

/// The number of a frame of a pool.
#[derive(Clone, Copy, Debug, PartialEq, Eq, PartialOrd, Ord, Hash)]
pub struct FrameNo {
    pub(crate) key: usize,
}

impl Model for FrameNo {
    ghost use Rattle.std.specs.Prelude.{ℕ};

    ghost Value = { ℕ };

    ghost view = { λ f. f.key };

    ghost inverse = { λ number. record { key = number } };
}
