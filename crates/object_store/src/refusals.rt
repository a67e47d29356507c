//! Why a home refuses a call.

use thiserror::Error;

/// The object is not there, or has no such page.
#[derive(Clone, Copy, Debug, PartialEq, Eq, Error)]
#[error("no such object")]
pub struct NoObject;

/// Why no object was made.
#[derive(Clone, Copy, Debug, PartialEq, Eq, Error)]
pub enum MakeFault {
    /// The rooms would exceed the volume.
    #[error("no space")]
    NoSpace,
    /// There was no memory.
    #[error("no memory")]
    NoMemory,
}

/// Why a write was not taken.
#[derive(Clone, Copy, Debug, PartialEq, Eq, Error)]
pub enum WriteRefusal {
    /// The object is not there, or the page or the length is past its room.
    #[error("no such object")]
    NoObject,
    /// The base is not the stamp, which is this.
    #[error("the stamp is {0}")]
    Stale(u64),
    /// There was no memory.
    #[error("no memory")]
    NoMemory,
}
