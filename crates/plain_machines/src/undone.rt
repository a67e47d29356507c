//! Why something is not done.
use thiserror::Error;
use uid_names::NoMemory;

/// Why something is not done.
#[derive(Clone, Copy, Debug, Error)]
pub enum Undone {
    #[error("no memory")]
    NoMemory,
    #[error("no such node")]
    NoNode,
    #[error("no such process")]
    NoProcess,
    #[error("no end")]
    NoEnd,
    #[error("too many operations")]
    TooMany,
    #[error("no store into one page")]
    NotOnePage,
    #[error("no such text")]
    NoText,
    #[error("no such room")]
    NoRoom,
    #[error("no such length")]
    NoLength,
    #[error("no such stream")]
    NoStream,
    #[error("no such object")]
    NoObject,
    #[error("no such words")]
    NoWords,
    /// The store did not do what was asked.
    #[error("it is not done")]
    Refused,
}

impl From<NoMemory> for Undone {
    fn from(_error: NoMemory) -> Undone {
        Undone::NoMemory
    }
}

/// What is done, or why it is not.
pub type Result<T, E = Undone> = std::result::Result<T, E>;
