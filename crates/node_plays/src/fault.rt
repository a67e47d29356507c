//! Why a case cannot be played.
use journal_text::JournalFault;
use ring_messages::FrameFault;
use script_reader::ScriptFault;
use std::alloc::AllocFailed;
use thiserror::Error;
use uid_names::NoMemory;

/// Why a case cannot be played.
#[derive(Clone, Copy, Debug, Error)]
pub enum PlayFault {
    #[error(transparent)]
    NoMemory(#[from] NoMemory),
    #[error(transparent)]
    Script(#[from] ScriptFault),
    #[error(transparent)]
    Journal(#[from] JournalFault),
    #[error(transparent)]
    Frame(#[from] FrameFault),
    #[error("no such node")]
    NoNode,
    #[error("no such process")]
    NoProcess,
}

impl<T: Drop> From<AllocFailed<T>> for PlayFault {
    fn from(_failed: AllocFailed<T>) -> PlayFault {
        PlayFault::NoMemory(NoMemory)
    }
}
