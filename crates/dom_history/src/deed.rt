//! What was decided, and what a process knows of its locks.
ghost use Rattle.std.specs.Prelude.{◌≡◌};
ghost use Rattle.dom_history.specs.Locks.{is_held as held, mode_at_home};
ghost use Rattle.dom_history.specs.Replies.{may_write as writing, may_delete as deleting};

use crate::op::{Op, Reply};
use uid_names::{Mode, ProcId, Uid};

/// An operation of a process with the reply that was decided.
#[derive(Drop, Debug)]
pub struct Deed {
    pub proc: ProcId,
    pub op: Op,
    pub reply: Reply,
}

/// What a process knows of its lock on an object. The last three are unsettled: a link fault left open
/// whether the home acted.
#[derive(Clone, Copy, Debug, PartialEq, Eq)]
pub enum LockState {
    Free,
    Held(Mode),
    Taking(Mode),
    Releasing(Mode),
    Deleting,
}

impl LockState {
    /// Whether it is Held.
    pub fn is_held(self) -> bool
        ensures { result ≡ held self }
    {
        match self {
            LockState::Held(_) => true,
            LockState::Free
            | LockState::Taking(_)
            | LockState::Releasing(_)
            | LockState::Deleting => false,
        }
    }

    /// Whether it is Held in a mode that writes.
    pub fn may_write(self) -> bool
        ensures { result ≡ writing self }
    {
        match self {
            LockState::Held(mode) => mode.writes(),
            LockState::Free
            | LockState::Taking(_)
            | LockState::Releasing(_)
            | LockState::Deleting => false,
        }
    }

    /// Whether it is Held in a mode that removes.
    pub fn may_delete(self) -> bool
        ensures { result ≡ deleting self }
    {
        match self {
            LockState::Held(mode) => mode.removes(),
            LockState::Free
            | LockState::Taking(_)
            | LockState::Releasing(_)
            | LockState::Deleting => false,
        }
    }

    /// The mode that a lock in this state may still have at the home.
    pub fn mode(self) -> Mode
        ensures { result ≡ mode_at_home self }
    {
        match self {
            LockState::Held(mode) | LockState::Taking(mode) | LockState::Releasing(mode) => mode,
            LockState::Free | LockState::Deleting => Mode::Write,
        }
    }
}

/// An object on which a process is not free.
#[derive(Clone, Copy, Debug, PartialEq, Eq)]
pub struct LockLine {
    pub uid: Uid,
    pub state: LockState,
}
