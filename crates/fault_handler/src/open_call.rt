//! What a process asked of a home and has no answer to.
ghost use Rattle.std.specs.Prelude.{◌≡◌, Some};
ghost use Rattle.ring_messages.specs.Bodies.{answer_of};
ghost use Rattle.fault_handler.specs.LockCalls.{lock_call};
ghost use Rattle.fault_handler.specs.Invariant.{is_access};
ghost use Rattle.fault_handler.specs.Unseen.{fits_lock};

use ring_messages::Body;
use uid_names::{Mode, Uid};

/// An open call of a process, by what it asked for.
#[derive(Clone, Copy, Debug, PartialEq, Eq)]
pub enum OpenCall {
    /// That of a load or store: its page, or the sending home of the page that makes room for it.
    Access,
    Lock(Uid, Mode),
    /// A page; whether the operation is a removal.
    PageOut(Uid, u32, bool),
    /// The length that was sent; whether the operation is a removal.
    AttrOut(Uid, u32, bool),
    Unlock(Uid),
    Remove(Uid),
}

impl OpenCall {
    /// Whether it is that of a load or store.
    pub(crate) fn is_access(&self) -> bool
        ensures { result ≡ is_access (Some self.now) }
    {
        matches!(self, OpenCall::Access)
    }

    /// Whether a body answers such a call; that of a load or store is answered by what it moves.
    pub(crate) fn takes(&self, body: &Body) -> bool
        ensures { result ≡ fits_lock (lock_call self.now) (answer_of body.now) }
    {
        match self {
            OpenCall::Access => false,
            OpenCall::Lock(_, _) => matches!(
                body,
                Body::Granted { .. } | Body::Conflict { .. } | Body::NoObject
            ),
            OpenCall::PageOut(_, _, _) | OpenCall::AttrOut(_, _, _) => {
                matches!(body, Body::Stored { .. } | Body::Stale { .. })
            }
            OpenCall::Unlock(_) | OpenCall::Remove(_) => matches!(body, Body::Done),
        }
    }
}
