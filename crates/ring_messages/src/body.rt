//! What a frame carries.
ghost use Rattle.std.specs.Prelude.{◌≡◌, IfOk, OnErr, IsTrue, IsFalse};
ghost use Rattle.ring_messages.specs.Bodies.{kind_of, is_request as asks, copy_wants as wants};

use crate::page_bytes::PageBytes;
use std::alloc::Global;
use uid_names::{FrameKind, LockRows, Mode, NoMemory, ObjKind, ProcId, Uid};

/// A request to a home, or a reply of one: the first eight are the requests. Rooms are in pages,
/// lengths in bytes.
#[derive(Debug)]
pub enum Body {
    PageIn {
        uid: Uid,
        page: u32,
    },
    PageOut {
        uid: Uid,
        page: u32,
        grant: u64,
        base: u64,
        bytes: PageBytes,
    },
    AttrOut {
        uid: Uid,
        length: u32,
        grant: u64,
        base: u64,
    },
    Lock {
        uid: Uid,
        mode: Mode,
    },
    Unlock {
        uid: Uid,
    },
    Remove {
        uid: Uid,
    },
    Make {
        kind: ObjKind,
        room: u32,
    },
    /// The rows behind `after`, or all.
    List {
        after: Option<(Uid, ProcId)>,
    },
    Page {
        stamp: u64,
        bytes: PageBytes,
    },
    Stored {
        stamp: u64,
    },
    Stale {
        stamp: u64,
    },
    NoGrant,
    NoObject,
    Granted {
        grant: u64,
        stamp: u64,
        kind: ObjKind,
        room: u32,
        length: u32,
    },
    Conflict {
        proc: ProcId,
        mode: Mode,
    },
    Done,
    Made {
        uid: Uid,
    },
    NoSpace,
    Listed {
        rows: LockRows,
        more: bool,
    },
}

// Of its own, so that what drops one calls this and does not take it apart in place.
impl Drop for Body {
    fn drop(self) {
        match self {
            Body::PageIn { uid: _, page: _ }
            | Body::PageOut {
                uid: _,
                page: _,
                grant: _,
                base: _,
                bytes: _,
            }
            | Body::AttrOut {
                uid: _,
                length: _,
                grant: _,
                base: _,
            }
            | Body::Lock { uid: _, mode: _ }
            | Body::Unlock { uid: _ }
            | Body::Remove { uid: _ }
            | Body::Make { kind: _, room: _ }
            | Body::List { after: _ }
            | Body::Page { stamp: _, bytes: _ }
            | Body::Stored { stamp: _ }
            | Body::Stale { stamp: _ }
            | Body::NoGrant
            | Body::NoObject
            | Body::Granted {
                grant: _,
                stamp: _,
                kind: _,
                room: _,
                length: _,
            }
            | Body::Conflict { proc: _, mode: _ }
            | Body::Done
            | Body::Made { uid: _ }
            | Body::NoSpace
            | Body::Listed { rows: _, more: _ } => {}
        }
    }
}

impl Body {
    /// Its kind.
    pub fn kind(&self) -> FrameKind
        ensures { result ≡ kind_of self.now }
    {
        match self {
            Body::PageIn { .. } => FrameKind::PageIn,
            Body::PageOut { .. } => FrameKind::PageOut,
            Body::AttrOut { .. } => FrameKind::AttrOut,
            Body::Lock { .. } => FrameKind::Lock,
            Body::Unlock { .. } => FrameKind::Unlock,
            Body::Remove { .. } => FrameKind::Remove,
            Body::Make { .. } => FrameKind::Make,
            Body::List { .. } => FrameKind::List,
            Body::Page { .. } => FrameKind::Page,
            Body::Stored { .. } => FrameKind::Stored,
            Body::Stale { .. } => FrameKind::Stale,
            Body::NoGrant => FrameKind::NoGrant,
            Body::NoObject => FrameKind::NoObject,
            Body::Granted { .. } => FrameKind::Granted,
            Body::Conflict { .. } => FrameKind::Conflict,
            Body::Done => FrameKind::Done,
            Body::Made { .. } => FrameKind::Made,
            Body::NoSpace => FrameKind::NoSpace,
            Body::Listed { .. } => FrameKind::Listed,
        }
    }

    /// Whether it is a request to a home; a reply of a home else.
    pub fn is_request(&self) -> bool
        ensures { result ≡ asks self.now }
    {
        self.kind().is_request()
    }

    /// A copy. Only that of a page or of a list of locks takes memory.
    pub fn copy(&self, alloc: Global) -> Result<Body, NoMemory>
        ensures copy { IfOk result (λ copy. copy ≡ self.now) }
        ensures memory { OnErr result (IsTrue (wants self.now)) }
    {
        if self.is_request() {
            return self.copy_request(alloc);
        }
        self.copy_reply(alloc)
    }

    /// A copy of a request. Only that of a page takes memory.
    fn copy_request(&self, alloc: Global) -> Result<Body, NoMemory>
        requires { IsTrue (asks self.now) }
        ensures copy { IfOk result (λ copy. copy ≡ self.now) }
        ensures memory { OnErr result (IsTrue (wants self.now)) }
    {
        Ok(match *self {
            Body::PageIn { uid, page } => Body::PageIn { uid, page },
            Body::PageOut {
                uid,
                page,
                grant,
                base,
                ref bytes,
            } => Body::PageOut {
                uid,
                page,
                grant,
                base,
                bytes: bytes.copy(alloc)?,
            },
            Body::AttrOut {
                uid,
                length,
                grant,
                base,
            } => Body::AttrOut {
                uid,
                length,
                grant,
                base,
            },
            Body::Lock { uid, mode } => Body::Lock { uid, mode },
            Body::Unlock { uid } => Body::Unlock { uid },
            Body::Remove { uid } => Body::Remove { uid },
            Body::Make { kind, room } => Body::Make { kind, room },
            Body::List { after } => Body::List { after },
            _ => unreachable!(),
        })
    }

    /// A copy of a reply. Only that of a list of locks takes memory.
    fn copy_reply(&self, alloc: Global) -> Result<Body, NoMemory>
        requires { IsFalse (asks self.now) }
        ensures copy { IfOk result (λ copy. copy ≡ self.now) }
        ensures memory { OnErr result (IsTrue (wants self.now)) }
    {
        Ok(match *self {
            Body::Page { stamp, ref bytes } => Body::Page {
                stamp,
                bytes: bytes.copy(alloc)?,
            },
            Body::Stored { stamp } => Body::Stored { stamp },
            Body::Stale { stamp } => Body::Stale { stamp },
            Body::NoGrant => Body::NoGrant,
            Body::NoObject => Body::NoObject,
            Body::Granted {
                grant,
                stamp,
                kind,
                room,
                length,
            } => Body::Granted {
                grant,
                stamp,
                kind,
                room,
                length,
            },
            Body::Conflict { proc, mode } => Body::Conflict { proc, mode },
            Body::Done => Body::Done,
            Body::Made { uid } => Body::Made { uid },
            Body::NoSpace => Body::NoSpace,
            Body::Listed { ref rows, more } => Body::Listed {
                rows: rows.copy(alloc)?,
                more,
            },
            _ => unreachable!(),
        })
    }
}
