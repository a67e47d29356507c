//! What processes ask of the store, what it answers, and where that stands.
use uid_names::{ByteList, LockRows, Mode, NodeId, ObjKind, Place, ProcId, Uid};

/// Where a load or a store goes: to a byte offset of an object, or to an address of the process.
#[derive(Clone, Copy, Debug, PartialEq, Eq)]
pub enum Spot {
    Of(Uid, u32),
    Addr(u32),
}

/// What a process asks of the store. Rooms are in pages, counts and offsets in bytes.
#[derive(Debug)]
pub enum Op {
    New {
        home: NodeId,
        kind: ObjKind,
        room: u32,
    },
    Lock {
        uid: Uid,
        mode: Mode,
    },
    Unlock {
        uid: Uid,
    },
    Delete {
        uid: Uid,
    },
    Load {
        spot: Spot,
        count: u32,
    },
    Store {
        spot: Spot,
        bytes: ByteList,
    },
    Length {
        uid: Uid,
    },
    Map {
        uid: Uid,
    },
    Unmap {
        uid: Uid,
    },
    /// The locks that are held at a home, those behind `after` in order.
    List {
        home: NodeId,
        after: Option<(Uid, ProcId)>,
    },
}

// Of its own, so that what drops one calls this and does not take it apart in place.
impl Drop for Op {
    fn drop(self) {
        match self {
            Op::New {
                home: _,
                kind: _,
                room: _,
            }
            | Op::Lock { uid: _, mode: _ }
            | Op::Unlock { uid: _ }
            | Op::Delete { uid: _ }
            | Op::Load { spot: _, count: _ }
            | Op::Store { spot: _, bytes: _ }
            | Op::Length { uid: _ }
            | Op::Map { uid: _ }
            | Op::Unmap { uid: _ }
            | Op::List { home: _, after: _ } => {}
        }
    }
}

/// What the store answers. `Kept`, `Doubt` and `LinkFault` come from link faults alone.
#[derive(Debug)]
pub enum Reply {
    Made(Uid),
    Fine,
    Bytes(ByteList),
    Size(u32),
    At { address: u32, fresh: bool },
    Locks { rows: LockRows, more: bool },
    Conflict(ProcId, Mode),
    NoObject,
    AlreadyHeld,
    NotHeld,
    Unsettled,
    TooMany,
    NoLock,
    WrongMode,
    PastRoom,
    PastEnd,
    NoSpace,
    Kept,
    Doubt,
    LinkFault,
    TooManyMaps,
    NoSegment,
    NotMapped,
}

// Of its own, so that what drops one calls this and does not take it apart in place.
impl Drop for Reply {
    fn drop(self) {
        match self {
            Reply::Made(_)
            | Reply::Fine
            | Reply::Bytes(_)
            | Reply::Size(_)
            | Reply::At {
                address: _,
                fresh: _,
            }
            | Reply::Locks { rows: _, more: _ }
            | Reply::Conflict(_, _)
            | Reply::NoObject
            | Reply::AlreadyHeld
            | Reply::NotHeld
            | Reply::Unsettled
            | Reply::TooMany
            | Reply::NoLock
            | Reply::WrongMode
            | Reply::PastRoom
            | Reply::PastEnd
            | Reply::NoSpace
            | Reply::Kept
            | Reply::Doubt
            | Reply::LinkFault
            | Reply::TooManyMaps
            | Reply::NoSegment
            | Reply::NotMapped => {}
        }
    }
}

/// An operation with its reply, at its place in a history. Phases count from 1.
#[derive(Drop, Debug)]
pub struct Entry {
    pub place: Place,
    pub proc: ProcId,
    pub phase: u32,
    pub op: Op,
    pub reply: Reply,
}

/// What a program wants next.
#[derive(Drop, Debug)]
pub enum Want {
    Do(Op),
    Phase,
    Done,
}
