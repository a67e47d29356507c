//! Copies of operations and replies.
ghost use Rattle.std.specs.Prelude.{◌≡◌, IfOk};

use crate::op::{Op, Reply};
use std::alloc::Global;
use uid_names::NoMemory;

impl Op {
    /// A copy.
    pub fn copy(&self, alloc: Global) -> Result<Op, NoMemory>
        ensures { IfOk result (λ copy. copy ≡ self.now) }
    {
        Ok(match self {
            Op::New { home, kind, room } => Op::New {
                home: *home,
                kind: *kind,
                room: *room,
            },
            Op::Lock { uid, mode } => Op::Lock {
                uid: *uid,
                mode: *mode,
            },
            Op::Unlock { uid } => Op::Unlock { uid: *uid },
            Op::Delete { uid } => Op::Delete { uid: *uid },
            Op::Load { spot, count } => Op::Load {
                spot: *spot,
                count: *count,
            },
            Op::Store { spot, bytes } => Op::Store {
                spot: *spot,
                bytes: bytes.copy(alloc)?,
            },
            Op::Length { uid } => Op::Length { uid: *uid },
            Op::Map { uid } => Op::Map { uid: *uid },
            Op::Unmap { uid } => Op::Unmap { uid: *uid },
            Op::List { home, after } => Op::List {
                home: *home,
                after: *after,
            },
        })
    }
}

impl Reply {
    /// A copy.
    pub fn copy(&self, alloc: Global) -> Result<Reply, NoMemory>
        ensures { IfOk result (λ copy. copy ≡ self.now) }
    {
        Ok(match self {
            Reply::Made(uid) => Reply::Made(*uid),
            Reply::Fine => Reply::Fine,
            Reply::Bytes(bytes) => Reply::Bytes(bytes.copy(alloc)?),
            Reply::Size(n) => Reply::Size(*n),
            Reply::At { address, fresh } => Reply::At {
                address: *address,
                fresh: *fresh,
            },
            Reply::Locks { rows, more } => Reply::Locks {
                rows: rows.copy(alloc)?,
                more: *more,
            },
            Reply::Conflict(proc, mode) => Reply::Conflict(*proc, *mode),
            Reply::NoObject => Reply::NoObject,
            Reply::AlreadyHeld => Reply::AlreadyHeld,
            Reply::NotHeld => Reply::NotHeld,
            Reply::Unsettled => Reply::Unsettled,
            Reply::TooMany => Reply::TooMany,
            Reply::NoLock => Reply::NoLock,
            Reply::WrongMode => Reply::WrongMode,
            Reply::PastRoom => Reply::PastRoom,
            Reply::PastEnd => Reply::PastEnd,
            Reply::NoSpace => Reply::NoSpace,
            Reply::Kept => Reply::Kept,
            Reply::Doubt => Reply::Doubt,
            Reply::LinkFault => Reply::LinkFault,
            Reply::TooManyMaps => Reply::TooManyMaps,
            Reply::NoSegment => Reply::NoSegment,
            Reply::NotMapped => Reply::NotMapped,
        })
    }
}
