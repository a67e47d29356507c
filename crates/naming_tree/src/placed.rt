//! Objects with the places of their records in a directory that is open.
ghost use Rattle.std.specs.Prelude.{◌≡◌, IfOk};
ghost use Rattle.uid_names.specs.declared.mode.Mode.TheVariants.{Write};
ghost use Rattle.dom_history.specs.declared.op.Op.TheVariants.{Lock, Unlock, Delete};
ghost use Rattle.dom_history.specs.Ranges.{IsOp};
ghost use Rattle.naming_tree.specs.Placing.{store_record, held_with, IsPlaced};

use crate::session::{Held, Opened};
use dir_records::RECORD_BYTES;
use dom_history::{Op, Spot};
use std::alloc::Global;
use uid_names::{ByteList, Mode, NoMemory, Uid};

/// An object, and the place of its record in a directory that is open.
#[derive(Clone, Copy)]
pub struct Placed {
    pub opened: Opened,
    pub place: u32,
    pub uid: Uid,
}

impl Placed {
    /// What is held, with the lock of the object.
    pub fn held(&self) -> Held
        ensures { result ≡ held_with self.now }
    {
        Held {
            other: Some(self.uid),
            ..self.opened.held()
        }
    }

    /// The deleting of the object.
    pub fn delete(&self) -> Op
        ensures value { result ≡ Delete self.now.uid }
        ensures range { IsOp result }
    {
        let uid = self.uid;
        let _number = uid.number();
        Op::Delete { uid }
    }
}

/// The store of a record at its place in a directory that is open.
pub fn store_record(
    alloc: Global,
    opened: &Opened,
    place: u32,
    raw: &[u8; RECORD_BYTES],
) -> Result<Op, NoMemory>
    requires { IsPlaced opened.now place }
    ensures value { IfOk result (λ op. op ≡ store_record opened.now place raw.now) }
    ensures range { IfOk result IsOp }
{
    let bytes = ByteList::from_slice(alloc, raw)?;
    Ok(Op::Store {
        spot: Spot::Addr(opened.address + place * RECORD_BYTES as u32),
        bytes,
    })
}

/// A lock in writing.
pub fn lock(uid: Uid) -> Op
    ensures value { result ≡ Lock uid Write }
    ensures range { IsOp result }
{
    let _number = uid.number();
    let mode = Mode::Write;
    Op::Lock { uid, mode }
}

/// The end of a lock.
pub fn unlock(uid: Uid) -> Op
    ensures value { result ≡ Unlock uid }
    ensures range { IsOp result }
{
    let _number = uid.number();
    Op::Unlock { uid }
}
