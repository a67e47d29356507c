//! Names that are removed from directories that are loaded: what is asked for them.
ghost use Rattle.std.specs.Prelude.{◌≡◌, IfOk};
ghost use Rattle.dom_history.specs.Ranges.{IsOp};
ghost use Rattle.naming_tree.specs.Removing.{remove_in, on_locked, on_deleted, on_cleared, remove_heard, remove_op, IsRemoveStage};

use crate::changing::{Next, Stage};
use crate::ending::Ending;
use crate::placed::{Placed, lock, store_record};
use crate::session::{Opened, is_fine};
use crate::step::NameResult;
use dir_records::{Component, Directory, RECORD_BYTES};
use dom_history::{Op, Reply};
use std::alloc::Global;
use uid_names::{NoMemory, ObjKind};

/// What is asked for a removal once its directory is loaded: the object is locked and deleted, and a free record
/// stored.
#[derive(Clone, Copy)]
pub enum RemoveStage {
    Lock(Placed),
    Delete(Placed),
    Clear(Placed),
}

/// Goes on with the object of the name in a directory that was read, unless it is a directory.
pub fn remove_name(name: &Component, directory: &Directory, opened: &Opened) -> Next
    ensures { result ≡ remove_in name.now directory.now opened.now }
{
    let Some((place, row)) = directory.placed(name) else {
        return Next::End(Ending::decided(opened, NameResult::NoName));
    };
    match row.kind {
        ObjKind::Directory => Next::End(Ending::decided(opened, NameResult::IsDir)),
        _ => Next::To(Stage::Removes(RemoveStage::Lock(Placed {
            opened: *opened,
            place: place as u32,
            uid: row.uid,
        }))),
    }
}

/// Deletes the object once it is locked; one that is gone needs no deleting.
fn locked(alloc: Global, placed: &Placed, reply: &Reply) -> Result<Next, NoMemory>
    ensures { IfOk result (λ next. next ≡ on_locked placed.now reply.now) }
{
    match reply {
        Reply::Fine => Ok(Next::To(Stage::Removes(RemoveStage::Delete(*placed)))),
        Reply::NoObject => Ok(Next::To(Stage::Removes(RemoveStage::Clear(*placed)))),
        _ => Next::refused(alloc, Some(placed.opened.held()), reply),
    }
}

/// Frees the record once the object is deleted; else the lock of the object may still be held.
fn deleted(alloc: Global, placed: &Placed, reply: &Reply) -> Result<Next, NoMemory>
    ensures { IfOk result (λ next. next ≡ on_deleted placed.now reply.now) }
{
    match reply {
        Reply::Fine => Ok(Next::To(Stage::Removes(RemoveStage::Clear(*placed)))),
        Reply::Kept | Reply::WrongMode => Next::refused(alloc, Some(placed.held()), reply),
        _ => Next::refused(alloc, Some(placed.opened.held()), reply),
    }
}

/// Comes to its end once the record is free.
fn cleared(alloc: Global, placed: &Placed, reply: &Reply) -> Result<Next, NoMemory>
    ensures { IfOk result (λ next. next ≡ on_cleared placed.now reply.now) }
{
    if is_fine(reply) {
        let come = NameResult::Removed;
        return Ok(Next::End(Ending::completed(&placed.opened, come)));
    }
    Next::refused(alloc, Some(placed.opened.held()), reply)
}

impl RemoveStage {
    /// Takes in the reply to its operation.
    pub fn hear(&self, alloc: Global, reply: &Reply) -> Result<Next, NoMemory>
        ensures { IfOk result (λ next. next ≡ remove_heard self.now reply.now) }
    {
        match self {
            RemoveStage::Lock(placed) => locked(alloc, placed, reply),
            RemoveStage::Delete(placed) => deleted(alloc, placed, reply),
            RemoveStage::Clear(placed) => cleared(alloc, placed, reply),
        }
    }

    /// Its operation.
    pub fn op(&self, alloc: Global) -> Result<Op, NoMemory>
        requires { IsRemoveStage self.now }
        ensures value { IfOk result (λ op. op ≡ remove_op self.now) }
        ensures range { IfOk result IsOp }
    {
        match self {
            RemoveStage::Lock(placed) => Ok(lock(placed.uid)),
            RemoveStage::Delete(placed) => Ok(placed.delete()),
            RemoveStage::Clear(placed) => {
                store_record(alloc, &placed.opened, placed.place, &[0; RECORD_BYTES])
            }
        }
    }
}
