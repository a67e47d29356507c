//! What the plain store keeps beside its deeds, so that no reply needs a pass over them.
ghost use Rattle.std.specs.Prelude.{◌≡◌, ◌+◌, ◌%◌, ◌≤◌, ℕ, List, [], ◌∷◌, length, IfOk, IfSome, OnOk, OnErr};
ghost use Rattle.uid_names.specs.Names.{ObjectName};
ghost use Rattle.uid_names.specs.Openings.{Start, IsStart};
ghost use Rattle.dom_history.specs.declared.deed.Deed.{Deed};
ghost use Rattle.dom_history.specs.StoreEffects.{StoreEffect};
ghost use Rattle.dom_history.specs.Bytes.{byte_after, end_after};
ghost use Rattle.dom_history.specs.Fitting.{Fits};
ghost use Rattle.plain_store.specs.KeptLengths.{length_in, HoldLengths, HasLengthRoom};
ghost use Rattle.plain_store.specs.Kept.{TakeBytes, TakeLengths};
ghost use Rattle.plain_store.specs.KeptMaps.{target_given};
ghost use Rattle.plain_store.specs.KeptPages.{byte_in, HoldBytes};
ghost use Rattle.dom_history.specs.Objects.{IsOfMade};
ghost use Rattle.dom_history.specs.Ranges.{IsOp};
ghost use Rattle.dom_history.specs.Runs.{IsFaultless};

use crate::lengths::Lengths;
use crate::locks::LockTable;
use crate::maps::MapTable;
use crate::objects::ObjectTable;
use crate::pages::Pages;
use dom_history::{Deed, Op, Reply};
use std::alloc::Global;
use uid_names::{NoMemory, Opening, PAGE_BYTES, Uid};

/// Puts bytes, which lie in one page, at an offset of an object. Without memory no byte and no length changes.
fn store_at(
    pages: &mut Pages,
    lengths: &mut Lengths,
    target: Option<(Uid, u32)>,
    bytes: &[u8],
) -> Result<(), NoMemory>
    requires room { HasLengthRoom lengths.old }
    requires page { IfSome target (λ t. t.1 % PAGE_BYTES + length bytes.now ≤ PAGE_BYTES) }
    ensures bytes { OnOk result ((v : ObjectName) → (o : ℕ) → byte_in pages.new v o ≡ byte_after (target_given target) bytes.now v o (byte_in pages.old v o)) }
    ensures ends { OnOk result ((v : ObjectName) → length_in lengths.new v ≡ end_after (target_given target) bytes.now v (length_in lengths.old v)) }
    ensures bytes_stay { OnErr result ((v : ObjectName) → (o : ℕ) → byte_in pages.new v o ≡ byte_in pages.old v o) }
    ensures lengths_stay { OnErr result (lengths.new ≡ lengths.old) }
{
    match target {
        Some((uid, offset)) => {
            pages.store(uid, offset, bytes)?;
            lengths.extend(uid, offset as u64 + bytes.len() as u64);
            Ok(())
        }
        None => Ok(()),
    }
}

/// Puts in the bytes that a deed stored. Without memory no byte and no length changes.
fn write(
    pages: &mut Pages,
    lengths: &mut Lengths,
    maps: &MapTable,
    deed: &Deed,
) -> Result<(), NoMemory>
    requires room { HasLengthRoom lengths.old }
    requires range { IsOp deed.now.op }
    ensures bytes { OnOk result (TakeBytes maps.now deed.now pages.old pages.new) }
    ensures ends { OnOk result (TakeLengths maps.now deed.now lengths.old lengths.new) }
    ensures bytes_stay { OnErr result ((opening : Start) → (past : List StoreEffect) → HoldBytes pages.old opening past → HoldBytes pages.new opening past) }
    ensures lengths_stay { OnErr result ((opening : Start) → (past : List StoreEffect) → HoldLengths lengths.old opening past → HoldLengths lengths.new opening past) }
{
    match &deed.op {
        Op::Store { spot, bytes } => match &deed.reply {
            Reply::Fine => {
                let target = maps.target_of(deed.proc, *spot);
                store_at(pages, lengths, target, bytes.bytes())
            }
            _ => Ok(()),
        },
        _ => Ok(()),
    }
}

/// What the deeds left.
#[derive(Debug)]
pub struct Kept {
    pub objects: ObjectTable,
    pub locks: LockTable,
    pub maps: MapTable,
    pub pages: Pages,
    pub lengths: Lengths,
}

// Of its own, so that what drops one calls this and does not take it apart in place.
impl Drop for Kept {
    fn drop(self) {
        let Kept {
            objects: _,
            locks: _,
            maps: _,
            pages: _,
            lengths: _,
        } = self;
    }
}

impl Kept {
    ghost use Rattle.plain_store.specs.Kept.{HoldDeeds, HaveRooms};

    /// What is there from the start.
    pub fn new(alloc: Global, opening: &Opening) -> Result<Kept, NoMemory>
        ensures held { IfOk result (λ kept. HoldDeeds kept opening.now []) }
        ensures start { IfOk result (λ _. IsStart opening.now) }
    {
        Ok(Kept {
            objects: ObjectTable::new(alloc, opening)?,
            locks: LockTable::new(alloc),
            maps: MapTable::new(alloc),
            pages: Pages::new(alloc),
            lengths: Lengths::new(alloc),
        })
    }

    /// Makes room for one deed.
    pub fn reserve(&mut self) -> Result<(), NoMemory>
        ensures room { OnOk result (HaveRooms self.new) }
        ensures held { (opening : Start) → (deeds : List Deed) → HoldDeeds self.old opening deeds → HoldDeeds self.new opening deeds }
    {
        self.locks.reserve()?;
        self.maps.reserve()?;
        self.lengths.reserve()?;
        self.objects.reserve()?;
        Ok(())
    }

    /// Takes in what a deed does, for which there is room. Without memory for its bytes what is held stays.
    pub fn take_in(&mut self, deed: &Deed) -> Result<(), NoMemory>
        requires room { HaveRooms self.old }
        requires range { IsOp deed.now.op }
        requires fits { Fits deed.now.op deed.now.reply }
        requires faultless { IsFaultless deed.now.reply }
        requires made { IsOfMade self.old.objects.made.items deed.now.op deed.now.reply }
        ensures ok { OnOk result ((opening : Start) → (deeds : List Deed) → HoldDeeds self.old opening deeds → HoldDeeds self.new opening (deed.now ∷ deeds)) }
        ensures err { OnErr result ((opening : Start) → (deeds : List Deed) → HoldDeeds self.old opening deeds → HoldDeeds self.new opening deeds) }
    {
        write(&mut self.pages, &mut self.lengths, &self.maps, deed)?;
        self.locks.change(deed);
        self.maps.change(deed, &self.objects);
        self.objects.change(deed);
        Ok(())
    }
}
