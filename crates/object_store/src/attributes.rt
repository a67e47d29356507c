//! What a home keeps of an object beside its pages.
ghost use Rattle.std.specs.Prelude.{◌≡◌, ◌-◌, ◌^◌, ◌<◌, ◌≤◌, ◌==◌, Some};
ghost use Rattle.object_store.specs.Objects.{fresh};
ghost use Rattle.object_store.specs.Rules.{page_write, length_write, write_on, TellsStamp};

use crate::refusals::WriteRefusal;
use uid_names::{ObjKind, PAGE_BYTES};

/// The attributes of an object: its kind, its room in pages, its length in bytes, and a stamp that is
/// 1 when the object is made and rises by 1 at each write.
#[derive(Clone, Copy, Debug, PartialEq, Eq)]
pub struct Attr {
    pub kind: ObjKind,
    pub room: u32,
    pub length: u32,
    pub stamp: u64,
}

/// An object that is there: the counter of its name, and its attributes.
#[derive(Clone, Copy, Debug, PartialEq, Eq)]
pub struct ObjectRow {
    pub counter: u64,
    pub attr: Attr,
}

impl Attr {
    /// The attributes of an object when it is made.
    pub(crate) fn fresh(kind: ObjKind, room: u32) -> Attr
        ensures { result ≡ fresh kind room }
    {
        Attr {
            kind,
            room,
            length: 0,
            stamp: 1,
        }
    }

    /// What a write of a page on this base answers where memory is left: the new stamp, or a refusal.
    pub(crate) fn page_write(&self, page: u32, base: u64) -> Result<u64, WriteRefusal>
        requires low { 1 ≤ self.now.stamp }
        requires high { self.now.stamp < 2 ^ 64 - 1 }
        ensures rule { result ≡ page_write (Some self.now) page base }
        ensures stamp { TellsStamp result }
    {
        if page < self.room {
            self.write_on(base)
        } else {
            Err(WriteRefusal::NoObject)
        }
    }

    /// What a write of the length on this base answers: the new stamp, or a refusal.
    pub(crate) fn length_write(&self, length: u32, base: u64) -> Result<u64, WriteRefusal>
        requires low { 1 ≤ self.now.stamp }
        requires high { self.now.stamp < 2 ^ 64 - 1 }
        ensures rule { result ≡ length_write (Some self.now) length base }
        ensures stamp { TellsStamp result }
    {
        if u64::from(length) <= PAGE_BYTES as u64 * u64::from(self.room) {
            self.write_on(base)
        } else {
            Err(WriteRefusal::NoObject)
        }
    }

    /// The new stamp, where the base is the stamp.
    fn write_on(&self, base: u64) -> Result<u64, WriteRefusal>
        requires low { 1 ≤ self.now.stamp }
        requires high { self.now.stamp < 2 ^ 64 - 1 }
        ensures rule { result ≡ write_on (base == self.now.stamp) self.now.stamp }
        ensures stamp { TellsStamp result }
    {
        if base == self.stamp {
            Ok(self.stamp + 1)
        } else {
            Err(WriteRefusal::Stale(self.stamp))
        }
    }
}
