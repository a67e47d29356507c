//! The stamps that a node has seen.
ghost use Rattle.std.specs.Prelude.{◌≡◌, ◌↔◌, [], Some, is_some, false, IsSome, OnOk, OnErr};
ghost use Rattle.version_stamps.specs.Stamps.{stamp_of, with_stamp, without_stamp, raised};

use crate::stamps::Stamp;
use std::alloc::Global;
use std::marker::Model;
use uid_names::{NoMemory, Uid, UidTable};

/// How a stamp stands to the one that is known of an object.
#[derive(Clone, Copy, Debug, PartialEq, Eq)]
pub enum Checked {
    /// It is that one.
    Same,
    /// Another one is known, or none.
    Other,
}

/// The stamp of each object that was seen, the objects rising.
#[derive(Drop, Debug)]
pub struct Seen {
    rows: UidTable<Stamp>,
}

impl Model for Seen {
    ghost use Rattle.std.specs.Prelude.{List};
    ghost use Rattle.version_stamps.specs.declared.stamps.Stamp.{Stamp};

    ghost Value = { List Stamp };

    ghost view = { λ s. s.rows };
}

impl Seen {
    /// No stamp is known. Takes no memory.
    pub fn new(alloc: Global) -> Seen
        ensures { result ≡ [] }
    {
        Seen {
            rows: UidTable::new(alloc),
        }
    }

    /// The stamp that is known of an object; None exactly where none is. Takes no memory.
    pub fn of(&self, uid: Uid) -> Option<u64>
        ensures { result ≡ stamp_of uid self.now }
    {
        match self.rows.of(uid) {
            Some(row) => Some(row.stamp),
            None => None,
        }
    }

    /// Whether this is the stamp that is known of an object. Takes no memory.
    pub fn check(&self, uid: Uid, stamp: u64) -> Checked
        ensures { (result ≡ Checked.Same) ↔ (stamp_of uid self.now ≡ Some stamp) }
    {
        match self.of(uid) {
            Some(known) if known == stamp => Checked::Same,
            _ => Checked::Other,
        }
    }

    /// This is the stamp of an object from now on. Where there is no memory, nothing changes.
    pub fn set(&mut self, uid: Uid, stamp: u64) -> Result<(), NoMemory>
        ensures set { OnOk result (self.new ≡ with_stamp (record { uid = uid; stamp = stamp }) self.old) }
        ensures refused { OnErr result (self.new ≡ self.old) }
        ensures memory { OnErr result (is_some (stamp_of uid self.old) ≡ false) }
    {
        self.rows.set(Stamp { uid, stamp })
    }

    /// The greater of this and the known stamp is that of an object from now on. Takes no memory.
    pub fn raise(&mut self, uid: Uid, stamp: u64)
        requires { IsSome (stamp_of uid self.old) }
        ensures { self.new
            ≡ with_stamp (record { uid = uid; stamp = raised stamp (stamp_of uid self.old) }) self.old }
    {
        match self.of(uid) {
            Some(known) => {
                let stamp = known.max(stamp);
                self.rows.replace(Stamp { uid, stamp });
            }
            None => unreachable!(),
        }
    }

    /// No stamp of an object is known any more. Takes no memory.
    pub fn forget(&mut self, uid: Uid)
        ensures { self.new ≡ without_stamp uid self.old }
    {
        self.rows.forget(uid);
    }
}
