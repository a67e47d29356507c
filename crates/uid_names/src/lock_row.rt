//! Locks that are held, and lists of them.
ghost use Rattle.std.specs.Prelude.{◌≡◌, Some};
ghost use Rattle.uid_names.specs.Rows.{is_before, is_after, same_row, conflicts};

use crate::ids::{ProcId, Uid};
use crate::item_list::ItemList;
use crate::mode::{Mode, clash};

/// A lock that a process holds on an object.
#[derive(Clone, Copy, Debug, PartialEq, Eq, Hash)]
pub struct LockRow {
    pub uid: Uid,
    pub proc: ProcId,
    pub mode: Mode,
}

impl LockRow {
    /// Whether it is that of a process on an object.
    pub fn is_of(&self, proc: ProcId, uid: Uid) -> bool
        ensures { result ≡ same_row proc uid self.now }
    {
        proc.is(self.proc) && uid.is(self.uid)
    }

    /// Whether it stands before that of a process on an object: by object, and then by process.
    pub fn is_before(&self, uid: Uid, proc: ProcId) -> bool
        ensures { result ≡ is_before self.now uid proc }
    {
        self.uid.is_below(uid) || (self.uid.is(uid) && self.proc.is_below(proc))
    }

    /// Whether it stands behind that of a process on an object.
    pub fn is_after(&self, uid: Uid, proc: ProcId) -> bool
        ensures { result ≡ is_after (Some (uid, proc)) self.now }
    {
        uid.is_below(self.uid) || (uid.is(self.uid) && proc.is_below(self.proc))
    }

    /// Whether it is of another process, in conflict with a mode.
    pub fn conflicts(&self, proc: ProcId, mode: Mode) -> bool
        ensures { result ≡ conflicts proc mode self.now }
    {
        !proc.is(self.proc) && clash(proc, mode, self.proc, self.mode)
    }
}

/// A list of lock rows.
pub type LockRows = ItemList<LockRow>;
