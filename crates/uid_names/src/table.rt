//! Tables with one row for each object, the objects rising.
ghost use Rattle.std.specs.Prelude.{◌≡◌, ◌<◌, ◌≤◌, false, [], length, is_ok, is_some, IsSome, MatchResult, OnOk, OnErr};
ghost use Rattle.uid_names.specs.Names.{ObjectName};
ghost use Rattle.uid_names.specs.Tables.{AreRising, row_of, place_of, with_row, without_row};

use crate::ids::Uid;
use crate::no_memory::NoMemory;
use std::alloc::Global;
use std::marker::Model;

/// What is kept of one object.
pub trait UidRow: Copy + Drop {
    /// The object's name.
    ghost name: { Self → ObjectName };

    /// The object.
    fn uid(&self) -> Uid
        ensures { result ≡ name self.now };
}

/// Where the row of an object stands; Err where it would.
fn search<R: UidRow>(rows: &[R], uid: Uid) -> Result<usize, usize>
    requires { AreRising R.name rows.now }
    ensures place { MatchResult result (λ at. at ≡ place_of R.name uid rows.now) (λ at. at ≡ place_of R.name uid rows.now) }
    ensures bound { MatchResult result (λ at. at < length rows.now) (λ at. at ≤ length rows.now) }
    ensures found { is_ok result ≡ is_some (row_of R.name uid rows.now) }
{
    rows.binary_search_by_key(&uid, |row| row.uid())
}

/// One row for each object of which something is kept.
#[derive(Drop, Debug)]
pub struct UidTable<R: UidRow> {
    rows: Vec<R>,
}

impl<R: UidRow> Model for UidTable<R> {
    ghost use Rattle.std.specs.Prelude.{List};
    ghost use Rattle.uid_names.specs.Tables.{AreRising};

    ghost Value = { List R };

    ghost view = { λ t. t.rows.items };

    ghost invariant = { λ t. AreRising R.name t.rows.items };
}

impl<R: UidRow> UidTable<R> {
    /// No row. Takes no memory.
    pub fn new(alloc: Global) -> UidTable<R>
        ensures { result ≡ [] }
    {
        UidTable {
            rows: Vec::new(alloc),
        }
    }

    /// The row of an object; None exactly where there is none. Takes no memory.
    pub fn of(&self, uid: Uid) -> Option<R>
        ensures { result ≡ row_of R.name uid self.now }
    {
        match search(&self.rows, uid) {
            Ok(at) => Some(self.rows[at]),
            Err(_) => None,
        }
    }

    /// The row takes the place of that of its object. Where there is no memory, nothing changes; it is wanted only
    /// where the object had no row.
    pub fn set(&mut self, row: R) -> Result<(), NoMemory>
        ensures set { OnOk result (self.new ≡ with_row R.name row self.old) }
        ensures refused { OnErr result (self.new ≡ self.old) }
        ensures memory { OnErr result (is_some (row_of R.name (R.name row) self.old) ≡ false) }
    {
        match search(&self.rows, row.uid()) {
            Ok(at) => self.rows[at] = row,
            Err(at) => self.rows.insert(at, row)?,
        }
        Ok(())
    }

    /// The row takes the place of that of its object, which has one. Takes no memory.
    pub fn replace(&mut self, row: R)
        requires { IsSome (row_of R.name (R.name row) self.old) }
        ensures { self.new ≡ with_row R.name row self.old }
    {
        match search(&self.rows, row.uid()) {
            Ok(at) => self.rows[at] = row,
            Err(_) => unreachable!(),
        }
    }

    /// The object has no row any more. Takes no memory.
    pub fn forget(&mut self, uid: Uid)
        ensures { self.new ≡ without_row R.name uid self.old }
    {
        if let Ok(at) = search(&self.rows, uid) {
            self.rows.remove(at);
        }
    }
}
