//! Directories, read from their bytes.
ghost use Rattle.std.specs.Prelude.{◌≡◌, ◌≢◌, ◌≤◌, ◌<◌, ℕ, None, Some, Err, length, true, IfOk, IfSome, MatchOption};
ghost use Rattle.std.specs.List.{list_any};
ghost use Rattle.dir_records.specs.declared.directory.DirFault.TheVariants as faults;
ghost use Rattle.dir_records.specs.declared.directory.TheConstants.{MOST_RECORDS};
ghost use Rattle.dir_records.specs.Directories.{slots_of, has_name as has_this_name, are_apart as names_are_apart, directory_of, rows_of, rows_in, row_named, placed_row, first_free};

use crate::component::{Component, MARKS};
use crate::row::{DirRow, RECORD_BYTES};
use crate::slot::{Slot, slot};
use std::alloc::{AllocError, AllocFailed, Global};
use std::marker::Model;
use thiserror::Error;
use uid_names::{ItemList, NoMemory};

/// The most records of a directory.
pub const MOST_RECORDS: usize = 128;

/// Rows of a directory, in their order.
pub type DirRows = ItemList<DirRow>;

/// Why no directory was read.
#[derive(Clone, Copy, Debug, PartialEq, Eq, Error)]
pub enum DirFault {
    /// The bytes are not those of a directory.
    #[error("a bad directory")]
    BadDir,
    #[error("no memory")]
    NoMemory,
}

impl From<AllocError> for DirFault {
    ghost from_gives = { λ _ e. e ≡ faults.NoMemory };

    fn from(_error: AllocError) -> DirFault {
        DirFault::NoMemory
    }
}

impl<T: Drop> From<AllocFailed<T>> for DirFault {
    ghost from_gives = { λ _ e. e ≡ faults.NoMemory };

    fn from(_error: AllocFailed<T>) -> DirFault {
        DirFault::NoMemory
    }
}

impl From<NoMemory> for DirFault {
    ghost from_gives = { λ _ e. e ≡ faults.NoMemory };

    fn from(_error: NoMemory) -> DirFault {
        DirFault::NoMemory
    }
}

/// The records; BadDir where one is of neither form.
fn slots(alloc: Global, records: &[[u8; RECORD_BYTES]]) -> Result<Vec<Slot>, DirFault>
    ensures read { IfOk result (λ slots. slots_of records.now ≡ Some slots.items) }
    ensures bad { result ≡ Err faults.BadDir → slots_of records.now ≡ None }
    ensures all { IfOk result (λ slots. length slots.items ≡ length records.now) }
{
    let mut slots = Vec::with_capacity(alloc, records.len())?;
    for record in records {
        let Some(slot) = slot(record) else {
            return Err(DirFault::BadDir);
        };
        // A `push` moves the row twice more.
        slots.reserve(1)?;
        slots.push_reserved(slot);
    }
    Ok(slots)
}

/// Whether a record has this name.
fn has_name(slot: &Slot, name: &Component) -> bool
    ensures { result ≡ has_this_name name.now slot.now }
{
    match slot {
        Some(row) => row.name.is(name),
        None => false,
    }
}

/// Whether one of the records has this name.
fn is_taken(slots: &[Slot], name: &Component) -> bool
    ensures { result ≡ list_any (has_this_name name.now) slots.now }
{
    for slot in slots {
        if has_name(slot, name) {
            return true;
        }
    }
    false
}

/// Whether no two records have one name.
fn are_apart(slots: &[Slot]) -> bool
    ensures { result ≡ names_are_apart slots.now }
{
    // The marks of the names that were passed.
    let mut marked = [false; MARKS];
    let mut i = slots.len();
    while 0 < i {
        i -= 1;
        if let Some(row) = &slots[i] {
            let mark = row.name.mark();
            // A name is looked for among them only where one of them has its mark.
            if marked[mark] && is_taken(&slots[i + 1..], &row.name) {
                return false;
            }
            marked[mark] = true;
        }
    }
    true
}

/// A directory that was read: its records, in their order.
#[derive(Drop)]
pub struct Directory {
    slots: Vec<Slot>,
}

impl Model for Directory {
    ghost use Rattle.std.specs.Prelude.{List};
    ghost use Rattle.dir_records.specs.Records.{Slot};
    ghost use Rattle.dir_records.specs.Directories.{IsDirectory};

    ghost Value = { List Slot };

    ghost view = { λ d. d.slots.items };

    ghost invariant = { λ d. IsDirectory d.slots.items };
}

/// The row of a name among the records.
fn find(slots: &[Slot], name: &Component) -> Option<DirRow>
    ensures { result ≡ row_named name.now slots.now }
{
    for slot in slots {
        if has_name(slot, name) {
            return *slot;
        }
    }
    None
}

/// The row of a name, and how many records stand before it.
fn placed(slots: &[Slot], name: &Component) -> Option<(usize, DirRow)>
    ensures value { result ≡ placed_row name.now slots.now }
    ensures within { IfSome result (λ placed. placed.0 < length slots.now) }
{
    for i in 0..slots.len() {
        if let Some(row) = &slots[i] {
            if row.name.is(name) {
                return Some((i, *row));
            }
        }
    }
    None
}

/// How many records stand before the first free one.
fn free_place(slots: &[Slot]) -> usize
    ensures value { result ≡ first_free slots.now }
    ensures within { result ≤ length slots.now }
{
    for i in 0..slots.len() {
        if slots[i].is_none() {
            return i;
        }
    }
    slots.len()
}

/// The rows among the records, in their order.
fn rows(alloc: Global, slots: &[Slot]) -> Result<DirRows, NoMemory>
    ensures { IfOk result (λ rows. rows ≡ rows_of slots.now) }
{
    let mut rows = ItemList::new(alloc);
    for slot in slots {
        if let Some(row) = slot {
            rows.push(*row)?;
        }
    }
    Ok(rows)
}

impl Directory {
    ghost use Rattle.dir_records.specs.Directories.{IsDirectory};

    /// The directory of these bytes; BadDir exactly where they are those of none.
    pub fn read(alloc: Global, bytes: &[u8]) -> Result<Directory, DirFault>
        ensures read { IfOk result (λ directory. directory_of bytes.now ≡ Some directory) }
        ensures bad { result ≡ Err faults.BadDir → directory_of bytes.now ≡ None }
    {
        if bytes.len() > MOST_RECORDS * RECORD_BYTES {
            return Err(DirFault::BadDir);
        }
        let (records, rest) = bytes.as_chunks::<RECORD_BYTES>();
        if !rest.is_empty() {
            return Err(DirFault::BadDir);
        }
        let slots = slots(alloc, records)?;
        if !are_apart(&slots) {
            return Err(DirFault::BadDir);
        }
        Ok(Directory { slots })
    }

    /// The row of a name. Takes no memory.
    pub fn find(&self, name: &Component) -> Option<DirRow>
        ensures { result ≡ row_named name.now self.now }
    {
        find(&self.slots, name)
    }

    /// The row of a name, and how many records stand before it. Takes no memory.
    pub fn placed(&self, name: &Component) -> Option<(usize, DirRow)>
        ensures value { result ≡ placed_row name.now self.now }
        ensures few { IfSome result (λ placed. placed.0 < MOST_RECORDS) }
    {
        placed(&self.slots, name)
    }

    /// How many records stand before the first free one; all where none is free. Takes no memory.
    pub fn free_place(&self) -> usize
        ensures value { result ≡ first_free self.now }
        ensures few { result ≤ MOST_RECORDS }
    {
        free_place(&self.slots)
    }

    /// The rows, in the order of their records.
    pub fn rows(&self, alloc: Global) -> Result<DirRows, NoMemory>
        ensures { IfOk result (λ rows. rows ≡ rows_of self.now) }
    {
        rows(alloc, &self.slots)
    }
}

/// The records of a directory that are not free, in their order; BadDir exactly where the bytes are those of none.
pub fn read_dir(alloc: Global, bytes: &[u8]) -> Result<DirRows, DirFault>
    ensures read { IfOk result (λ rows. rows_in bytes.now ≡ Some rows) }
    ensures bad { result ≡ Err faults.BadDir → rows_in bytes.now ≡ None }
{
    let directory = Directory::read(alloc, bytes)?;
    Ok(directory.rows(alloc)?)
}
