//! Rows in the order of their names.
ghost use Rattle.std.specs.Prelude.{◌≡◌, ◌≤◌, length, IfOk, OnOk};
ghost use Rattle.std.specs.List.{prefix_len};
ghost use Rattle.uid_names.specs.InOrder.{put_in_order};
ghost use Rattle.dir_records.specs.Listings.{row_below, by_name};

use crate::directory::DirRows;
use crate::row::DirRow;
use std::alloc::Global;
use std::cmp::Ordering;
use uid_names::{ItemList, NoMemory};

/// Whether a row comes before another by its name.
fn is_below(row: &DirRow, other: &DirRow) -> bool
    ensures { result ≡ row_below row.now other.now }
{
    match row.name.bytes().cmp(other.name.bytes()) {
        Ordering::Less => true,
        _ => false,
    }
}

/// How many rows in order stand before another.
fn place_among(rows: &[DirRow], row: &DirRow) -> usize
    ensures value { result ≡ prefix_len (λ x. row_below x row.now) rows.now }
    ensures within { result ≤ length rows.now }
{
    for i in 0..rows.len() {
        if !is_below(&rows[i], row) {
            return i;
        }
    }
    rows.len()
}

/// Puts a row at its place among rows in order.
fn put(rows: &mut Vec<DirRow>, row: &DirRow) -> Result<(), NoMemory>
    ensures { OnOk result (rows.new.items ≡ put_in_order row_below row.now rows.old.items) }
{
    let place = place_among(rows, row);
    rows.insert(place, *row)?;
    Ok(())
}

/// The rows in the order of their names.
pub fn by_name(alloc: Global, rows: &[DirRow]) -> Result<DirRows, NoMemory>
    ensures { IfOk result (λ sorted. sorted ≡ by_name rows.now) }
{
    let mut sorted = Vec::with_capacity(alloc, rows.len())?;
    for i in 0..rows.len() {
        put(&mut sorted, &rows[rows.len() - 1 - i])?;
    }
    Ok(ItemList::from_vec(sorted))
}
