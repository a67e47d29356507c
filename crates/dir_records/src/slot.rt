//! Records of directories as they are read: free, or of a row. No function takes memory.
ghost use Rattle.std.specs.Prelude.{◌≡◌, take, drop};
ghost use Rattle.std.specs.Int.{w64, from_be_bytes};
ghost use Rattle.dir_records.specs.Records.{object_of_number, name_in, row_in, spelled, slot_of};

use crate::component::{COMPONENT_BYTES, Component};
use crate::row::{DirRow, RECORD_BYTES, write_row};
use uid_names::{ObjKind, Uid};

/// A record of a directory: None where it is free.
pub(crate) type Slot = Option<DirRow>;

/// The object of a number.
#[inline(always)]
fn object_of(number: u64) -> Option<Uid>
    ensures { result ≡ object_of_number number }
{
    match Uid::from_number(number) {
        Ok(uid) => {
            // Its number is what it was read from.
            let _number = uid.number();
            Some(uid)
        }
        Err(_) => None,
    }
}

/// The number that stands in a record.
#[inline(always)]
fn number_in(raw: &[u8; RECORD_BYTES]) -> u64
    ensures { result ≡ from_be_bytes w64 (take 8 (drop 36 raw.now)) }
{
    let mut bytes = [0; 8];
    bytes.copy_from_slice(&raw[36..44]);
    u64::from_be_bytes(bytes)
}

/// The name that stands in a record.
#[inline(always)]
fn name_in(raw: &[u8; RECORD_BYTES]) -> Option<Component>
    ensures { result ≡ name_in raw.now }
{
    let length = raw[1] as usize;
    if length > COMPONENT_BYTES {
        return None;
    }
    Component::read(&raw[2..2 + length])
}

/// The row that stands in the fields of a record; None where they are of none.
// Inlined, as are those beside it, so that a row is made where it is kept.
#[inline(always)]
fn row_in(raw: &[u8; RECORD_BYTES]) -> Option<DirRow>
    ensures { result ≡ row_in raw.now }
{
    let kind = ObjKind::from_code(raw[0])?;
    let name = name_in(raw)?;
    let uid = object_of(number_in(raw))?;
    Some(DirRow { kind, name, uid })
}

/// The row of a record, where the record is what is written of it.
#[inline(always)]
fn row_spelled(raw: &[u8; RECORD_BYTES]) -> Option<DirRow>
    ensures { result ≡ spelled raw.now (row_in raw.now) }
{
    let row = row_in(raw)?;
    if write_row(&row) == *raw {
        Some(row)
    } else {
        None
    }
}

/// What a record is; None where it is of neither form.
#[inline(always)]
pub(crate) fn slot(raw: &[u8; RECORD_BYTES]) -> Option<Slot>
    ensures { result ≡ slot_of raw.now }
{
    // The first byte of a row is no zero.
    if raw[0] == 0 && *raw == [0; RECORD_BYTES] {
        return Some(None);
    }
    Some(Some(row_spelled(raw)?))
}
