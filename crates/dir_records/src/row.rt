//! The records of directories.
ghost use Rattle.std.specs.Prelude.{◌≡◌};
ghost use Rattle.dir_records.specs.Records.{row_bytes};

use crate::component::Component;
use uid_names::{ObjKind, Uid};

/// The bytes of a record.
pub const RECORD_BYTES: usize = 64;

/// A record of a directory that is not free: a name in it, and the object that it stands for.
#[derive(Clone, Copy, Debug, PartialEq, Eq)]
pub struct DirRow {
    pub kind: ObjKind,
    pub name: Component,
    pub uid: Uid,
}

/// The 64 bytes of a row. Takes no memory.
pub fn write_row(row: &DirRow) -> [u8; RECORD_BYTES]
    ensures { result ≡ row_bytes row.now }
{
    let mut bytes = [0; RECORD_BYTES];
    bytes[0] = row.kind.code();
    bytes[1] = row.name.bytes().len() as u8;
    bytes[2..34].copy_from_slice(row.name.filled());
    bytes[36..44].copy_from_slice(&row.uid.number().to_be_bytes());
    bytes
}
