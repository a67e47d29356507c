//! Where walks have led: to a file, a mailbox or a directory that a command asks for, or to something else.
ghost use Rattle.std.specs.Prelude.{◌≡◌, IfOk};
ghost use Rattle.command_talks.specs.Arriving.{file_at as file_found_at, file_in as file_found_in, directory_at as directory_found_at, directory_in as directory_found_in, mail_at as mail_found_at, mail_in as mail_found_in};

use crate::outcome::Outcome;
use naming_tree::{NameResult, Walked};
use std::alloc::Global;
use uid_names::{ByteList, NoMemory, ObjKind, Uid};

/// Where a walk has led.
#[derive(Drop)]
pub enum Arrival {
    /// To an object such as is asked for.
    There(Uid),
    /// To something else: that is what the command comes to.
    Else(Outcome),
}

/// A file, or something that is none.
fn file_at(alloc: Global, at: &Walked) -> Result<Arrival, NoMemory>
    ensures { IfOk result (λ found. found ≡ file_found_at at.now) }
{
    match at {
        Walked::At {
            uid,
            kind: ObjKind::File,
            ..
        } => Ok(Arrival::There(*uid)),
        Walked::Root
        | Walked::At {
            kind: ObjKind::Directory,
            ..
        } => Ok(Arrival::Else(Outcome::Came(NameResult::IsDir))),
        Walked::At { .. } => {
            let text = ByteList::from_slice(alloc, b"not a file")?;
            Ok(Arrival::Else(Outcome::Written(text)))
        }
    }
}

/// Where a walk has led that looks for a file.
pub fn file_in(alloc: Global, come: NameResult) -> Result<Arrival, NoMemory>
    ensures { IfOk result (λ found. found ≡ file_found_in come) }
{
    match &come {
        NameResult::Found(at) => file_at(alloc, at),
        _ => Ok(Arrival::Else(Outcome::Came(come))),
    }
}

/// A mailbox, or something that is none.
fn mail_at(alloc: Global, at: &Walked) -> Result<Arrival, NoMemory>
    ensures { IfOk result (λ found. found ≡ mail_found_at at.now) }
{
    match at {
        Walked::At {
            uid,
            kind: ObjKind::Mail,
            ..
        } => Ok(Arrival::There(*uid)),
        _ => {
            let text = ByteList::from_slice(alloc, b"not a mailbox")?;
            Ok(Arrival::Else(Outcome::Written(text)))
        }
    }
}

/// Where a walk has led that looks for a mailbox.
pub fn mail_in(alloc: Global, come: NameResult) -> Result<Arrival, NoMemory>
    ensures { IfOk result (λ found. found ≡ mail_found_in come) }
{
    match &come {
        NameResult::Found(at) => mail_at(alloc, at),
        _ => Ok(Arrival::Else(Outcome::Came(come))),
    }
}

/// A directory, or something that is none.
fn directory_at(at: &Walked) -> Arrival
    ensures { result ≡ directory_found_at at.now }
{
    match at {
        Walked::Root => Arrival::Else(Outcome::Came(NameResult::Nodes)),
        Walked::At {
            uid,
            kind: ObjKind::Directory,
            ..
        } => Arrival::There(*uid),
        Walked::At { .. } => Arrival::Else(Outcome::Came(NameResult::NotDir)),
    }
}

/// Where one has led that looks for a directory.
pub fn directory_in(come: NameResult) -> Arrival
    ensures { result ≡ directory_found_in come }
{
    match &come {
        NameResult::Found(at) => directory_at(at),
        _ => Arrival::Else(Outcome::Came(come)),
    }
}
