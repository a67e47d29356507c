//! What the machines ask and come to.
ghost use Rattle.std.specs.Prelude.{◌≡◌};
ghost use Rattle.naming_tree.specs.Walks.{at_row};

use dir_records::{Component, DirRow, DirRows};
use dom_history::{Op, Reply};
use uid_names::{ObjKind, Uid};

/// Where a name stands: in a directory.
#[derive(Clone, Copy, Debug, PartialEq, Eq)]
pub struct Within {
    pub dir: Uid,
    pub name: Component,
}

/// Where a path leads.
#[derive(Clone, Copy, Debug, PartialEq, Eq)]
pub enum Walked {
    /// `//`, which lists the nodes.
    Root,
    /// An object. `within` is None for a directory where a path starts; else the directory that has its name after
    /// all links.
    At {
        uid: Uid,
        kind: ObjKind,
        within: Option<Within>,
    },
}

impl Walked {
    /// The object of a row of a directory. Takes no memory.
    pub fn at_row(row: &DirRow, dir: Uid) -> Walked
        ensures { result ≡ at_row dir row.now }
    {
        Walked::At {
            uid: row.uid,
            kind: row.kind,
            within: Some(Within {
                dir,
                name: row.name,
            }),
        }
    }
}

/// What a machine comes to.
#[derive(Debug)]
pub enum NameResult {
    Found(Walked),
    Added(Uid),
    Removed,
    /// The directory that has the last name of a path, or is to have it.
    Under(Within),
    Rows(DirRows),
    /// The names of all nodes.
    Nodes,
    NoName,
    NameExists,
    NotDir,
    IsDir,
    DirFull,
    LinkLoop,
    BadDir,
    /// The first reply that refused an operation.
    Store(Reply),
}

// Of its own, so that what drops one calls this and does not take it apart in place.
impl Drop for NameResult {
    fn drop(self) {
        match self {
            NameResult::Found(_)
            | NameResult::Added(_)
            | NameResult::Removed
            | NameResult::Under(_)
            | NameResult::Rows(_)
            | NameResult::Nodes
            | NameResult::NoName
            | NameResult::NameExists
            | NameResult::NotDir
            | NameResult::IsDir
            | NameResult::DirFull
            | NameResult::LinkLoop
            | NameResult::BadDir
            | NameResult::Store(_) => {}
        }
    }
}

/// What a machine says: the next operation, or what it has come to.
#[derive(Drop, Debug)]
pub enum Step<R> {
    Do(Op),
    Over(R),
}

/// What a machine over names says.
pub type NameStep = Step<NameResult>;
