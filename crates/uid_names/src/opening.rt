//! What there is at the start.
ghost use Rattle.std.specs.Prelude.{◌≡◌, ℕ, ◌≤◌, List, [], ◌∷◌, ◌++◌, length, All, IfOk, OnOk, OnErr};
ghost use Rattle.uid_names.specs.Openings.{IsUnnamed, IsStart, with_object};
ghost use Rattle.uid_names.specs.Beginnings.{entry_directory};

use crate::ids::{NodeId, Uid};
use crate::limits::{ENTRY_ROOM, MAX_ROOM};
use crate::mode::ObjKind;
use crate::no_memory::NoMemory;
use std::alloc::Global;
use std::marker::Model;

/// An object, with what is fixed when it is made. The room is in pages.
#[derive(Clone, Copy, Debug, PartialEq, Eq)]
pub struct Object {
    pub uid: Uid,
    pub kind: ObjKind,
    pub room: u32,
}

impl Object {
    /// The entry directory of a node, which is there from the start.
    pub fn entry_directory(node: NodeId) -> Object
        ensures { result ≡ entry_directory node }
    {
        Object {
            uid: Uid::from_parts(1, node),
            kind: ObjKind::Directory,
            room: ENTRY_ROOM,
        }
    }
}

/// The number of nodes, the greatest room, and the objects that are there from the start beside
/// each node's entry directory.
#[derive(Drop, Debug)]
pub struct Opening {
    nodes: u8,
    greatest: u32,
    objects: Vec<Object>,
}

impl Model for Opening {
    ghost use Rattle.uid_names.specs.Openings.{Start, IsStart};

    ghost Value = { Start };

    ghost view = { λ o. record { nodes = o.nodes; greatest = o.greatest; objects = o.objects.items } };

    ghost invariant = { λ o. IsStart (record { nodes = o.nodes; greatest = o.greatest; objects = o.objects.items }) };
}

impl Opening {
    /// An opening without objects. Takes no memory.
    pub fn new(alloc: Global, nodes: u8, greatest: u32) -> Opening
        requires nodes { (1 ≤ nodes) × (nodes ≤ 8) }
        requires greatest { (1 ≤ greatest) × (greatest ≤ MAX_ROOM) }
        ensures { result ≡ record { nodes = nodes; greatest = greatest; objects = [] } }
    {
        Opening {
            nodes,
            greatest,
            objects: Vec::new(alloc),
        }
    }

    /// Adds an object.
    pub fn add(&mut self, uid: Uid, kind: ObjKind, room: u32) -> Result<(), NoMemory>
        requires absent { IsUnnamed uid self.old.objects }
        requires counter { 2 ≤ uid.counter }
        requires home { uid.home ≤ self.old.nodes }
        requires room { (1 ≤ room) × (room ≤ self.old.greatest) }
        ensures ok { OnOk result (self.new ≡ with_object self.old (record { uid = uid; kind = kind; room = room })) }
        ensures err { OnErr result (self.new ≡ self.old) }
    {
        self.objects.push(Object { uid, kind, room })?;
        Ok(())
    }

    /// The number of nodes, 1 to 8.
    pub fn nodes(&self) -> u8
        ensures value { result ≡ self.now.nodes }
        ensures start { IsStart self.now }
    {
        self.nodes
    }

    /// The greatest room that an object may have, in pages.
    pub fn greatest(&self) -> u32
        ensures { result ≡ self.now.greatest }
    {
        self.greatest
    }

    /// The objects beside the entry directories.
    pub fn objects(&self) -> &[Object]
        ensures { result.now ≡ self.now.objects }
    {
        self.objects.as_slice()
    }

    /// A copy.
    pub fn copy(&self, alloc: Global) -> Result<Opening, NoMemory>
        ensures { IfOk result (λ copy. copy ≡ self.now) }
    {
        let objects = Vec::from_slice(alloc, self.objects.as_slice())?;
        Ok(Opening {
            nodes: self.nodes,
            greatest: self.greatest,
            objects,
        })
    }
}
