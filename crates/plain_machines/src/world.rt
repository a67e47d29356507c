//! A store of two nodes, and the process that works on it.
ghost use Rattle.std.specs.Prelude.{◌≡◌, ◌≤◌, length, IfOk};
ghost use Rattle.dom_history.specs.Ranges.{IsOp};
ghost use Rattle.dom_history.specs.Fitting.{Fits};

use crate::undone::{Result, Undone};
use dom_history::{NodeNames, Op, Reply, Spot};
use naming_tree::Site;
use plain_store::PlainStore;
use std::alloc::Global;
use uid_names::{ByteList, MAX_ROOM, NodeId, Opening, PAGE_BYTES, ProcId, Uid};

/// The most operations in a store.
pub const MOST_OPERATIONS: u64 = 1_000_000;

/// A store of the nodes `a` and `b`, and the node whose first process works on it.
#[derive(Drop)]
pub struct World {
    pub alloc: Global,
    own: NodeId,
    store: PlainStore,
    done: u64,
    /// Whether the next deletion is answered as one that meets a failing link, and not done.
    failing: bool,
    ghost counted: { length store.deeds ≤ done },
}

/// The node of this number.
pub fn node(number: u8) -> Result<NodeId>
    ensures { IfOk result (λ node. node ≡ number) }
{
    NodeId::new(number).ok_or(Undone::NoNode)
}

/// The process of this number at a node.
pub fn proc(node: NodeId, number: u8) -> Result<ProcId> {
    ProcId::new(node, number).ok_or(Undone::NoProcess)
}

impl World {
    /// A store in which nothing was done, and a process of node 1.
    pub fn new(alloc: Global) -> Result<World> {
        let opening = Opening::new(alloc, 2, MAX_ROOM);
        let store = PlainStore::new(alloc, &opening)?;
        let own = node(1)?;
        Ok(World {
            alloc,
            own,
            store,
            done: 0,
            failing: false,
        })
    }

    /// The node of the process.
    pub fn own(&self) -> NodeId {
        self.own
    }

    /// A process of this node works on.
    pub fn go_to(&mut self, own: NodeId) {
        self.own = own;
    }

    /// The entry directory of the process's node, in which it works.
    pub fn entry(&self) -> Uid {
        entry(self.own)
    }

    /// Where the process walks.
    pub fn site(&self) -> Result<Site> {
        let a = ByteList::from_slice(self.alloc, b"a")?;
        let b = ByteList::from_slice(self.alloc, b"b")?;
        Ok(Site {
            own: self.own,
            names: NodeNames::from_list(self.alloc, &[a, b])?,
        })
    }

    /// Lets the next deletion fail.
    pub fn fail_deletion(&mut self) {
        self.failing = true;
    }

    /// The store's reply to an operation of a process of the node.
    fn apply(&mut self, number: u8, op: &Op) -> Result<Reply>
        requires { IsOp op.now }
        ensures { IfOk result (Fits op.now) }
    {
        if self.done >= MOST_OPERATIONS {
            return Err(Undone::TooMany);
        }
        let proc = proc(self.own, number)?;
        self.done += 1;
        Ok(self.store.apply(self.alloc, proc, op)?)
    }

    /// The reply to an operation of the process.
    pub fn reply(&mut self, op: &Op) -> Result<Reply>
        requires { IsOp op.now }
        ensures { IfOk result (Fits op.now) }
    {
        match op {
            Op::Delete { .. } if self.failing => {
                self.failing = false;
                Ok(Reply::Kept)
            }
            _ => self.apply(1, op),
        }
    }

    /// The reply to an operation of another process of the node.
    pub fn reply_to_other(&mut self, op: &Op) -> Result<Reply>
        requires { IsOp op.now }
    {
        self.apply(2, op)
    }

    /// The reply to a store of that process, from a byte of an object on.
    pub fn store_by_other(&mut self, uid: Uid, at: u32, bytes: &[u8]) -> Result<Reply> {
        if bytes.is_empty() || bytes.len() > PAGE_BYTES - at as usize % PAGE_BYTES {
            return Err(Undone::NotOnePage);
        }
        let _number = uid.number();
        let spot = Spot::Of(uid, at);
        let bytes = ByteList::from_slice(self.alloc, bytes)?;
        self.reply_to_other(&Op::Store { spot, bytes })
    }
}

/// The entry directory of a node.
pub fn entry(node: NodeId) -> Uid {
    Uid::from_parts(1, node)
}
