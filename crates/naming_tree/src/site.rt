//! Where walks are made.
ghost use Rattle.std.specs.Prelude.{◌≡◌};
ghost use Rattle.naming_tree.specs.Walks.{start_at, node_named, at_start, at_entry};

use crate::step::Walked;
use dir_records::Start;
use dom_history::NodeNames;
use uid_names::{NodeId, ObjKind, Uid};

/// The node of a process, and the names of all nodes.
pub struct Site {
    pub own: NodeId,
    pub names: NodeNames,
}

// Of its own, so that what drops one calls this and does not take it apart in place.
impl Drop for Site {
    fn drop(self) {
        let Site { own: _, names: _ } = self;
    }
}

impl Site {
    /// Where a path starts, if there is such a node. Takes no memory.
    pub fn start(&self, start: &Start, dir: Uid) -> Option<Walked>
        ensures { result ≡ start_at self.now dir start.now }
    {
        match start {
            Start::Root => Some(Walked::Root),
            Start::Node(name) => Some(entry(self.node(name.bytes())?)),
            Start::Own => Some(entry(self.own)),
            Start::Working => Some(directory(dir)),
        }
    }

    /// The node of a name.
    #[tactic(auto, using(crate::proofs::NodesNamed::named, crate::proofs::NodesNamed::unnamed))]
    fn node(&self, name: &[u8]) -> Option<NodeId>
        ensures { result ≡ node_named self.now.names name.now }
    {
        // No two nodes have one name.
        let _nodes = self.names.len();
        match self.names.number_of(name) {
            Some(node) => {
                let _number = node.number();
                Some(node)
            }
            None => None,
        }
    }
}

/// A directory where a path starts.
fn directory(uid: Uid) -> Walked
    ensures { result ≡ at_start uid }
{
    Walked::At {
        uid,
        kind: ObjKind::Directory,
        within: None,
    }
}

/// The entry directory of a node.
fn entry(node: NodeId) -> Walked
    ensures { result ≡ at_entry node }
{
    directory(Uid::from_parts(1, node))
}
