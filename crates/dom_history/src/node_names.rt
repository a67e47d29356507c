//! The names of the nodes.
ghost use Rattle.std.specs.Prelude.{◌≡◌, ◌≢◌, ℕ, ◌<◌, [], Some, length, slice_index_or, All, IfOk, IfSome, MatchOption};
ghost use Rattle.std.specs.Option.{option_copied};
ghost use Rattle.dom_history.specs.NodeTexts.{AreNodeNames, name_of};

use std::alloc::Global;
use std::marker::Model;
use uid_names::{ByteList, NoMemory, NodeId};

/// The name of each node: that of node 1 first.
#[derive(Drop, Debug)]
pub struct NodeNames {
    names: Vec<ByteList>,
}

impl Model for NodeNames {
    ghost use Rattle.std.specs.Prelude.{ℕ, List};
    ghost use Rattle.dom_history.specs.NodeTexts.{AreNodeNames};

    ghost Value = { List (List ℕ) };

    ghost view = { λ n. n.names.items };

    ghost invariant = { λ n. AreNodeNames n.names.items };
}

/// Where a name stands among these.
fn place_of(names: &[ByteList], name: &[u8]) -> Option<usize>
    ensures found { MatchOption result (All (λ other. other ≢ name.now) names.now) (λ at. slice_index_or names.now at [] ≡ name.now) }
    ensures bound { IfSome result (λ at. at < length names.now) }
{
    names.iter().position(|other| other.bytes() == name)
}

impl NodeNames {
    /// Copies of these names.
    pub fn from_list(alloc: Global, names: &[ByteList]) -> Result<NodeNames, NoMemory>
        requires { AreNodeNames names.now }
        ensures { IfOk result (λ list. list ≡ names.now) }
    {
        let mut copies = Vec::new(alloc);
        for name in names {
            copies.push(name.copy(alloc)?)?;
        }
        Ok(NodeNames { names: copies })
    }

    /// How many nodes have a name, at least one. Takes no memory.
    pub fn len(&self) -> usize
        ensures value { result ≡ length self.now }
        ensures names { AreNodeNames self.now }
    {
        self.names.len()
    }

    /// The name of a node; None exactly where it has none. Takes no memory.
    pub fn name(&self, node: NodeId) -> Option<&[u8]>
        ensures { option_copied result ≡ name_of self.now node }
    {
        match self.names.get(node.number() as usize - 1) {
            Some(name) => Some(name.bytes()),
            None => None,
        }
    }

    /// The node of this name; None exactly where none has it. Takes no memory.
    pub fn number_of(&self, name: &[u8]) -> Option<NodeId>
        ensures { MatchOption result (All (λ other. other ≢ name.now) self.now) (λ node. name_of self.now node ≡ Some name.now) }
    {
        match place_of(&self.names, name) {
            Some(at) => NodeId::new(at as u8 + 1),
            None => None,
        }
    }

    /// The names, that of node 1 first. Takes no memory.
    pub fn items(&self) -> &[ByteList]
        ensures { result.now ≡ self.now }
    {
        self.names.as_slice()
    }
}
