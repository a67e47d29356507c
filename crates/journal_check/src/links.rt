//! Where the things of a link stand, among those of all links of so many nodes.
ghost use Rattle.std.specs.Prelude.{◌≡◌, ◌-◌, ◌≤◌, ◌<◌, ◌*◌, IsTrue, ◌↔◌};
ghost use Rattle.uid_names.specs.declared.limits.TheConstants.{MAX_NODES};
ghost use Rattle.fault_handler.specs.Desks.{IsNode};
ghost use Rattle.journal_check.specs.Links.{link_place};

use uid_names::NodeId;

/// Where a node stands among all.
pub fn place_of(node: NodeId) -> usize
    ensures value { result ≡ node - 1 }
    ensures bound { result < MAX_NODES }
{
    usize::from(node.number()) - 1
}

/// Whether there is such a node among so many.
pub fn is_among(node: NodeId, nodes: usize) -> bool
    ensures { IsTrue result ↔ IsNode nodes node }
{
    place_of(node) < nodes
}

/// The place of a link among those of so many nodes.
pub fn link_of(from: NodeId, to: NodeId, nodes: usize) -> usize
    requires few { nodes ≤ MAX_NODES }
    requires from { IsNode nodes from }
    requires to { IsNode nodes to }
    ensures value { result ≡ link_place nodes from to }
    ensures within { result < nodes * nodes }
{
    place_of(from) * nodes + place_of(to)
}
