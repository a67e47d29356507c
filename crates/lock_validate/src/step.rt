//! What a call of locking, unlocking or removal comes to.
use dom_history::{Dropped, Reply};
use ring_messages::Body;
use uid_names::{NodeId, Uid};

/// What a call comes to, and the pages that it dropped.
#[derive(Drop, Debug)]
pub enum Step {
    /// A home is asked.
    Send(NodeId, Body, Dropped),
    /// The operation waits for this page, which another process of the node has in transit.
    Wait(Uid, u32, Dropped),
    /// The operation ends with this reply.
    End(Reply, Dropped),
}
