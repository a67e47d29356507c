//! What a load, a store, or a call on a length or a mapping comes to at a desk.
ghost use Rattle.std.specs.Prelude.{◌≡◌, []};

use crate::tasks::Task;
use dom_history::{Dropped, Reply};
use ring_messages::Body;
use std::alloc::Global;
use uid_names::{NodeId, Uid};

/// What an access comes to, and the pages that the call dropped.
#[derive(Drop, Debug)]
pub enum Access {
    /// It is done, with this reply.
    Hit(Reply, Dropped),
    /// It needs an answer of a home to this request.
    Need(NodeId, Body, Dropped),
    /// It waits for this page, which another process of the node has in transit from its home.
    Wait(Uid, u32, Dropped),
    /// It is refused.
    Refuse(Reply, Dropped),
}

impl Access {
    /// It is done, and nothing was dropped.
    pub(crate) fn done(alloc: Global, reply: Reply) -> Access
        ensures { result ≡ Access.Hit reply [] }
    {
        Access::Hit(reply, Dropped::new(alloc))
    }

    /// It is refused, and nothing was dropped.
    pub(crate) fn refused(alloc: Global, reply: Reply) -> Access
        ensures { result ≡ Access.Refuse reply [] }
    {
        Access::Refuse(reply, Dropped::new(alloc))
    }
}

/// What the tests and the resident pages of a desk alone come to. It is small, so that what is answered at once
/// costs no room for a page.
#[derive(Drop, Debug)]
pub(crate) enum Local {
    /// It is done.
    Done(Reply),
    /// It is refused.
    Refused(Reply),
    /// The page of this load or store is not resident.
    Misses(Task),
}
