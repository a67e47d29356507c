//! What the call of a desk makes of an operation, in one form.
ghost use Rattle.std.specs.Prelude.{◌≡◌, Some, IsSome};
ghost use Rattle.fault_handler.specs.Outcomes.{seen_access};
ghost use Rattle.lock_validate.specs.Steps.{seen_step};
ghost use Rattle.node_core.specs.DeskMoves.{move_seen};

use crate::asked::Request;
use dom_history::{Dropped, Reply};
use fault_handler::Access;
use lock_validate::Step;
use uid_names::{NodeId, Uid};

/// What a desk's call makes of the operation whose call it is, and the pages that the call dropped.
#[derive(Drop)]
pub(crate) enum DeskMove {
    /// It ends with this reply.
    Ends(Reply, Dropped),
    /// It asks a home.
    Asks(NodeId, Request, Dropped),
    /// It waits for this page, which another process of the node has in transit.
    Waits(Uid, u32, Dropped),
}

impl DeskMove {
    /// What an access comes to.
    #[inline(always)]
    pub(crate) fn of_access(access: Access) -> DeskMove
        requires { IsSome (seen_access access) }
        ensures { seen_access access ≡ Some (move_seen result) }
    {
        match access {
            Access::Hit(reply, dropped) => DeskMove::Ends(reply, dropped),
            Access::Refuse(reply, dropped) => DeskMove::Ends(reply, dropped),
            Access::Need(home, body, dropped) => {
                DeskMove::Asks(home, Request::from_body(body), dropped)
            }
            Access::Wait(uid, page, dropped) => DeskMove::Waits(uid, page, dropped),
        }
    }

    /// What a step of locking, unlocking or removal comes to.
    #[inline(always)]
    pub(crate) fn of_step(step: Step) -> DeskMove
        requires { IsSome (seen_step step) }
        ensures { seen_step step ≡ Some (move_seen result) }
    {
        match step {
            Step::End(reply, dropped) => DeskMove::Ends(reply, dropped),
            Step::Send(home, body, dropped) => {
                DeskMove::Asks(home, Request::from_body(body), dropped)
            }
            Step::Wait(uid, page, dropped) => DeskMove::Waits(uid, page, dropped),
        }
    }
}
