//! How a step ends or asks a home.
ghost use Rattle.std.specs.Prelude.{◌≡◌, Some, []};
ghost use Rattle.ring_messages.specs.Bodies.{body_of_ask};
ghost use Rattle.fault_handler.specs.Changes.{with_call};
ghost use Rattle.fault_handler.specs.Invariant.{IsCallAtNode};
ghost use Rattle.fault_handler.specs.Conditions.{IsOf, IsNotAccessing, IsOther};

use crate::step::Step;
use dom_history::{Dropped, Reply};
use fault_handler::{Desk, OpenCall};
use ring_messages::Body;
use std::alloc::Global;
use uid_names::{NodeId, ProcId};

/// The operation ends, and no page was dropped.
pub(crate) fn end(alloc: Global, reply: Reply) -> Step
    ensures { result ≡ Step.End reply [] }
{
    Step::End(reply, Dropped::new(alloc))
}

/// A home is asked: the call is open from now on.
pub(crate) fn send(
    alloc: Global,
    desk: &mut Desk,
    proc: ProcId,
    call: OpenCall,
    home: NodeId,
    body: Body,
) -> Step
    requires own { IsOf desk.old proc }
    requires other { IsNotAccessing desk.old proc.number }
    requires call { IsOther (Some call) }
    requires home { IsCallAtNode desk.old.nodes call }
    ensures desk { desk.new ≡ with_call desk.old proc.number (Some call) }
    ensures step { result ≡ Step.Send home body [] }
{
    desk.set_open_call(proc, Some(call));
    Step::Send(home, body, Dropped::new(alloc))
}
