//! What no clause says: that places of events find memory.
ghost use Rattle.std.specs.Prelude.{◌≡◌, IfOk, IfSome};
ghost use Rattle.dom_history.specs.Events.{IsKindNumber};
ghost use Rattle.world_runs.specs.NamedNodes.{NamesNodes};

use dom_history::{Dropped, Effects, Event, FaultPlan, Sent, What};
use journal_check::Places;
use samples::node;
use std::alloc::Global;
use std::test::Fail;
use uid_names::{FrameKind, NodeId, Place};

/// The first frame to a node.
fn first_to(to: NodeId) -> Option<Sent>
    ensures kind { IfSome result (λ sent. IsKindNumber sent.kind) }
    ensures to { IfSome result (λ sent. sent.to ≡ to) }
{
    Some(Sent {
        index: 1,
        number: 1,
        to,
        kind: FrameKind::Lock.number(),
    })
}

/// Process 1 of node 1 begins, and node 2 is sent the first frame of that link.
fn sends(alloc: Global) -> Result<Event, Fail>
    ensures { IfOk result (NamesNodes 2) }
{
    let effects = Effects {
        dropped: Dropped::new(alloc),
        sent: first_to(node(2)?),
        ended: None,
    };
    let place = Place {
        tick: 1,
        node: node(1)?,
    };
    Ok(Event::new(place, What::Begin(1), effects))
}

/// Node 1 takes the first frame from node 2.
fn takes(alloc: Global) -> Result<Event, Fail>
    ensures { IfOk result (NamesNodes 2) }
{
    let effects = Effects {
        dropped: Dropped::new(alloc),
        sent: None,
        ended: None,
    };
    let place = Place {
        tick: 1,
        node: node(1)?,
    };
    Ok(Event::new(place, What::Take(node(2)?, 1), effects))
}

/// The line at fault where this event, by line 1, is the only one of two nodes whose links lose nothing.
fn fault_of(alloc: Global, event: &Event) -> Result<Option<u64>, Fail>
    requires { NamesNodes 2 event.now }
{
    let plan = FaultPlan::new(alloc);
    let mut places = Places::new(alloc, &plan, 2)?;
    places.add(alloc, 1, event, false)?;
    Ok(places.first_fault())
}

#[test]
fn a_frame_that_was_never_sent_is_taken_nowhere(rt: HostRuntime) -> Result<(), Fail> {
    let alloc = rt.alloc();
    assert!(rt; fault_of(alloc, &sends(alloc)?)? == None);
    assert!(rt; fault_of(alloc, &takes(alloc)?)? == Some(1));
    Ok(())
}
