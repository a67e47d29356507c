//! What no clause says: that sending finds memory, and what comes out of rings of one, two and 256 entries.
ghost use Rattle.std.specs.Prelude.{◌≡◌, ◌≤◌, IfOk};
ghost use Rattle.ring_messages.specs.Ranges.{IsBody};
ghost use Rattle.wire_links.specs.Wires.{wire_of, from_of, to_of, AreEnds, SameIn};

use Came::{Gone, Marked, Nothing, Taken};
use dom_history::{Fate, FaultPlan};
use ring_links::Waiting;
use ring_messages::{Body, Frame};
use samples::node;
use std::alloc::Global;
use std::test::Fail;
use wire_links::{Carried, Parcel, RING_ROOM, WireIn, WireOut, pair, pair_with_room};

/// What came out of a wire. In these tests a frame has its number on the link as that of its call and as its tick, and is process 1's; a mark
/// has its phase as its tick.
#[derive(Clone, Copy, Debug, PartialEq, Eq)]
enum Came {
    /// The frame of this number.
    Taken(u64),
    /// Word of a frame that is lost or late.
    Gone(u64),
    /// The mark of this phase.
    Marked(u32),
    Nothing,
    /// What these tests never sent.
    Other,
}

fn came_of(alloc: Global, carried: Carried) -> Result<Came, Fail> {
    match carried {
        Carried::Gone {
            proc,
            number,
            index,
            tick,
        } => {
            let is_it = proc == 1 && number == index && tick.value() == index;
            Ok(if is_it { Gone(index) } else { Came::Other })
        }
        Carried::Put(entry) => match (entry.waiting, &entry.received) {
            (Waiting::Copy(index), Parcel::Frame(bytes)) => {
                let frame = bytes.frame(alloc)?;
                let is_it = frame.proc() == 1 && frame.number() == index && frame.tick() == index;
                Ok(if is_it { Taken(index) } else { Came::Other })
            }
            (Waiting::Mark(phase), Parcel::Mark(tick)) => {
                let is_it = tick.value() == u64::from(phase);
                Ok(if is_it { Marked(phase) } else { Came::Other })
            }
            _ => Ok(Came::Other),
        },
    }
}

/// What comes next.
fn next(alloc: Global, into: &mut WireIn) -> Result<Came, Fail>
    ensures { SameIn into.old into.new }
{
    match into.take() {
        Some(carried) => came_of(alloc, carried),
        None => Ok(Nothing),
    }
}

/// The ends of the link from node 1 to node 2 over a ring of so many entries, by a plan in which the first frame has this fate.
fn wire(alloc: Global, room: usize, fate: Fate) -> Result<(WireOut, WireIn), Fail>
    ensures ends { IfOk result (λ r. AreEnds r.0 r.1) }
    ensures link { IfOk result (λ r. (from_of r.0 ≡ 1) × (to_of r.0 ≡ 2)) }
    ensures first { IfOk result (λ r. (wire_of r.0).frames ≡ 0) }
{
    let (one, two) = (node(1)?, node(2)?);
    let mut plan = FaultPlan::new(alloc);
    plan.set(one, two, 1, fate)?;
    Ok(pair_with_room(alloc, one, two, &plan, room)?)
}

/// The frame of this number on the link from node 1 to node 2.
fn frame(index: u64, body: Body) -> Result<Frame, Fail>
    requires low { 1 ≤ index }
    requires body { IsBody 2 body }
    ensures { IfOk result (λ m. (m.from ≡ 1) × (m.to ≡ 2) × (m.tick ≡ index)) }
{
    Ok(Frame::new(2, node(1)?, node(2)?, 1, index, index, body))
}

/// A digit for what came: of a frame its number, of word of one 3 more, of a mark 6 more than its phase.
fn digit(came: Came) -> u64 {
    match came {
        Taken(index) => index,
        Gone(index) => index.wrapping_add(3),
        Marked(phase) => u64::from(phase) + 6,
        Nothing | Came::Other => 0,
    }
}

/// Pushes and takes until nothing is left: all that came, as digits.
fn run_out(alloc: Global, out: &mut WireOut, into: &mut WireIn) -> Result<u64, Fail> {
    let mut digits = 0u64;
    for _ in 0..1_000u32 {
        let all = out.flush();
        let came = next(alloc, into)?;
        if came == Nothing && all {
            break;
        }
        digits = digits.wrapping_mul(10).wrapping_add(digit(came));
    }
    Ok(digits)
}

/// What comes out of a ring of so many entries where three replies are sent, each with a mark behind it, and the first has this
/// fate.
fn play(alloc: Global, room: usize, fate: Fate) -> Result<u64, Fail> {
    let (mut out, mut into) = wire(alloc, room, fate)?;
    for i in 0..3u32 {
        out.send(alloc, &frame(u64::from(i) + 1, Body::Done)?)?;
        out.send_mark(i + 1, u64::from(i) + 1)?;
        out.flush();
    }
    run_out(alloc, &mut out, &mut into)
}

#[test]
fn each_fate_goes_through_each_ring(rt: HostRuntime) -> Result<(), Fail> {
    for (fate, digits) in [
        (Fate::Pass, 172_839),
        (Fate::Lose, 472_839),
        (Fate::Twice(0), 1_172_839),
        (Fate::Twice(1), 1_721_839),
        (Fate::Late(0), 4_172_839),
        (Fate::Late(1), 4_721_839),
        (Fate::Late(2), 4_728_319),
        (Fate::Late(3), 472_839),
    ] {
        for room in [1, 2, 256] {
            assert_eq!(rt;
                play(rt.alloc(), room, fate)?,
                digits,
                "{fate:?} through {room}"
            );
        }
    }
    Ok(())
}

#[test]
fn a_request_that_is_lost_or_late_is_told_at_once(rt: HostRuntime) -> Result<(), Fail> {
    for (fate, told, first) in [
        (Fate::Pass, None, Taken(1)),
        (Fate::Lose, Some(1), Nothing),
        (Fate::Twice(0), None, Taken(1)),
        (Fate::Late(0), Some(1), Taken(1)),
        (Fate::Late(1), Some(1), Nothing),
    ] {
        let (mut out, mut into) = wire(rt.alloc(), 256, fate)?;
        let request = frame(1, Body::List { after: None })?;
        assert_eq!(rt; out.send(rt.alloc(), &request)?, told, "{fate:?}");
        assert!(rt; out.flush());
        assert_eq!(rt; next(rt.alloc(), &mut into)?, first, "{fate:?}");
    }
    Ok(())
}

#[test]
fn what_a_full_ring_does_not_take_waits_in_order(rt: HostRuntime) -> Result<(), Fail> {
    let alloc = rt.alloc();
    let (mut out, mut into) = wire(alloc, 2, Fate::Pass)?;
    out.send(alloc, &frame(1, Body::Done)?)?;
    out.send_mark(1, 1)?;
    assert!(rt; out.flush());
    out.send(alloc, &frame(2, Body::Done)?)?;
    assert!(rt; !out.flush());
    out.send_mark(2, 2)?;
    assert!(rt; !out.flush());
    assert_eq!(rt; next(alloc, &mut into)?, Taken(1));
    assert!(rt; !out.flush());
    assert_eq!(rt; next(alloc, &mut into)?, Marked(1));
    assert!(rt; out.flush());
    assert_eq!(rt; next(alloc, &mut into)?, Taken(2));
    assert_eq!(rt; next(alloc, &mut into)?, Marked(2));
    assert_eq!(rt; next(alloc, &mut into)?, Nothing);
    Ok(())
}

#[test]
fn one_hand_with_both_ends_knows_what_waits(rt: HostRuntime) -> Result<(), Fail> {
    let (mut out, mut into) = wire(rt.alloc(), 2, Fate::Pass)?;
    assert_eq!(rt; into.beside(&mut out), 0);
    out.send_mark(1, 1)?;
    out.send_mark(2, 2)?;
    out.send_mark(3, 3)?;
    assert_eq!(rt; into.beside(&mut out), 0);
    assert!(rt; !out.flush());
    assert_eq!(rt; into.beside(&mut out), 2);
    assert_eq!(rt; next(rt.alloc(), &mut into)?, Marked(1));
    assert_eq!(rt; into.beside(&mut out), 1);
    assert!(rt; out.flush());
    assert_eq!(rt; into.beside(&mut out), 2);
    assert_eq!(rt; next(rt.alloc(), &mut into)?, Marked(2));
    assert_eq!(rt; next(rt.alloc(), &mut into)?, Marked(3));
    assert_eq!(rt; into.beside(&mut out), 0);
    assert_eq!(rt; next(rt.alloc(), &mut into)?, Nothing);
    Ok(())
}

#[test]
fn a_pair_has_room_for_so_many_entries(rt: HostRuntime) -> Result<(), Fail> {
    let plan = FaultPlan::new(rt.alloc());
    let (mut out, mut into) = pair(rt.alloc(), node(1)?, node(2)?, &plan)?;
    for _ in 0..RING_ROOM {
        out.send_mark(1, 1)?;
    }
    assert!(rt; out.flush());
    out.send_mark(2, 2)?;
    assert!(rt; !out.flush());
    for _ in 0..RING_ROOM {
        assert_eq!(rt; next(rt.alloc(), &mut into)?, Marked(1));
    }
    assert!(rt; out.flush());
    assert_eq!(rt; next(rt.alloc(), &mut into)?, Marked(2));
    assert_eq!(rt; next(rt.alloc(), &mut into)?, Nothing);
    Ok(())
}
