//! Frames through a link over a ring, on one thread, and the same bytes through a ring without a link.
ghost use Rattle.std.specs.Prelude.{◌≡◌, ◌<◌, ◌^◌, IfOk};
ghost use Rattle.ring_messages.specs.Ranges.{IsBody};
ghost use Rattle.wire_links.specs.Wires.{from_of, to_of};

use crate::ring::Sample;
use crate::{object, process};
use anyhow::Result;
use dom_history::FaultPlan;
use ring_messages::{Body, Frame, PageBytes};
use rtrb::{Consumer, Producer, RingBuffer};
use std::alloc::Global;
use uid_names::{Mode, NoMemory};
use wire_links::{Carried, Parcel, RING_ROOM, Spelled, WireIn, WireOut, pair};

/// What a frame to node 2 carries.
fn body(alloc: Global, sample: Sample) -> Result<Body, NoMemory>
    ensures { IfOk result (IsBody 2) }
{
    let (uid, mode) = (object(), Mode::Write);
    match sample {
        Sample::Lock => Ok(Body::Lock { uid, mode }),
        Sample::PageOut => {
            let bytes = PageBytes::new(alloc, &[7; 1024])?;
            let (page, grant, base) = (0, 1, 1);
            Ok(Body::PageOut {
                uid,
                page,
                grant,
                base,
                bytes,
            })
        }
        Sample::Page => page(alloc, &[7; 1024]),
        Sample::Blank => page(alloc, &[0; 1024]),
    }
}

/// A page that a home answers.
fn page(alloc: Global, bytes: &[u8; 1024]) -> Result<Body, NoMemory>
    ensures { IfOk result (IsBody 2) }
{
    let bytes = PageBytes::new(alloc, bytes)?;
    Ok(Body::Page { stamp: 1, bytes })
}

/// A frame from node 1 to node 2.
fn frame(alloc: Global, sample: Sample) -> Result<Frame, NoMemory>
    ensures link { IfOk result (λ m. (m.from ≡ 1) × (m.to ≡ 2)) }
    ensures tick { IfOk result (λ m. m.tick < 2 ^ 40) }
{
    let (from, to) = (process(1, 1).node(), process(2, 1).node());
    Ok(Frame::new(2, from, to, 1, 9, 9, body(alloc, sample)?))
}

/// 1 for the bytes of a frame.
fn look(bytes: &Spelled) -> u32 {
    u32::from(bytes.bytes().len() > 24)
}

/// The two ends of the link from node 1 to node 2, and a frame for it.
#[derive(Drop)]
struct Side {
    out: WireOut,
    into: WireIn,
    frame: Frame,
    ghost link: { (frame.from ≡ from_of out) × (frame.to ≡ to_of out) },
    ghost early: { frame.tick < 2 ^ 40 },
}

impl Side {
    fn new(alloc: Global, sample: Sample) -> Result<Side, NoMemory> {
        let (from, to) = (process(1, 1).node(), process(2, 1).node());
        let plan = FaultPlan::new(alloc);
        let (out, into) = pair(alloc, from, to, &plan)?;
        let frame = frame(alloc, sample)?;
        Ok(Side { out, into, frame })
    }

    /// The frame is sent, pushed, taken and looked at; 1 where it came.
    fn send(&mut self, alloc: Global) -> Result<u32, NoMemory> {
        const MOST: u64 = 1 << 40;
        if self.out.frames() >= MOST {
            return Ok(0);
        }
        self.out.send(alloc, &self.frame)?;
        self.out.flush();
        match self.into.take() {
            Some(Carried::Put(entry)) => match &entry.received {
                Parcel::Frame(bytes) => Ok(look(bytes)),
                Parcel::Mark(_) => Ok(0),
            },
            _ => Ok(0),
        }
    }
}

pub fn send_frames(rt: &HostRuntime, sample: Sample, count: u32) -> Result<(u64, u64)> {
    let mut side = Side::new(rt.alloc(), sample)?;
    timed!(rt, count, _i => side.send(rt.alloc())?)
}

/// The bytes of a frame are made, pushed, popped and looked at; 1 where they came.
fn pass(
    alloc: Global,
    producer: &mut Producer<Spelled>,
    consumer: &mut Consumer<Spelled>,
    frame: &Frame,
) -> Result<u32, NoMemory>
    requires { frame.now.tick < 2 ^ 40 }
{
    if producer.push(Spelled::of(alloc, frame)?).is_err() {
        return Ok(0);
    }
    match consumer.pop() {
        Ok(bytes) => Ok(look(&bytes)),
        Err(_) => Ok(0),
    }
}

pub fn pass_bytes(rt: &HostRuntime, sample: Sample, count: u32) -> Result<(u64, u64)> {
    let frame = frame(rt.alloc(), sample)?;
    let (mut producer, mut consumer) = RingBuffer::new(rt.alloc(), RING_ROOM)?;
    timed!(rt, count, _i => pass(rt.alloc(), &mut producer, &mut consumer, &frame)?)
}
