//! Frames of a lock, a page-out and a page, and journals of a thousand lines, written and read.
ghost use Rattle.std.specs.Prelude.{IfSome};
ghost use Rattle.dom_history.specs.Events.{IsKindNumber};

use crate::process;
use anyhow::Result;
use dom_history::{Dropped, Effects, EndWord, Event, EventList, NodeNames, Sent, What};
use journal_text::{LineBuffer, are_named, read_journal, write_journal};
use std::alloc::Global;
use uid_names::{ByteList, FrameKind, NoMemory, NodeId, Place};

/// A frame that is written and read.
#[derive(Clone, Copy)]
pub enum Sample {
    Lock,
    PageOut,
    /// A page that a home answers, in version 2.
    Page,
    /// The same, all whose bytes are zeros.
    Blank,
}

/// The bytes of a frame from node 1 to node 2.
fn put_frame(bytes: &mut ByteList, sample: Sample) -> Result<(), NoMemory> {
    let (version, kind, first): (u8, u8, &[u8]) = match sample {
        Sample::Lock => (1, 4, &[0, 0, 0, 0, 0, 0x20, 0, 2]),
        Sample::PageOut => (1, 2, &[0, 0, 0, 0, 0, 0x20, 0, 2]),
        Sample::Page | Sample::Blank => (2, 0x81, &[0, 0, 0, 0, 0, 0, 0, 1]),
    };
    bytes.extend(&[version, kind, 1, 2, 1, 0, 0, 0])?;
    bytes.extend(&[0, 0, 0, 0, 0, 0, 1, 9, 0, 0, 0, 0, 0, 0, 1, 9])?;
    bytes.extend(first)?;
    match sample {
        Sample::Lock => bytes.push(2),
        Sample::PageOut => {
            bytes.extend(&[0, 0, 0, 1, 0, 0, 0, 0, 0, 0, 0, 1, 0, 0, 0, 0, 0, 0, 0, 1])?;
            bytes.extend(&[7; 1024])
        }
        Sample::Page => {
            bytes.push(1)?;
            bytes.extend(&[7; 1024])
        }
        Sample::Blank => bytes.push(0),
    }
}

fn frame(alloc: Global, sample: Sample) -> Result<ByteList, NoMemory> {
    let mut bytes = ByteList::new(alloc);
    put_frame(&mut bytes, sample)?;
    Ok(bytes)
}

pub fn write_frames(rt: &HostRuntime, sample: Sample, count: u32) -> Result<(u64, u64)> {
    let bytes = frame(rt.alloc(), sample)?;
    let frame = ring_messages::read(rt.alloc(), bytes.bytes())?;
    timed!(rt, count, _i => {
        let bytes = ring_messages::write(rt.alloc(), &frame)?;
        u32::from(bytes.bytes().len() > 24)
    })
}

pub fn read_frames(rt: &HostRuntime, sample: Sample, count: u32) -> Result<(u64, u64)> {
    let bytes = frame(rt.alloc(), sample)?;
    timed!(rt, count, _i => {
        let frame = ring_messages::read(rt.alloc(), bytes.bytes())?;
        u32::from(frame.number() > 256)
    })
}

/// What an event sent, where it sent something.
fn sent_of(kind: Option<FrameKind>, to: NodeId, number: u64) -> Option<Sent>
    ensures { IfSome result (λ s. IsKindNumber s.kind) }
{
    let (kind, index) = (kind?.number(), number);
    Some(Sent {
        to,
        index,
        kind,
        number,
    })
}

/// An event of a node: at every third tick it begins to ask another node, at the next it answers that node, at the next it
/// takes the answer.
fn event(alloc: Global, tick: u64, node: NodeId, other: NodeId) -> Event {
    let (what, kind, ended) = match tick % 3 {
        0 => (What::Begin(1), Some(FrameKind::PageOut), None),
        1 => (What::Take(other, tick), Some(FrameKind::Granted), None),
        _ => (What::Take(other, tick), None, Some((1, EndWord::Fine))),
    };
    let (dropped, sent) = (Dropped::new(alloc), sent_of(kind, other, tick));
    let effects = Effects {
        dropped,
        sent,
        ended,
    };
    Event::new(Place { tick, node }, what, effects)
}

/// A thousand events of two nodes.
fn events(alloc: Global) -> Result<EventList, NoMemory> {
    let (node, other) = (process(1, 1).node(), process(2, 1).node());
    let mut events = EventList::new(alloc);
    for tick in 1..1001 {
        events.push(event(alloc, tick, node, other))?;
    }
    Ok(events)
}

/// Their names.
fn names(alloc: Global) -> Result<NodeNames, NoMemory> {
    let a = ByteList::from_slice(alloc, b"a")?;
    let b = ByteList::from_slice(alloc, b"b")?;
    NodeNames::from_list(alloc, &[a, b])
}

fn write(alloc: Global, events: &EventList, names: &NodeNames) -> Result<LineBuffer, NoMemory> {
    match are_named(events, names) {
        true => write_journal(alloc, events, names),
        false => Err(NoMemory),
    }
}

/// A journal has a thousand lines, and their room is found each time.
pub fn write_journals(rt: &HostRuntime, count: u32) -> Result<(u64, u64)> {
    let (events, names) = (events(rt.alloc())?, names(rt.alloc())?);
    timed!(rt, count, _i => {
        let lines = write(rt.alloc(), &events, &names)?;
        if lines.bytes().is_empty() { 0 } else { 1000 }
    })
}

pub fn read_journals(rt: &HostRuntime, count: u32) -> Result<(u64, u64)> {
    let (events, names) = (events(rt.alloc())?, names(rt.alloc())?);
    let lines = write(rt.alloc(), &events, &names)?;
    timed!(rt, count, _i => {
        let read = read_journal(rt.alloc(), lines.bytes(), &names)?;
        if read.items().len() == 1000 { 1000 } else { 0 }
    })
}
