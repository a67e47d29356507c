//! What an entry of a ring is to the node at its end.
ghost use Rattle.std.specs.Prelude.{◌<◌, ◌^◌, IfOk, IfSome, IfNone};
ghost use Rattle.node_runs.specs.Incomings.{tick_of};
ghost use Rattle.node_core.specs.Receivings.{seen};
ghost use Rattle.wire_links.specs.declared.carried.Parcel.TheVariants as parcel;
ghost use Rattle.ring_links.specs.declared.entry.Waiting.TheVariants as waiting;
ghost use Rattle.node_posts.specs.Reading.{IsEntryEvent, IsEventFor, IsEntryOdd, IsOdd};

use dom_history::What;
use node_core::Incoming;
use ring_links::{Entry, Waiting};
use std::alloc::Global;
use uid_names::{NoMemory, NodeId};
use wire_links::{Carried, Parcel, Spelled};

/// The event that takes the frame of these bytes, and what it receives.
fn read_frame(
    alloc: Global,
    from: NodeId,
    index: u64,
    bytes: &Spelled,
) -> Result<(What, Incoming), NoMemory>
    ensures event { IfOk result (λ e. IsEntryEvent from (waiting.Copy index) (parcel.Frame bytes.now) e.0 (seen e.1)) }
    ensures early { IfOk result (λ e. tick_of (seen e.1) < 2 ^ 40) }
{
    let frame = bytes.frame(alloc)?;
    Ok((What::Take(from, index), Incoming::Frame(frame)))
}

/// The event that takes an entry of the link from a node, and what it receives; None for an entry that no wire puts.
fn read_entry(
    alloc: Global,
    from: NodeId,
    entry: &Entry<Parcel>,
) -> Result<Option<(What, Incoming)>, NoMemory>
    ensures event { IfOk result (λ read. IfSome read (λ e. IsEntryEvent from entry.now.waiting entry.now.received e.0 (seen e.1))) }
    ensures odd { IfOk result (λ read. IfNone read (IsEntryOdd entry.now.waiting entry.now.received)) }
    ensures early { IfOk result (λ read. IfSome read (λ e. tick_of (seen e.1) < 2 ^ 40)) }
{
    match (entry.waiting, &entry.received) {
        (Waiting::Copy(index), Parcel::Frame(bytes)) => Ok(Some(read_frame(
            alloc, from, index, bytes,
        )?)),
        (Waiting::Mark(phase), Parcel::Mark(tick)) => {
            let tick = tick.value();
            Ok(Some((What::Mark(from, phase), Incoming::Mark { tick })))
        }
        _ => Ok(None),
    }
}

/// The event of what came out of the ring from a node to another, and what it receives; None for an entry that no wire puts.
pub(crate) fn read_carried(
    alloc: Global,
    from: NodeId,
    to: NodeId,
    carried: &Carried,
) -> Result<Option<(What, Incoming)>, NoMemory>
    ensures event { IfOk result (λ read. IfSome read (λ e. IsEventFor from to carried.now e.0 (seen e.1))) }
    ensures odd { IfOk result (λ read. IfNone read (IsOdd carried.now)) }
    ensures early { IfOk result (λ read. IfSome read (λ e. tick_of (seen e.1) < 2 ^ 40)) }
{
    match carried {
        Carried::Put(entry) => read_entry(alloc, from, entry),
        Carried::Gone {
            proc,
            number,
            index,
            tick,
        } => {
            let what = What::Notice(*proc, from, to, *index);
            let (number, tick) = (*number, tick.value());
            Ok(Some((what, Incoming::Gone { number, tick })))
        }
    }
}
