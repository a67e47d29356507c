//! The fields of requests, from the bytes behind the header.
ghost use Rattle.std.specs.Prelude.{ℕ};
ghost use Rattle.ring_messages.specs.ReaderSteps.{Gives};
ghost use Rattle.ring_messages.specs.ReaderFields.{after_of};
ghost use Rattle.ring_messages.specs.ReaderBodies.{body_at};
ghost use Rattle.uid_names.specs.declared.frame_kind.FrameKind.TheVariants as kinds;
ghost use Rattle.ring_messages.specs.declared.body.Body.TheVariants as bodies;

use super::fields::{
    byte, count, end, flag, length, mode, number64, object, own, page, proc, room, uid, whole_page,
};
use crate::frame::FrameFault;
use crate::page_bytes::PageBytes;
use std::alloc::Global;
use uid_names::{Mode, NodeId, ObjKind, ProcId, Uid, wire_room};

/// The object, and the page.
#[tactic(auto, unfolding(crate::specs::ReaderBodies::body_at))]
pub(super) fn page_in(version: u8, to: NodeId, bytes: &[u8]) -> Result<(Uid, u32), FrameFault>
    ensures { Gives (λ x. bodies.PageIn x.0 x.1) result (body_at version kinds.PageIn to bytes.now) }
{
    let (number, rest) = number64(bytes)?;
    let uid = own(to, number)?;
    let (page, rest) = page(wire_room(version), rest)?;
    end(rest)?;
    Ok((uid, page))
}

/// The object, the page, the grant, the base, and the bytes.
#[tactic(auto, unfolding(crate::specs::ReaderBodies::body_at))]
pub(super) fn page_out(
    alloc: Global,
    version: u8,
    to: NodeId,
    bytes: &[u8],
) -> Result<(Uid, u32, u64, u64, PageBytes), FrameFault>
    ensures { Gives (λ x. bodies.PageOut x.0 x.1 x.2 x.3 x.4) result (body_at version kinds.PageOut to bytes.now) }
{
    let (number, rest) = number64(bytes)?;
    let uid = own(to, number)?;
    let (page, rest) = page(wire_room(version), rest)?;
    let (grant, rest) = count(rest)?;
    let (base, rest) = count(rest)?;
    let (bytes, rest) = whole_page(alloc, version, rest)?;
    end(rest)?;
    Ok((uid, page, grant, base, bytes))
}

/// The object, the length, the grant, and the base.
#[tactic(auto, unfolding(crate::specs::ReaderBodies::body_at))]
pub(super) fn attr_out(
    version: u8,
    to: NodeId,
    bytes: &[u8],
) -> Result<(Uid, u32, u64, u64), FrameFault>
    ensures { Gives (λ x. bodies.AttrOut x.0 x.1 x.2 x.3) result (body_at version kinds.AttrOut to bytes.now) }
{
    let (number, rest) = number64(bytes)?;
    let uid = own(to, number)?;
    let (length, rest) = length(wire_room(version), rest)?;
    let (grant, rest) = count(rest)?;
    let (base, rest) = count(rest)?;
    end(rest)?;
    Ok((uid, length, grant, base))
}

/// The object, and the mode.
#[tactic(auto, unfolding(crate::specs::ReaderBodies::body_at))]
pub(super) fn lock(to: NodeId, bytes: &[u8]) -> Result<(Uid, Mode), FrameFault>
    ensures { (version : ℕ) → Gives (λ x. bodies.Lock x.0 x.1) result (body_at version kinds.Lock to bytes.now) }
{
    let (number, rest) = number64(bytes)?;
    let uid = own(to, number)?;
    let (code, rest) = byte(rest)?;
    let mode = mode(code)?;
    end(rest)?;
    Ok((uid, mode))
}

/// The object of an unlock or a removal.
#[tactic(auto, unfolding(crate::specs::ReaderBodies::body_at))]
pub(super) fn object_alone(to: NodeId, bytes: &[u8]) -> Result<Uid, FrameFault>
    ensures unlock { (version : ℕ) → Gives (λ u. bodies.Unlock u) result (body_at version kinds.Unlock to bytes.now) }
    ensures remove { (version : ℕ) → Gives (λ u. bodies.Remove u) result (body_at version kinds.Remove to bytes.now) }
{
    let (number, rest) = number64(bytes)?;
    let uid = own(to, number)?;
    end(rest)?;
    Ok(uid)
}

/// The kind, and the room.
#[tactic(auto, unfolding(crate::specs::ReaderBodies::body_at))]
pub(super) fn make(version: u8, bytes: &[u8]) -> Result<(ObjKind, u32), FrameFault>
    ensures { (to : ℕ) → Gives (λ x. bodies.Make x.0 x.1) result (body_at version kinds.Make to bytes.now) }
{
    let (code, rest) = byte(bytes)?;
    let kind = object(code)?;
    let (room, rest) = room(wire_room(version), rest)?;
    end(rest)?;
    Ok((kind, room))
}

/// The row behind which rows begin, from a flag and the numbers behind it.
#[tactic(auto, unfolding(crate::specs::ReaderFields::after_of))]
fn after(
    is_there: bool,
    number: u64,
    node: u8,
    proc_number: u8,
) -> Result<Option<(Uid, ProcId)>, FrameFault>
    ensures { Gives (λ x. x) result (after_of is_there number node proc_number) }
{
    if is_there {
        let uid = uid(number)?;
        let proc = proc(node, proc_number)?;
        Ok(Some((uid, proc)))
    } else if number == 0 && node == 0 && proc_number == 0 {
        Ok(None)
    } else {
        Err(FrameFault::BadFrame)
    }
}

/// The row behind which the rows begin, if there is one.
#[tactic(auto, unfolding(crate::specs::ReaderBodies::body_at))]
pub(super) fn list(bytes: &[u8]) -> Result<Option<(Uid, ProcId)>, FrameFault>
    ensures { (version to : ℕ) → Gives (λ after. bodies.List after) result (body_at version kinds.List to bytes.now) }
{
    let (code, rest) = byte(bytes)?;
    let is_there = flag(code)?;
    let (number, rest) = number64(rest)?;
    let (node, rest) = byte(rest)?;
    let (proc, rest) = byte(rest)?;
    end(rest)?;
    let after = after(is_there, number, node, proc)?;
    Ok(after)
}
