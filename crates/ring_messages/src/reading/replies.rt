//! The fields of replies without rows, from the bytes behind the header.
ghost use Rattle.std.specs.Prelude.{ℕ};
ghost use Rattle.ring_messages.specs.ReaderSteps.{Gives};
ghost use Rattle.ring_messages.specs.ReaderBodies.{body_at};
ghost use Rattle.uid_names.specs.declared.frame_kind.FrameKind.TheVariants as kinds;
ghost use Rattle.ring_messages.specs.declared.body.Body.TheVariants as bodies;

use super::fields::{
    byte, count, end, length, mode, number64, object, proc, room, uid, whole_page,
};
use crate::frame::FrameFault;
use crate::page_bytes::PageBytes;
use std::alloc::Global;
use uid_names::{Mode, ObjKind, ProcId, Uid, wire_room};

/// The stamp, and the bytes.
#[tactic(auto, unfolding(crate::specs::ReaderBodies::body_at))]
pub(super) fn page(alloc: Global, version: u8, bytes: &[u8]) -> Result<(u64, PageBytes), FrameFault>
    ensures { (to : ℕ) → Gives (λ x. bodies.Page x.0 x.1) result (body_at version kinds.Page to bytes.now) }
{
    let (stamp, rest) = count(bytes)?;
    let (bytes, rest) = whole_page(alloc, version, rest)?;
    end(rest)?;
    Ok((stamp, bytes))
}

/// The stamp of an answer to a write.
#[tactic(auto, unfolding(crate::specs::ReaderBodies::body_at))]
pub(super) fn stamp(bytes: &[u8]) -> Result<u64, FrameFault>
    ensures stored { (version to : ℕ) → Gives (λ n. bodies.Stored n) result (body_at version kinds.Stored to bytes.now) }
    ensures stale { (version to : ℕ) → Gives (λ n. bodies.Stale n) result (body_at version kinds.Stale to bytes.now) }
{
    let (stamp, rest) = count(bytes)?;
    end(rest)?;
    Ok(stamp)
}

/// The grant, the stamp, the kind, the room, and the length.
#[tactic(auto, unfolding(crate::specs::ReaderBodies::body_at))]
pub(super) fn granted(
    version: u8,
    bytes: &[u8],
) -> Result<(u64, u64, ObjKind, u32, u32), FrameFault>
    ensures { (to : ℕ) → Gives (λ x. bodies.Granted x.0 x.1 x.2 x.3 x.4) result (body_at version kinds.Granted to bytes.now) }
{
    let (grant, rest) = count(bytes)?;
    let (stamp, rest) = count(rest)?;
    let (code, rest) = byte(rest)?;
    let kind = object(code)?;
    let most = wire_room(version);
    let (room, rest) = room(most, rest)?;
    let (length, rest) = length(most, rest)?;
    end(rest)?;
    Ok((grant, stamp, kind, room, length))
}

/// The process that holds the object, and its mode.
#[tactic(auto, unfolding(crate::specs::ReaderBodies::body_at))]
pub(super) fn conflict(bytes: &[u8]) -> Result<(ProcId, Mode), FrameFault>
    ensures { (version to : ℕ) → Gives (λ x. bodies.Conflict x.0 x.1) result (body_at version kinds.Conflict to bytes.now) }
{
    let (node, rest) = byte(bytes)?;
    let (number, rest) = byte(rest)?;
    let proc = proc(node, number)?;
    let (code, rest) = byte(rest)?;
    let mode = mode(code)?;
    end(rest)?;
    Ok((proc, mode))
}

/// The object.
#[tactic(auto, unfolding(crate::specs::ReaderBodies::body_at))]
pub(super) fn made(bytes: &[u8]) -> Result<Uid, FrameFault>
    ensures { (version to : ℕ) → Gives (λ u. bodies.Made u) result (body_at version kinds.Made to bytes.now) }
{
    let (number, rest) = number64(bytes)?;
    let uid = uid(number)?;
    end(rest)?;
    Ok(uid)
}
