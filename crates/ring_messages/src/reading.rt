//! Reading frames.
ghost use Rattle.std.specs.Prelude.{◌≡◌, ◌≢◌, ◌≤◌, ℕ, List, ◌+◌, ◌++◌, take, drop, length, Some, IfSome, IfNone, IfOk, Err, IsFalse, nat_lt};
ghost use Rattle.byteorder.specs.Endian.{big_number};
ghost use Rattle.uid_names.specs.FrameKinds.{kind_number};
ghost use Rattle.uid_names.specs.declared.frame_kind.FrameKind.TheVariants as kinds;
ghost use Rattle.ring_messages.specs.declared.frame.Head.{Head};
ghost use Rattle.ring_messages.specs.declared.frame.FrameFault.TheVariants as faults;
ghost use Rattle.ring_messages.specs.Frames.{Message};
ghost use Rattle.uid_names.specs.Wires.{wire_room};
ghost use Rattle.ring_messages.specs.Ranges.{IsBody, LiesWithin};
ghost use Rattle.ring_messages.specs.Spelling.{header, framed, spelling};
ghost use Rattle.ring_messages.specs.Spelled.{IsHead, IsFrame, Spells};
ghost use Rattle.ring_messages.specs.ReaderSteps.{Gives};
ghost use Rattle.ring_messages.specs.ReaderBodies.{empty_at, body_at, frame_at};

mod fields;
mod replies;
mod requests;
mod rows;

use crate::body::Body;
use crate::frame::{Frame, FrameFault, Head};
use byteorder::{BigEndian, ByteOrder};
use fields::end;
use std::alloc::Global;
use uid_names::{FrameKind, NODE_PROCESSES, NodeId};

/// The number in the eight bytes from a place on.
fn number_at(bytes: &[u8], at: usize) -> u64
    requires { at + 8 ≤ length bytes.now }
    ensures { result ≡ big_number 8 (drop at bytes.now) }
{
    BigEndian::read_u64(&bytes[at..])
}

/// The header that begins the bytes; None exactly where none does. Takes no memory.
pub fn head(bytes: &[u8]) -> Option<Head>
    ensures found { IfSome result (λ h. take 24 bytes.now ≡ header h) }
    ensures is_head { IfSome result IsHead }
    ensures long { IfSome result (λ _. 24 ≤ length bytes.now) }
    ensures none { IfNone result ((h : Head) → IsHead h → take 24 bytes.now ≢ header h) }
{
    if bytes.len() < 24 || bytes[5] != 0 || bytes[6] != 0 || bytes[7] != 0 {
        return None;
    }
    let version = bytes[0];
    if version < 1 || 2 < version {
        return None;
    }
    let proc = bytes[4];
    let number = number_at(bytes, 8);
    let tick = number_at(bytes, 16);
    if proc < 1 || NODE_PROCESSES < usize::from(proc) || number < 1 || tick < 1 {
        return None;
    }
    let kind = FrameKind::from_number(bytes[1])?;
    let from = NodeId::new(bytes[2])?;
    let to = NodeId::new(bytes[3])?;
    Some(Head {
        version,
        kind,
        from,
        to,
        proc,
        number,
        tick,
    })
}

/// The frame of a header and a body.
fn framed(head: &Head, body: Body) -> Frame
    requires head { IsHead head.now }
    requires body { IsBody head.now.to body }
    requires within { LiesWithin (wire_room head.now.version) body }
    ensures { result ≡ framed head.now body }
{
    Frame::new(
        head.version,
        head.from,
        head.to,
        head.proc,
        head.number,
        head.tick,
        body,
    )
}

/// The frame of an attr-out, from its header and the bytes behind it.
fn attr_out(head: &Head, rest: &[u8]) -> Result<Frame, FrameFault>
    requires head { IsHead head.now }
    requires kind { head.now.kind ≡ kinds.AttrOut }
    ensures { Gives (λ frame. frame) result (frame_at head.now rest.now) }
{
    let (uid, length, grant, base) = requests::attr_out(head.version, head.to, rest)?;
    let body = Body::AttrOut {
        uid,
        length,
        grant,
        base,
    };
    Ok(framed(head, body))
}

/// The frame of a page-out, from its header and the bytes behind it.
fn page_out(alloc: Global, head: &Head, rest: &[u8]) -> Result<Frame, FrameFault>
    requires head { IsHead head.now }
    requires kind { head.now.kind ≡ kinds.PageOut }
    ensures { Gives (λ frame. frame) result (frame_at head.now rest.now) }
{
    let (uid, page, grant, base, bytes) = requests::page_out(alloc, head.version, head.to, rest)?;
    let body = Body::PageOut {
        uid,
        page,
        grant,
        base,
        bytes,
    };
    Ok(framed(head, body))
}

/// The frame of a page, from its header and the bytes behind it.
fn page(alloc: Global, head: &Head, rest: &[u8]) -> Result<Frame, FrameFault>
    requires head { IsHead head.now }
    requires kind { head.now.kind ≡ kinds.Page }
    ensures { Gives (λ frame. frame) result (frame_at head.now rest.now) }
{
    let (stamp, bytes) = replies::page(alloc, head.version, rest)?;
    Ok(framed(head, Body::Page { stamp, bytes }))
}

/// The frame of a grant, from its header and the bytes behind it.
fn granted(head: &Head, rest: &[u8]) -> Result<Frame, FrameFault>
    requires head { IsHead head.now }
    requires kind { head.now.kind ≡ kinds.Granted }
    ensures { Gives (λ frame. frame) result (frame_at head.now rest.now) }
{
    let (grant, stamp, kind, room, length) = replies::granted(head.version, rest)?;
    let body = Body::Granted {
        grant,
        stamp,
        kind,
        room,
        length,
    };
    Ok(framed(head, body))
}

/// The frame of a body without fields, from its header and the bytes behind it.
fn empty(head: &Head, rest: &[u8], body: Body) -> Result<Frame, FrameFault>
    requires head { IsHead head.now }
    requires body { body_at head.now.version head.now.kind head.now.to rest.now ≡ empty_at body rest.now }
    ensures { Gives (λ frame. frame) result (frame_at head.now rest.now) }
{
    end(rest)?;
    Ok(framed(head, body))
}

/// The frame of a reply, from its header and the bytes behind it.
fn reply(alloc: Global, head: &Head, rest: &[u8]) -> Result<Frame, FrameFault>
    requires head { IsHead head.now }
    requires kind { IsFalse (nat_lt (kind_number head.now.kind) 128) }
    ensures { Gives (λ frame. frame) result (frame_at head.now rest.now) }
{
    match head.kind {
        FrameKind::Page => page(alloc, head, rest),
        FrameKind::Stored => {
            let stamp = replies::stamp(rest)?;
            Ok(framed(head, Body::Stored { stamp }))
        }
        FrameKind::Stale => {
            let stamp = replies::stamp(rest)?;
            Ok(framed(head, Body::Stale { stamp }))
        }
        FrameKind::NoGrant => empty(head, rest, Body::NoGrant),
        FrameKind::NoObject => empty(head, rest, Body::NoObject),
        FrameKind::Granted => granted(head, rest),
        FrameKind::Conflict => {
            let (proc, mode) = replies::conflict(rest)?;
            Ok(framed(head, Body::Conflict { proc, mode }))
        }
        FrameKind::Done => empty(head, rest, Body::Done),
        FrameKind::Made => {
            let uid = replies::made(rest)?;
            Ok(framed(head, Body::Made { uid }))
        }
        FrameKind::NoSpace => empty(head, rest, Body::NoSpace),
        FrameKind::Listed => {
            let (rows, more) = rows::listed(alloc, rest)?;
            Ok(framed(head, Body::Listed { rows, more }))
        }
        _ => unreachable!(),
    }
}

/// The frame of any kind but a lock, from its header and the bytes behind it.
// Not inlined, since `read` would then blank the room of each page and each frame here for every lock.
#[inline(never)]
fn other(alloc: Global, head: &Head, rest: &[u8]) -> Result<Frame, FrameFault>
    requires head { IsHead head.now }
    requires kind { head.now.kind ≢ kinds.Lock }
    ensures { Gives (λ frame. frame) result (frame_at head.now rest.now) }
{
    match head.kind {
        FrameKind::PageIn => {
            let (uid, page) = requests::page_in(head.version, head.to, rest)?;
            Ok(framed(head, Body::PageIn { uid, page }))
        }
        FrameKind::Lock => unreachable!(),
        FrameKind::Unlock => {
            let uid = requests::object_alone(head.to, rest)?;
            Ok(framed(head, Body::Unlock { uid }))
        }
        FrameKind::Remove => {
            let uid = requests::object_alone(head.to, rest)?;
            Ok(framed(head, Body::Remove { uid }))
        }
        FrameKind::Make => {
            let (kind, room) = requests::make(head.version, rest)?;
            Ok(framed(head, Body::Make { kind, room }))
        }
        FrameKind::List => {
            let after = requests::list(rest)?;
            Ok(framed(head, Body::List { after }))
        }
        FrameKind::AttrOut => attr_out(head, rest),
        FrameKind::PageOut => page_out(alloc, head, rest),
        _ => reply(alloc, head, rest),
    }
}

/// The frame that the bytes spell; BadFrame exactly where no frame spells them.
pub fn read(alloc: Global, bytes: &[u8]) -> Result<Frame, FrameFault>
    ensures found { IfOk result (λ frame. Spells frame bytes.now) }
    ensures bad { result ≡ Err faults.BadFrame → (m : Message) → IsFrame m → bytes.now ≢ spelling m }
{
    let Some(head) = head(bytes) else {
        return Err(FrameFault::BadFrame);
    };
    let rest = &bytes[24..];
    // A frame has room for a page, and is slow to move: a lock is made where it is answered.
    if let FrameKind::Lock = head.kind {
        let (uid, mode) = requests::lock(head.to, rest)?;
        return Ok(framed(&head, Body::Lock { uid, mode }));
    }
    let frame = other(alloc, &head, rest)?;
    Ok(frame)
}
