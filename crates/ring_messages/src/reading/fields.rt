//! Fields of a frame. One that is read from the front of bytes answers its value and the bytes
//! behind it.
ghost use Rattle.std.specs.Prelude.{◌≡◌, ◌≤◌};
ghost use Rattle.uid_names.specs.Modes.{mode_of_code, object_of_code};
ghost use Rattle.uid_names.specs.declared.limits.TheConstants.{MAX_ROOM};
ghost use Rattle.ring_messages.specs.ReaderSteps.{Gives, end_at};
ghost use Rattle.ring_messages.specs.ReaderFields.{byte_at, be32_at, be64_at, bytes_at, full_at, page_of_form as page_by_form, formed_at, whole_at, page_at, length_at, room_at, count_at, uid_of, own_of, proc_of, flag_of};

use crate::frame::FrameFault;
use crate::page_bytes::PageBytes;
use byteorder::{BigEndian, ByteOrder};
use std::alloc::Global;
use uid_names::{Mode, NodeId, ObjKind, PAGE_BYTES, ProcId, Uid};

/// Nothing is left.
#[tactic(auto, unfolding(crate::specs::ReaderSteps::end_at))]
pub(super) fn end(bytes: &[u8]) -> Result<(), FrameFault>
    ensures { Gives (λ x. x) result (end_at bytes.now) }
{
    if bytes.is_empty() {
        Ok(())
    } else {
        Err(FrameFault::BadFrame)
    }
}

#[tactic(auto, unfolding(crate::specs::ReaderFields::byte_at))]
pub(super) fn byte(bytes: &[u8]) -> Result<(u8, &[u8]), FrameFault>
    ensures { Gives (λ x. (x.0, x.1.now)) result (byte_at bytes.now) }
{
    match bytes {
        [] => Err(FrameFault::BadFrame),
        [byte, rest @ ..] => Ok((*byte, rest)),
    }
}

#[tactic(auto, unfolding(crate::specs::ReaderFields::be32_at))]
fn number32(bytes: &[u8]) -> Result<(u32, &[u8]), FrameFault>
    ensures { Gives (λ x. (x.0, x.1.now)) result (be32_at bytes.now) }
{
    if bytes.len() < 4 {
        return Err(FrameFault::BadFrame);
    }
    Ok((BigEndian::read_u32(bytes), &bytes[4..]))
}

#[tactic(auto, unfolding(crate::specs::ReaderFields::be64_at))]
pub(super) fn number64(bytes: &[u8]) -> Result<(u64, &[u8]), FrameFault>
    ensures { Gives (λ x. (x.0, x.1.now)) result (be64_at bytes.now) }
{
    if bytes.len() < 8 {
        return Err(FrameFault::BadFrame);
    }
    Ok((BigEndian::read_u64(bytes), &bytes[8..]))
}

/// The bytes of a page.
#[tactic(auto, unfolding(crate::specs::ReaderFields::bytes_at))]
fn page_bytes(alloc: Global, bytes: &[u8]) -> Result<(PageBytes, &[u8]), FrameFault>
    ensures { Gives (λ x. (x.0, x.1.now)) result (bytes_at bytes.now) }
{
    if bytes.len() < PAGE_BYTES {
        return Err(FrameFault::BadFrame);
    }
    let (front, rest) = bytes.split_at(PAGE_BYTES);
    let mut page = [0; PAGE_BYTES];
    page.copy_from_slice(front);
    let page = PageBytes::new(alloc, &page)?;
    Ok((page, rest))
}

/// A page other than that of zeros.
#[tactic(auto, unfolding(crate::specs::ReaderFields::full_at))]
fn full_page(alloc: Global, bytes: &[u8]) -> Result<(PageBytes, &[u8]), FrameFault>
    ensures { Gives (λ x. (x.0, x.1.now)) result (full_at bytes.now) }
{
    let (page, rest) = page_bytes(alloc, bytes)?;
    if page.is_blank() {
        return Err(FrameFault::BadFrame);
    }
    Ok((page, rest))
}

/// A page, by its form and the bytes behind that.
#[tactic(auto, unfolding(crate::specs::ReaderFields::page_of_form, crate::specs::BlankPages::blank_page))]
fn page_of_form(alloc: Global, form: u8, bytes: &[u8]) -> Result<(PageBytes, &[u8]), FrameFault>
    ensures { Gives (λ x. (x.0, x.1.now)) result (page_by_form form bytes.now) }
{
    match form {
        0 => Ok((PageBytes::blank(), bytes)),
        1 => full_page(alloc, bytes),
        _ => Err(FrameFault::BadFrame),
    }
}

#[tactic(auto, unfolding(crate::specs::ReaderFields::formed_at))]
fn formed_page(alloc: Global, bytes: &[u8]) -> Result<(PageBytes, &[u8]), FrameFault>
    ensures { Gives (λ x. (x.0, x.1.now)) result (formed_at bytes.now) }
{
    let (form, rest) = byte(bytes)?;
    page_of_form(alloc, form, rest)
}

/// The bytes of a page, as a version writes them.
pub(super) fn whole_page(
    alloc: Global,
    version: u8,
    bytes: &[u8],
) -> Result<(PageBytes, &[u8]), FrameFault>
    ensures { Gives (λ x. (x.0, x.1.now)) result (whole_at version bytes.now) }
{
    if version == 1 {
        page_bytes(alloc, bytes)
    } else {
        formed_page(alloc, bytes)
    }
}

/// The number of a page in its object, below this room.
#[tactic(auto, unfolding(crate::specs::ReaderFields::page_at))]
pub(super) fn page(room: u32, bytes: &[u8]) -> Result<(u32, &[u8]), FrameFault>
    ensures { Gives (λ x. (x.0, x.1.now)) result (page_at room bytes.now) }
{
    let (page, rest) = number32(bytes)?;
    if page < room {
        Ok((page, rest))
    } else {
        Err(FrameFault::BadFrame)
    }
}

/// A length in bytes, within this room.
#[tactic(auto, unfolding(crate::specs::ReaderFields::length_at))]
pub(super) fn length(room: u32, bytes: &[u8]) -> Result<(u32, &[u8]), FrameFault>
    requires { room ≤ MAX_ROOM }
    ensures { Gives (λ x. (x.0, x.1.now)) result (length_at room bytes.now) }
{
    let (length, rest) = number32(bytes)?;
    if length <= PAGE_BYTES as u32 * room {
        Ok((length, rest))
    } else {
        Err(FrameFault::BadFrame)
    }
}

/// A room in pages, up to this one.
#[tactic(auto, unfolding(crate::specs::ReaderFields::room_at))]
pub(super) fn room(most: u32, bytes: &[u8]) -> Result<(u32, &[u8]), FrameFault>
    ensures { Gives (λ x. (x.0, x.1.now)) result (room_at most bytes.now) }
{
    let (room, rest) = number32(bytes)?;
    if 1 <= room && room <= most {
        Ok((room, rest))
    } else {
        Err(FrameFault::BadFrame)
    }
}

/// A grant, a base or a stamp, from 1.
#[tactic(auto, unfolding(crate::specs::ReaderFields::count_at))]
pub(super) fn count(bytes: &[u8]) -> Result<(u64, &[u8]), FrameFault>
    ensures { Gives (λ x. (x.0, x.1.now)) result (count_at bytes.now) }
{
    let (count, rest) = number64(bytes)?;
    if 1 <= count {
        Ok((count, rest))
    } else {
        Err(FrameFault::BadFrame)
    }
}

/// The object of this number.
#[tactic(auto, unfolding(crate::specs::ReaderFields::uid_of))]
pub(super) fn uid(number: u64) -> Result<Uid, FrameFault>
    ensures { Gives (λ u. u) result (uid_of number) }
{
    match Uid::from_number(number) {
        Ok(uid) => {
            let _number = uid.number();
            Ok(uid)
        }
        Err(_) => Err(FrameFault::BadFrame),
    }
}

/// The object of this number, of this home.
#[tactic(auto, unfolding(crate::specs::ReaderFields::own_of))]
pub(super) fn own(home: NodeId, number: u64) -> Result<Uid, FrameFault>
    ensures { Gives (λ u. u) result (own_of home number) }
{
    let uid = uid(number)?;
    if uid.home().number() == home.number() {
        Ok(uid)
    } else {
        Err(FrameFault::BadFrame)
    }
}

#[tactic(auto, unfolding(crate::specs::ReaderFields::proc_of))]
pub(super) fn proc(node: u8, number: u8) -> Result<ProcId, FrameFault>
    ensures { Gives (λ p. p) result (proc_of node number) }
{
    let node = NodeId::new(node).ok_or(FrameFault::BadFrame)?;
    ProcId::new(node, number).ok_or(FrameFault::BadFrame)
}

pub(super) fn mode(code: u8) -> Result<Mode, FrameFault>
    ensures { Gives (λ m. m) result (mode_of_code code) }
{
    Mode::from_code(code).ok_or(FrameFault::BadFrame)
}

pub(super) fn object(code: u8) -> Result<ObjKind, FrameFault>
    ensures { Gives (λ k. k) result (object_of_code code) }
{
    ObjKind::from_code(code).ok_or(FrameFault::BadFrame)
}

#[tactic(auto, unfolding(crate::specs::ReaderFields::flag_of))]
pub(super) fn flag(code: u8) -> Result<bool, FrameFault>
    ensures { Gives (λ b. b) result (flag_of code) }
{
    match code {
        0 => Ok(false),
        1 => Ok(true),
        _ => Err(FrameFault::BadFrame),
    }
}
