//! Writing frames.
ghost use Rattle.std.specs.Prelude.{◌≡◌, ◌+◌, ◌^◌, ◌<◌, ◌++◌, List, [], ◌∷◌, length, All, IsTrue, IsFalse, IfOk, OnOk};
ghost use Rattle.uid_names.specs.Modes.{mode_code, object_code};
ghost use Rattle.std.specs.List.{flat_map};
ghost use Rattle.uid_names.specs.Names.{IsName, IsProcName};
ghost use Rattle.ring_messages.specs.Bodies.{is_request};
ghost use Rattle.ring_messages.specs.Frames.{IsInRange};
ghost use Rattle.ring_messages.specs.Ranges.{IsBody};
ghost use Rattle.ring_messages.specs.BlankPages.{is_blank};
ghost use Rattle.ring_messages.specs.Spelling.{be32, be64, uid_bytes, proc_bytes, row_bytes, flag, after_bytes, formed, page_bytes, body_bytes, header, head_of, spelling};
ghost use Rattle.ring_messages.specs.Spelled.{IsRow, AreBytes, IsAfter, IsTypedBody, IsHead, Spells};
ghost use Rattle.ring_messages.specs.Sizes.{page_size, body_size};

use crate::body::Body;
use crate::frame::Frame;
use crate::page_bytes::{PageBytes, is_blank};
use byteorder::{BigEndian, ByteOrder};
use std::alloc::Global;
use uid_names::{ByteList, LockRow, Mode, NoMemory, ObjKind, PAGE_BYTES, ProcId, Uid};

#[tactic(auto, unfolding(crate::specs::Spelling::be32))]
fn put_u32(out: &mut ByteList, n: u32) -> Result<(), NoMemory>
    ensures { OnOk result (out.new ≡ out.old ++ be32 n) }
{
    let mut bytes = [0; 4];
    BigEndian::write_u32(&mut bytes, n);
    out.extend(&bytes)
}

#[tactic(auto, unfolding(crate::specs::Spelling::be64))]
fn put_u64(out: &mut ByteList, n: u64) -> Result<(), NoMemory>
    ensures { OnOk result (out.new ≡ out.old ++ be64 n) }
{
    let mut bytes = [0; 8];
    BigEndian::write_u64(&mut bytes, n);
    out.extend(&bytes)
}

fn put_uid(out: &mut ByteList, uid: Uid) -> Result<(), NoMemory>
    ensures text { OnOk result (out.new ≡ out.old ++ uid_bytes uid) }
    ensures name { OnOk result (IsName uid) }
{
    put_u64(out, uid.number())
}

fn put_proc(out: &mut ByteList, proc: ProcId) -> Result<(), NoMemory>
    ensures text { OnOk result (out.new ≡ out.old ++ proc_bytes proc) }
    ensures is_proc { OnOk result (IsProcName proc) }
{
    out.extend(&[proc.node().number(), proc.number()])
}

fn put_row(out: &mut ByteList, row: &LockRow) -> Result<(), NoMemory>
    ensures text { OnOk result (out.new ≡ out.old ++ row_bytes row.now) }
    ensures is_row { OnOk result (IsRow row.now) }
{
    put_uid(out, row.uid)?;
    put_proc(out, row.proc)?;
    out.push(row.mode.code())
}

fn put_rows(out: &mut ByteList, rows: &[LockRow]) -> Result<(), NoMemory>
    ensures text { OnOk result (out.new ≡ out.old ++ flat_map row_bytes rows.now) }
    ensures are_rows { OnOk result (All IsRow rows.now) }
{
    for row in rows {
        put_row(out, row)?;
    }
    Ok(())
}

/// A page: its bytes, in version 2 behind a form.
fn put_page(out: &mut ByteList, version: u8, bytes: &[u8; PAGE_BYTES]) -> Result<(), NoMemory>
    ensures text { OnOk result (out.new ≡ out.old ++ page_bytes version bytes.now) }
    ensures are_bytes { OnOk result (AreBytes bytes.now) }
{
    if version == 1 {
        out.extend(bytes)
    } else {
        put_formed(out, bytes)
    }
}

/// A page behind its form. Of a page of zeros the form alone is written.
fn put_formed(out: &mut ByteList, bytes: &[u8; PAGE_BYTES]) -> Result<(), NoMemory>
    ensures text { OnOk result (out.new ≡ out.old ++ formed (is_blank bytes.now) bytes.now) }
    ensures are_bytes { OnOk result (AreBytes bytes.now) }
{
    if is_blank(bytes) {
        out.push(0)
    } else {
        put_full(out, bytes)
    }
}

/// A page other than that of zeros.
fn put_full(out: &mut ByteList, bytes: &[u8; PAGE_BYTES]) -> Result<(), NoMemory>
    ensures text { OnOk result (out.new ≡ out.old ++ 1 ∷ bytes.now) }
    ensures are_bytes { OnOk result (AreBytes bytes.now) }
{
    out.push(1)?;
    out.extend(bytes)
}

fn put_after(out: &mut ByteList, after: Option<(Uid, ProcId)>) -> Result<(), NoMemory>
    ensures text { OnOk result (out.new ≡ out.old ++ after_bytes after) }
    ensures is_after { OnOk result (IsAfter after) }
{
    match after {
        None => out.extend(&[0; 11]),
        Some((uid, proc)) => {
            out.push(1)?;
            put_uid(out, uid)?;
            put_proc(out, proc)
        }
    }
}

/// What a write begins with: the object, the page or the length, the grant and the base.
fn put_written(
    out: &mut ByteList,
    uid: Uid,
    number: u32,
    grant: u64,
    base: u64,
) -> Result<(), NoMemory>
    ensures text { OnOk result (out.new ≡ out.old ++ (uid_bytes uid ++ (be32 number ++ (be64 grant ++ be64 base)))) }
    ensures name { OnOk result (IsName uid) }
{
    put_uid(out, uid)?;
    put_u32(out, number)?;
    put_u64(out, grant)?;
    put_u64(out, base)
}

/// The bytes behind the header of a request.
fn put_request(out: &mut ByteList, version: u8, body: &Body) -> Result<(), NoMemory>
    requires { IsTrue (is_request body.now) }
    ensures text { OnOk result (out.new ≡ out.old ++ body_bytes version body.now) }
    ensures typed { OnOk result (IsTypedBody body.now) }
{
    match *body {
        Body::PageIn { uid, page } => {
            put_uid(out, uid)?;
            put_u32(out, page)
        }
        Body::PageOut {
            uid,
            page,
            grant,
            base,
            ref bytes,
        } => {
            put_written(out, uid, page, grant, base)?;
            put_page(out, version, bytes.bytes())
        }
        Body::AttrOut {
            uid,
            length,
            grant,
            base,
        } => put_written(out, uid, length, grant, base),
        Body::Lock { uid, mode } => {
            put_uid(out, uid)?;
            out.push(mode.code())
        }
        Body::Unlock { uid } | Body::Remove { uid } => put_uid(out, uid),
        Body::Make { kind, room } => {
            out.push(kind.code())?;
            put_u32(out, room)
        }
        Body::List { after } => put_after(out, after),
        _ => unreachable!(),
    }
}

/// A page, with its stamp.
fn put_stamped(
    out: &mut ByteList,
    version: u8,
    stamp: u64,
    bytes: &[u8; PAGE_BYTES],
) -> Result<(), NoMemory>
    ensures text { OnOk result (out.new ≡ out.old ++ (be64 stamp ++ page_bytes version bytes.now)) }
    ensures typed { OnOk result ((stamp < 2 ^ 64) × AreBytes bytes.now) }
{
    put_u64(out, stamp)?;
    put_page(out, version, bytes)
}

/// What is granted: the grant, and what the home knows of the object.
fn put_granted(
    out: &mut ByteList,
    grant: u64,
    stamp: u64,
    kind: ObjKind,
    room: u32,
    length: u32,
) -> Result<(), NoMemory>
    ensures text { OnOk result (out.new ≡ out.old ++ (be64 grant ++ (be64 stamp ++ (object_code kind ∷ (be32 room ++ be32 length))))) }
    ensures typed { OnOk result ((grant < 2 ^ 64) × (stamp < 2 ^ 64)) }
{
    put_u64(out, grant)?;
    put_u64(out, stamp)?;
    out.push(kind.code())?;
    put_u32(out, room)?;
    put_u32(out, length)
}

/// Who holds the object, and in which mode.
fn put_holder(out: &mut ByteList, proc: ProcId, mode: Mode) -> Result<(), NoMemory>
    ensures text { OnOk result (out.new ≡ out.old ++ (proc_bytes proc ++ (mode_code mode ∷ []))) }
    ensures is_proc { OnOk result (IsProcName proc) }
{
    put_proc(out, proc)?;
    out.push(mode.code())
}

/// Rows: how many, whether more follow, and each of them.
fn put_listed(out: &mut ByteList, rows: &[LockRow], more: bool) -> Result<(), NoMemory>
    requires { length rows.now < 256 }
    ensures text { OnOk result (out.new ≡ out.old ++ (length rows.now ∷ flag more ∷ flat_map row_bytes rows.now)) }
    ensures are_rows { OnOk result (All IsRow rows.now) }
{
    out.extend(&[rows.len() as u8, u8::from(more)])?;
    put_rows(out, rows)
}

/// The bytes behind the header of a reply.
fn put_reply(out: &mut ByteList, version: u8, body: &Body) -> Result<(), NoMemory>
    requires few { IsBody 0 body.now }
    requires reply { IsFalse (is_request body.now) }
    ensures text { OnOk result (out.new ≡ out.old ++ body_bytes version body.now) }
    ensures typed { OnOk result (IsTypedBody body.now) }
{
    match body {
        Body::Page { stamp, bytes } => put_stamped(out, version, *stamp, bytes.bytes()),
        Body::Stored { stamp } | Body::Stale { stamp } => put_u64(out, *stamp),
        Body::Granted {
            grant,
            stamp,
            kind,
            room,
            length,
        } => put_granted(out, *grant, *stamp, *kind, *room, *length),
        Body::Conflict { proc, mode } => put_holder(out, *proc, *mode),
        Body::Made { uid } => put_uid(out, *uid),
        Body::Listed { rows, more } => put_listed(out, rows.items(), *more),
        Body::NoGrant | Body::NoObject | Body::Done | Body::NoSpace => Ok(()),
        _ => unreachable!(),
    }
}

fn put_body(out: &mut ByteList, frame: &Frame) -> Result<(), NoMemory>
    ensures text { OnOk result (out.new ≡ out.old ++ body_bytes frame.now.version frame.now.body) }
    ensures typed { OnOk result (IsTypedBody frame.now.body) }
{
    let (version, body) = (frame.version(), frame.body());
    if body.is_request() {
        put_request(out, version, body)
    } else {
        put_reply(out, version, body)
    }
}

/// Version, kind, the two nodes, the process, three zeros, the number of the call, the tick.
fn put_header(out: &mut ByteList, frame: &Frame) -> Result<(), NoMemory>
    ensures text { OnOk result (out.new ≡ out.old ++ header (head_of frame.now)) }
    ensures head { OnOk result (IsHead (head_of frame.now)) }
    ensures ranges { OnOk result (IsInRange frame.now) }
{
    let (version, kind) = (frame.version(), frame.body().kind().number());
    let (from, to) = (frame.from().number(), frame.to().number());
    out.extend(&[version, kind, from, to, frame.proc(), 0, 0, 0])?;
    put_u64(out, frame.number())?;
    put_u64(out, frame.tick())
}

/// How many bytes a page has.
fn page_size(version: u8, bytes: &PageBytes) -> usize
    ensures { result ≡ page_size version bytes.now }
{
    if version == 1 {
        return PAGE_BYTES;
    }
    if bytes.is_blank() { 1 } else { 1 + PAGE_BYTES }
}

/// How many bytes it has.
fn size_of(frame: &Frame) -> usize
    ensures { result ≡ 24 + body_size frame.now.version frame.now.body }
{
    let version = frame.version();
    let behind = match frame.body() {
        Body::PageIn { .. } => 12,
        Body::PageOut { bytes, .. } => 28 + page_size(version, bytes),
        Body::AttrOut { .. } => 28,
        Body::Lock { .. } => 9,
        Body::Unlock { .. } | Body::Remove { .. } | Body::Made { .. } => 8,
        Body::Make { .. } => 5,
        Body::List { .. } => 11,
        Body::Page { bytes, .. } => 8 + page_size(version, bytes),
        Body::Stored { .. } | Body::Stale { .. } => 8,
        Body::NoGrant | Body::NoObject | Body::Done | Body::NoSpace => 0,
        Body::Granted { .. } => 25,
        Body::Conflict { .. } => 3,
        Body::Listed { rows, .. } => 2 + 11 * rows.items().len(),
    };
    24 + behind
}

/// The bytes that spell a frame.
pub fn write(alloc: Global, frame: &Frame) -> Result<ByteList, NoMemory>
    ensures spelled { IfOk result (Spells frame.now) }
{
    let mut out = ByteList::with_capacity(alloc, size_of(frame))?;
    put_header(&mut out, frame)?;
    put_body(&mut out, frame)?;
    Ok(out)
}
