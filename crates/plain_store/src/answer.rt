//! The plain store's reply to each operation, by what it keeps.
ghost use Rattle.std.specs.Prelude.{◌≡◌, ◌+◌, ◌≤◌, None, List, IsTrue, IfOk};
ghost use Rattle.uid_names.specs.Openings.{Start};
ghost use Rattle.dom_history.specs.declared.deed.Deed.{Deed};
ghost use Rattle.uid_names.specs.Rows.{rows_after};
ghost use Rattle.dom_history.specs.StoreEffects.{store_effects};
ghost use Rattle.dom_history.specs.Fitting.{Fits, is_new_reply, is_lock_reply, is_unlock_reply, is_delete_reply, is_load_reply, is_store_reply, is_length_reply, is_map_reply, is_unmap_reply, is_list_reply};
ghost use Rattle.plain_store.specs.Kept.{HoldDeeds, IsReplyBy};
ghost use Rattle.plain_store.specs.KeptLengths.{AreShort};
ghost use Rattle.plain_store.specs.KeptObjects.{HaveSmallCounters};
ghost use Rattle.dom_history.specs.Locks.{rows};
ghost use Rattle.dom_history.specs.Mappings.{target};
ghost use Rattle.dom_history.specs.Ranges.{IsOp, offset_in_page};
ghost use Rattle.dom_history.specs.Replies.{before_of, reply_of, new_reply as new_reply_of, lock_reply as lock_reply_of, unlock_reply as unlock_reply_of, delete_reply as delete_reply_of, load_reply as load_reply_of, store_reply as store_reply_of, length_reply as length_reply_of, map_reply as map_reply_of, map_anew_reply as map_anew_reply_of, mapping_of, list_reply as list_reply_of, unmap_reply as unmap_reply_of};
ghost use Rattle.dom_history.specs.Runs.{IsFaultless};

use crate::kept::Kept;
use dom_history::{Op, Reply, Spot};
use std::alloc::Global;
use uid_names::{
    Mode, NoMemory, NodeId, Opening, PAGE_BYTES, PROCESS_LOCKS, PROCESS_MAPPINGS, ProcId,
    SEGMENT_SIZE, Uid, VOLUME_ROOM,
};

fn new_reply(opening: &Opening, kept: &Kept, p: ProcId, home: NodeId, room: u32) -> Reply
    requires { HaveSmallCounters kept.now.objects }
    ensures value { (deeds : List Deed) → HoldDeeds kept.now opening.now deeds → result ≡ new_reply_of (before_of opening.now deeds p) home room }
    ensures fits { IsTrue (is_new_reply result) }
    ensures faultless { IsFaultless result }
{
    if opening.nodes() < home.number() || opening.greatest() < room {
        return Reply::NoSpace;
    }
    let volume = kept.objects.volume_of(home);
    if u128::from(VOLUME_ROOM) < volume.taken + room as u128 {
        return Reply::NoSpace;
    }
    Reply::Made(Uid::from_parts(volume.greatest + 1, home))
}

fn lock_reply(kept: &Kept, p: ProcId, uid: Uid, mode: Mode) -> Reply
    ensures value { IsReplyBy kept.now p (λ b. lock_reply_of b p uid mode) result }
    ensures fits { IsTrue (is_lock_reply result) }
    ensures faultless { IsFaultless result }
{
    if kept.locks.mode_of(p, uid).is_some() {
        return Reply::AlreadyHeld;
    }
    if kept.locks.count_of(p) >= PROCESS_LOCKS {
        return Reply::TooMany;
    }
    if !kept.objects.is_present(uid) {
        return Reply::NoObject;
    }
    match kept.locks.conflict(p, uid, mode) {
        Some(row) => Reply::Conflict(row.proc, row.mode),
        None => Reply::Fine,
    }
}

fn unlock_reply(kept: &Kept, p: ProcId, uid: Uid) -> Reply
    ensures value { IsReplyBy kept.now p (λ b. unlock_reply_of b uid) result }
    ensures fits { IsTrue (is_unlock_reply result) }
    ensures faultless { IsFaultless result }
{
    match kept.locks.mode_of(p, uid) {
        Some(_) => Reply::Fine,
        None => Reply::NotHeld,
    }
}

fn delete_reply(kept: &Kept, p: ProcId, uid: Uid) -> Reply
    ensures value { IsReplyBy kept.now p (λ b. delete_reply_of b uid) result }
    ensures fits { IsTrue (is_delete_reply result) }
    ensures faultless { IsFaultless result }
{
    match kept.locks.mode_of(p, uid) {
        Some(mode) if mode.removes() => Reply::Fine,
        Some(_) => Reply::WrongMode,
        None => Reply::NoLock,
    }
}

fn load_reply(
    alloc: Global,
    kept: &Kept,
    p: ProcId,
    spot: Spot,
    count: u32,
) -> Result<Reply, NoMemory>
    requires { offset_in_page spot + count ≤ PAGE_BYTES }
    ensures value { IfOk result (IsReplyBy kept.now p (λ b. load_reply_of b (target b.opening b.past p spot) count)) }
    ensures fits { IfOk result (λ reply. IsTrue (is_load_reply spot count reply)) }
    ensures faultless { IfOk result IsFaultless }
{
    match kept.maps.target_of(p, spot) {
        None => Ok(Reply::NotMapped),
        Some((uid, offset)) => {
            if kept.locks.mode_of(p, uid).is_none() {
                return Ok(Reply::NoLock);
            }
            if kept.lengths.of(uid) < offset as u64 + count as u64 {
                return Ok(Reply::PastEnd);
            }
            let bytes = kept.pages.load(alloc, uid, offset, count)?;
            Ok(Reply::Bytes(bytes))
        }
    }
}

fn store_reply(kept: &Kept, p: ProcId, spot: Spot, bytes: &[u8]) -> Reply
    ensures value { IsReplyBy kept.now p (λ b. store_reply_of b (target b.opening b.past p spot) bytes.now) result }
    ensures fits { IsTrue (is_store_reply spot result) }
    ensures faultless { IsFaultless result }
{
    match kept.maps.target_of(p, spot) {
        None => Reply::NotMapped,
        Some((uid, offset)) => match kept.locks.mode_of(p, uid) {
            None => Reply::NoLock,
            Some(mode) if !mode.writes() => Reply::WrongMode,
            Some(_) => {
                let room = kept.objects.room_of(uid);
                if PAGE_BYTES as u64 * (room as u64) < offset as u64 + bytes.len() as u64 {
                    Reply::PastRoom
                } else {
                    Reply::Fine
                }
            }
        },
    }
}

fn length_reply(kept: &Kept, p: ProcId, uid: Uid) -> Reply
    requires { AreShort kept.now.lengths }
    ensures value { IsReplyBy kept.now p (λ b. length_reply_of b uid) result }
    ensures fits { IsTrue (is_length_reply result) }
    ensures faultless { IsFaultless result }
{
    match kept.locks.mode_of(p, uid) {
        Some(_) => Reply::Size(kept.lengths.of(uid) as u32),
        None => Reply::NoLock,
    }
}

/// The reply to the mapping of an object that a process holds and has not mapped.
fn map_anew_reply(kept: &Kept, p: ProcId, uid: Uid) -> Reply
    ensures value { IsReplyBy kept.now p (λ b. map_anew_reply_of b p uid None) result }
    ensures fits { IsTrue (is_map_reply result) }
    ensures faultless { IsFaultless result }
{
    if kept.maps.count_of(p) >= PROCESS_MAPPINGS {
        return Reply::TooManyMaps;
    }
    match kept.maps.run_of(p, kept.objects.room_of(uid)) {
        Some(first) => Reply::At {
            address: u32::from(first) * SEGMENT_SIZE,
            fresh: true,
        },
        None => Reply::NoSegment,
    }
}

/// The reply to the mapping of an object that a process holds.
fn map_held_reply(kept: &Kept, p: ProcId, uid: Uid) -> Reply
    ensures value { IsReplyBy kept.now p (λ b. map_anew_reply_of b p uid (mapping_of b p uid)) result }
    ensures fits { IsTrue (is_map_reply result) }
    ensures faultless { IsFaultless result }
{
    match kept.maps.address_of(p, uid) {
        Some(address) => Reply::At {
            address,
            fresh: false,
        },
        None => map_anew_reply(kept, p, uid),
    }
}

fn map_reply(kept: &Kept, p: ProcId, uid: Uid) -> Reply
    ensures value { IsReplyBy kept.now p (λ b. map_reply_of b p uid) result }
    ensures fits { IsTrue (is_map_reply result) }
    ensures faultless { IsFaultless result }
{
    match kept.locks.mode_of(p, uid) {
        Some(_) => map_held_reply(kept, p, uid),
        None => Reply::NoLock,
    }
}

fn unmap_reply(kept: &Kept, p: ProcId, uid: Uid) -> Reply
    ensures value { IsReplyBy kept.now p (λ b. unmap_reply_of b p uid) result }
    ensures fits { IsTrue (is_unmap_reply result) }
    ensures faultless { IsFaultless result }
{
    match kept.maps.address_of(p, uid) {
        Some(_) => Reply::Fine,
        None => Reply::NotMapped,
    }
}

fn list_reply(
    alloc: Global,
    kept: &Kept,
    home: NodeId,
    after: Option<(Uid, ProcId)>,
) -> Result<Reply, NoMemory>
    ensures value { IfOk result (λ reply. (opening : Start) → (deeds : List Deed) → HoldDeeds kept.now opening deeds → reply ≡ list_reply_of (rows_after after (rows home (store_effects deeds)))) }
    ensures fits { IfOk result (λ reply. IsTrue (is_list_reply reply)) }
    ensures faultless { IfOk result IsFaultless }
{
    let (rows, more) = kept.locks.list(alloc, home, after)?;
    Ok(Reply::Locks { rows, more })
}

/// The reply to an operation, after what was done.
pub fn reply_to(
    alloc: Global,
    opening: &Opening,
    kept: &Kept,
    p: ProcId,
    op: &Op,
) -> Result<Reply, NoMemory>
    requires range { IsOp op.now }
    requires counters { HaveSmallCounters kept.now.objects }
    requires lengths { AreShort kept.now.lengths }
    ensures value { IfOk result (λ reply. (deeds : List Deed) → HoldDeeds kept.now opening.now deeds → reply ≡ reply_of (before_of opening.now deeds p) p op.now) }
    ensures fits { IfOk result (Fits op.now) }
    ensures faultless { IfOk result IsFaultless }
{
    match op {
        Op::New {
            home,
            kind: _,
            room,
        } => Ok(new_reply(opening, kept, p, *home, *room)),
        Op::Lock { uid, mode } => Ok(lock_reply(kept, p, *uid, *mode)),
        Op::Unlock { uid } => Ok(unlock_reply(kept, p, *uid)),
        Op::Delete { uid } => Ok(delete_reply(kept, p, *uid)),
        Op::Load { spot, count } => load_reply(alloc, kept, p, *spot, *count),
        Op::Store { spot, bytes } => Ok(store_reply(kept, p, *spot, bytes.bytes())),
        Op::Length { uid } => Ok(length_reply(kept, p, *uid)),
        Op::Map { uid } => Ok(map_reply(kept, p, *uid)),
        Op::Unmap { uid } => Ok(unmap_reply(kept, p, *uid)),
        Op::List { home, after } => list_reply(alloc, kept, *home, *after),
    }
}
