//! What a node keeps for each of its four processes, and questions to all four.
ghost use Rattle.std.specs.Prelude.{◌≡◌, ◌+◌, ◌<◌, ◌≤◌, ◌==◌, not, ◌&&◌, None, if◌then◌else◌};
ghost use Rattle.page_cache.specs.Numbers.{lesser};
ghost use Rattle.fault_handler.specs.Entries.{keeps, keeps_writing, grant_in};
ghost use Rattle.fault_handler.specs.Transits.{is_moving, is_coming, moved_page};
ghost use Rattle.fault_handler.specs.Invariant.{IsProc};
ghost use Rattle.fault_handler.specs.Desks.{at, entry_at, others_keep, any_keeps, others_fetch, writing_grant, other_transit, is_in_transit_there};

use crate::entries::EntryTable;
use crate::transits::Transit;
use uid_names::{NODE_PROCESSES, ProcId, Uid};

/// Where a process's own stands.
pub(crate) fn index_of(proc: ProcId) -> usize
    ensures value { result + 1 ≡ proc.number }
    ensures bound { result < NODE_PROCESSES }
{
    usize::from(proc.number()) - 1
}

/// The page that a process moves.
pub(crate) fn transit_of(
    moving: &[Option<Transit>; NODE_PROCESSES],
    proc: ProcId,
) -> Option<Transit>
    ensures value { result ≡ at moving.now proc.number None }
    ensures process { IsProc proc.number }
{
    moving[index_of(proc)]
}

/// Whether process q, unless it is p, keeps an object.
fn keeps_beside(entries: &[EntryTable; NODE_PROCESSES], q: u8, p: u8, uid: Uid) -> bool
    requires least { 1 ≤ q }
    requires most { q ≤ NODE_PROCESSES }
    ensures { result ≡ (not (q == p) && keeps (entry_at entries.now q uid)) }
{
    q != p && entries[usize::from(q) - 1].keeps(uid)
}

/// Whether a process other than p keeps an object.
pub(crate) fn others_keep(entries: &[EntryTable; NODE_PROCESSES], p: u8, uid: Uid) -> bool
    ensures { result ≡ others_keep entries.now p uid }
{
    keeps_beside(entries, 1, p, uid)
        || keeps_beside(entries, 2, p, uid)
        || keeps_beside(entries, 3, p, uid)
        || keeps_beside(entries, 4, p, uid)
}

/// The grant of process q, where it keeps an object in a mode that writes; else the one that is given.
fn grant_from(entries: &[EntryTable; NODE_PROCESSES], q: u8, uid: Uid, other: u64) -> u64
    requires least { 1 ≤ q }
    requires most { q ≤ NODE_PROCESSES }
    ensures { result
        ≡ (if keeps_writing (entry_at entries.now q uid) then grant_in (entry_at entries.now q uid) else other) }
{
    let table = &entries[usize::from(q) - 1];
    if table.keeps_writing(uid) {
        table.grant(uid)
    } else {
        other
    }
}

/// The grant under which the node writes an object.
pub(crate) fn writing_grant(entries: &[EntryTable; NODE_PROCESSES], uid: Uid) -> u64
    ensures { result ≡ writing_grant entries.now uid }
{
    let fourth = grant_from(entries, 4, uid, 0);
    let third = grant_from(entries, 3, uid, fourth);
    let second = grant_from(entries, 2, uid, third);
    grant_from(entries, 1, uid, second)
}

/// Whether process q, unless it is p, has a page in transit from its home.
fn fetches_beside(
    moving: &[Option<Transit>; NODE_PROCESSES],
    q: u8,
    p: u8,
    uid: Uid,
    page: u32,
) -> bool
    requires least { 1 ≤ q }
    requires most { q ≤ NODE_PROCESSES }
    ensures { result ≡ (not (q == p) && is_coming uid page (at moving.now q None)) }
{
    if q == p {
        return false;
    }
    match &moving[usize::from(q) - 1] {
        Some(t) => t.inward && t.uid.is(uid) && t.page == page,
        None => false,
    }
}

/// Whether a process other than p has a page in transit from its home.
pub(crate) fn others_fetch(
    moving: &[Option<Transit>; NODE_PROCESSES],
    p: u8,
    uid: Uid,
    page: u32,
) -> bool
    ensures { result ≡ others_fetch moving.now p uid page }
{
    fetches_beside(moving, 1, p, uid, page)
        || fetches_beside(moving, 2, p, uid, page)
        || fetches_beside(moving, 3, p, uid, page)
        || fetches_beside(moving, 4, p, uid, page)
}

/// The lower of a page and that of the object which process q, unless it is p, has in transit.
fn lower_beside(
    moving: &[Option<Transit>; NODE_PROCESSES],
    q: u8,
    p: u8,
    uid: Uid,
    other: Option<u32>,
) -> Option<u32>
    requires least { 1 ≤ q }
    requires most { q ≤ NODE_PROCESSES }
    ensures { result ≡ lesser (if q == p then None else moved_page uid (at moving.now q None)) other }
{
    if q == p {
        return other;
    }
    match &moving[usize::from(q) - 1] {
        Some(t) if t.uid.is(uid) => match other {
            Some(page) => Some(t.page.min(page)),
            None => Some(t.page),
        },
        _ => other,
    }
}

/// The lowest page of an object that a process other than p has in transit.
pub(crate) fn other_transit(
    moving: &[Option<Transit>; NODE_PROCESSES],
    p: u8,
    uid: Uid,
) -> Option<u32>
    ensures { result ≡ other_transit moving.now p uid }
{
    let fourth = lower_beside(moving, 4, p, uid, None);
    let third = lower_beside(moving, 3, p, uid, fourth);
    let second = lower_beside(moving, 2, p, uid, third);
    lower_beside(moving, 1, p, uid, second)
}

/// Whether process q has a page in transit, either way.
fn moves(moving: &[Option<Transit>; NODE_PROCESSES], q: u8, uid: Uid, page: u32) -> bool
    requires least { 1 ≤ q }
    requires most { q ≤ NODE_PROCESSES }
    ensures { result ≡ is_moving uid page (at moving.now q None) }
{
    match &moving[usize::from(q) - 1] {
        Some(t) => t.uid.is(uid) && t.page == page,
        None => false,
    }
}

/// Whether a process has a page in transit, either way.
pub(crate) fn in_transit(moving: &[Option<Transit>; NODE_PROCESSES], uid: Uid, page: u32) -> bool
    ensures { result ≡ is_in_transit_there moving.now uid page }
{
    moves(moving, 1, uid, page)
        || moves(moving, 2, uid, page)
        || moves(moving, 3, uid, page)
        || moves(moving, 4, uid, page)
}
