//! How a lock, an unlock or a removal goes on where a home answers.
ghost use Rattle.std.specs.Prelude.{◌≡◌, ℕ, ◌≤◌, ◌++◌, true, false, not, ◌&&◌, IsOk, IfOk, IfSome, OnOk, OnErr, IsSome, is_some, None, map};
ghost use Rattle.std.specs.Option.{ForSome};
ghost use Rattle.uid_names.specs.Rooms.{IsRoom, IsLength};
ghost use Rattle.dom_history.specs.declared.op.Op.{Op};
ghost use Rattle.page_cache.specs.Caches.{page_at};
ghost use Rattle.version_stamps.specs.Stamps.{stamp_of};
ghost use Rattle.ring_messages.specs.Ranges.{IsBody};
ghost use Rattle.fault_handler.specs.Entries.{keeps, keeps_writing};
ghost use Rattle.fault_handler.specs.Desks.{entry_at, open_call_of, moving_of, any_keeps, others_keep, is_in_transit_there};
ghost use Rattle.fault_handler.specs.Changes.{with_raised};
ghost use Rattle.fault_handler.specs.Outcomes.{Gives};
ghost use Rattle.fault_handler.specs.LockCalls.{LockAnswer, lock_call, answers};
ghost use Rattle.fault_handler.specs.Invariant.{IsDesk, is_dirty};
ghost use Rattle.fault_handler.specs.Conditions.{IsOf, IsIdle, IsNotAccessing};
ghost use Rattle.fault_handler.specs.Ready.{LockStands, WriterStands, ReleaseStands, CallStands, IsReady};
ghost use Rattle.fault_handler.specs.Next.{FitsTurn, IsAsked, IsOpen, IsNext};
ghost use Rattle.lock_validate.specs.Steps.{as_step, TellsTurn};
ghost use Rattle.lock_validate.specs.Releases.{release_of};
ghost use Rattle.lock_validate.specs.Answers.{is_seen, is_fresh, after_drop, dropped_of, learned, gone, removed, answered, answer_came_of, answer_at, lock_answer_of};
ghost use Rattle.lock_validate.specs.Wants.{SendsPage, MayWantAt};

use crate::releases::release;
use crate::sends::end;
use crate::step::Step;
use dom_history::{Dropped, Reply};
use fault_handler::{Desk, LockState, OpenCall};
use ring_messages::Body;
use std::alloc::Global;
use uid_names::{Mode, NoMemory, ProcId, Uid};

/// Goes on with the reply to the process's open call, which is open no more. Wants memory only at an answer
/// at which pages may be dropped or the next page is sent home; where there is none, of the desk only what each desk keeps is known.
pub fn answer_came(
    alloc: Global,
    desk: &mut Desk,
    proc: ProcId,
    body: &Body,
) -> Result<Step, NoMemory>
    requires own { IsOf desk.old proc }
    requires ready { IsReady desk.old proc.number }
    requires other { IsNotAccessing desk.old proc.number }
    requires fits { answers desk.old proc.number body.now ≡ true }
    requires range { IsBody proc.node body.now }
    ensures outcome { IfOk result (λ step. ForSome (lock_answer_of desk.old proc.number body.now) (λ answer. Gives as_step desk.new (answer_came_of desk.old proc.number answer) step)) }
    ensures memory { OnErr result (ForSome (lock_answer_of desk.old proc.number body.now) (MayWantAt desk.old proc.number)) }
    ensures fits { (op : Op) → IsOpen desk.old proc.number op → IfOk result (TellsTurn (FitsTurn op)) }
    ensures asks { IfOk result (TellsTurn (IsAsked desk.new.nodes)) }
    ensures next { (op : Op) → IsOpen desk.old proc.number op → IfOk result (TellsTurn (IsNext desk.new proc.number op)) }
    ensures ready { OnOk result (IsReady desk.new proc.number) }
    ensures node { OnOk result (desk.new.node ≡ desk.old.node) }
    ensures nodes { OnOk result (desk.new.nodes ≡ desk.old.nodes) }
{
    let call = desk.open_call(proc);
    desk.set_open_call(proc, None);
    match call {
        Some(call) => answered(alloc, desk, proc, call, body),
        None => unreachable!(),
    }
}

/// A home answers the call that was open.
fn answered(
    alloc: Global,
    desk: &mut Desk,
    proc: ProcId,
    call: OpenCall,
    body: &Body,
) -> Result<Step, NoMemory>
    requires own { IsOf desk.old proc }
    requires kept { IsDesk desk.old }
    requires closed { open_call_of desk.old proc.number ≡ None }
    requires stands { IfSome (lock_call call) (CallStands desk.old proc.number) }
    requires fits { IsSome (answer_at call body.now) }
    requires range { IsBody proc.node body.now }
    ensures outcome { IfOk result (λ step. IfSome (answer_at call body.now) (λ answer. Gives as_step desk.new (answered desk.old proc.number answer) step)) }
    ensures memory { OnErr result (IfSome (answer_at call body.now) (MayWantAt desk.old proc.number)) }
{
    match call {
        OpenCall::Lock(uid, mode) => lock_answered(alloc, desk, proc, uid, mode, body),
        OpenCall::PageOut(uid, page, delete) => {
            page_answered(alloc, desk, proc, uid, page, delete, body)
        }
        OpenCall::AttrOut(uid, length, delete) => {
            length_answered(alloc, desk, proc, uid, length, delete, body)
        }
        OpenCall::Unlock(uid) => unlock_answered(alloc, desk, proc, uid, body),
        OpenCall::Remove(uid) => removal_answered(alloc, desk, proc, uid, body),
        OpenCall::Access => unreachable!(),
    }
}

/// A home answered a lock.
fn lock_answered(
    alloc: Global,
    desk: &mut Desk,
    proc: ProcId,
    uid: Uid,
    mode: Mode,
    body: &Body,
) -> Result<Step, NoMemory>
    requires own { IsOf desk.old proc }
    requires kept { IsDesk desk.old }
    requires stands { LockStands desk.old proc.number uid }
    requires fits { IsSome (answer_at (OpenCall.Lock uid mode) body.now) }
    requires range { IsBody proc.node body.now }
    ensures outcome { IfOk result (λ step. IfSome (answer_at (OpenCall.Lock uid mode) body.now) (λ answer. Gives as_step desk.new (answered desk.old proc.number answer) step)) }
    ensures memory { OnErr result (IfSome (answer_at (OpenCall.Lock uid mode) body.now) (MayWantAt desk.old proc.number)) }
{
    match body {
        Body::Granted {
            grant,
            stamp,
            room,
            length,
            ..
        } => {
            let given = Given {
                grant: *grant,
                stamp: *stamp,
                room: *room,
                length: *length,
            };
            granted(alloc, desk, proc, uid, mode, given)
        }
        Body::Conflict { proc: holder, mode } => Ok(end(alloc, Reply::Conflict(*holder, *mode))),
        Body::NoObject => gone(alloc, desk, proc, uid),
        _ => unreachable!(),
    }
}

/// What a grant tells of an object: its number, and the object's stamp, room and length.
#[derive(Clone, Copy)]
struct Given {
    grant: u64,
    stamp: u64,
    room: u32,
    length: u32,
}

/// A lock is granted.
fn granted(
    alloc: Global,
    desk: &mut Desk,
    proc: ProcId,
    uid: Uid,
    mode: Mode,
    given: Given,
) -> Result<Step, NoMemory>
    requires own { IsOf desk.old proc }
    requires kept { IsDesk desk.old }
    requires stands { LockStands desk.old proc.number uid }
    requires grant { 1 ≤ given.grant }
    requires stamp { 1 ≤ given.stamp }
    requires room { IsRoom given.room }
    requires length { IsLength given.length }
    ensures outcome { IfOk result (Gives as_step desk.new (answered desk.old proc.number (LockAnswer.Granted uid mode given.grant given.stamp given.room given.length))) }
    ensures memory { OnErr result (MayWantAt desk.old proc.number (LockAnswer.Granted uid mode given.grant given.stamp given.room given.length)) }
{
    let outdated = are_outdated(desk, proc, uid, given.stamp);
    let fresh = is_length_fresh(desk, proc, uid, given.stamp);
    let dropped = drop_pages(alloc, desk, uid, outdated)?;
    learn(desk, uid, given, fresh)?;
    desk.set_state(proc, uid, LockState::Held(mode), given.grant);
    Ok(Step::End(Reply::Fine, dropped))
}

/// Whether cached pages of an object are outdated at a grant with this stamp: it is not the seen one, and no
/// other process of the node keeps the object.
fn are_outdated(desk: &Desk, proc: ProcId, uid: Uid, stamp: u64) -> bool
    requires { IsOf desk.now proc }
    ensures { result ≡ (not (others_keep desk.now.entries proc.number uid) && not (is_seen stamp (stamp_of uid desk.now.seen))) }
{
    !desk.others_keep(proc, uid) && !is_seen(stamp, desk.seen(uid))
}

/// Whether the length at a grant with this stamp is the object's: the stamp is no old one, and no other
/// process of the node keeps the object.
fn is_length_fresh(desk: &Desk, proc: ProcId, uid: Uid, stamp: u64) -> bool
    requires { IsOf desk.now proc }
    ensures { result ≡ (not (others_keep desk.now.entries proc.number uid) && is_fresh stamp (stamp_of uid desk.now.seen)) }
{
    !desk.others_keep(proc, uid) && is_fresh(stamp, desk.seen(uid))
}

/// Whether a stamp is the seen one.
fn is_seen(stamp: u64, seen: Option<u64>) -> bool
    ensures { result ≡ is_seen stamp seen }
{
    match seen {
        Some(known) => known == stamp,
        None => false,
    }
}

/// Whether a stamp is the seen one at least, or none was seen.
fn is_fresh(stamp: u64, seen: Option<u64>) -> bool
    ensures { result ≡ is_fresh stamp seen }
{
    match seen {
        Some(known) => known <= stamp,
        None => true,
    }
}

/// Takes what a grant tells: the room, the length and the stamp, or where they are not fresh a stamp that is
/// above the seen one alone. Wants memory only where no stamp of the object was seen.
fn learn(desk: &mut Desk, uid: Uid, given: Given, fresh: bool) -> Result<(), NoMemory>
    requires fresh { fresh ≡ true → is_fresh given.stamp (stamp_of uid desk.old.seen) ≡ true }
    requires seen { fresh ≡ false → IsSome (stamp_of uid desk.old.seen) }
    requires stamp { 1 ≤ given.stamp }
    requires room { IsRoom given.room }
    requires length { IsLength given.length }
    ensures learned { OnOk result (desk.new ≡ learned fresh desk.old uid given.stamp given.room given.length) }
    ensures memory { OnErr result (is_some (stamp_of uid desk.old.seen) ≡ false) }
{
    if fresh {
        return desk.know(uid, given.stamp, given.room, given.length);
    }
    desk.raise_seen(uid, given.stamp);
    Ok(())
}

/// Drops all pages of an object where that is asked for, and tells which they were. Takes no memory else.
fn drop_pages(alloc: Global, desk: &mut Desk, uid: Uid, asked: bool) -> Result<Dropped, NoMemory>
    requires clean { asked ≡ true → (k : ℕ) → is_dirty (page_at desk.old.cache.pages uid k) ≡ false }
    requires still { asked ≡ true → (k : ℕ) → is_in_transit_there desk.old.moving uid k ≡ false }
    ensures dropped { IfOk result (λ dropped. dropped ≡ dropped_of asked desk.old uid) }
    ensures desk { OnOk result (desk.new ≡ after_drop asked desk.old uid) }
    ensures memory { OnErr result (asked ≡ true) }
{
    let mut dropped = Dropped::new(alloc);
    if asked {
        let pages = desk.drop_pages(alloc, uid)?;
        tell(&mut dropped, uid, pages.items())?;
    }
    Ok(dropped)
}

/// Puts pages of an object last.
fn tell(dropped: &mut Dropped, uid: Uid, pages: &[u32]) -> Result<(), NoMemory>
    ensures { OnOk result (dropped.new ≡ dropped.old ++ map (λ k. (uid, k)) pages.now) }
{
    for page in pages {
        dropped.push((uid, *page))?;
    }
    Ok(())
}

/// An object is gone, if no process of the node keeps it; else the answer is older than the object.
fn gone(alloc: Global, desk: &mut Desk, proc: ProcId, uid: Uid) -> Result<Step, NoMemory>
    requires own { IsOf desk.old proc }
    requires kept { IsDesk desk.old }
    requires given_up { keeps (entry_at desk.old.entries proc.number uid) ≡ false }
    ensures outcome { IfOk result (Gives as_step desk.new (gone desk.old uid (any_keeps desk.old.entries uid))) }
    ensures memory { OnErr result (any_keeps desk.old.entries uid ≡ false) }
{
    let gone = !desk.others_keep(proc, uid);
    let dropped = drop_pages(alloc, desk, uid, gone)?;
    Ok(Step::End(Reply::NoObject, dropped))
}

/// A home answered a page that was sent there.
fn page_answered(
    alloc: Global,
    desk: &mut Desk,
    proc: ProcId,
    uid: Uid,
    page: u32,
    delete: bool,
    body: &Body,
) -> Result<Step, NoMemory>
    requires own { IsOf desk.old proc }
    requires kept { IsDesk desk.old }
    requires closed { open_call_of desk.old proc.number ≡ None }
    requires writer { WriterStands desk.old proc.number uid delete }
    requires fits { IsSome (answer_at (OpenCall.PageOut uid page delete) body.now) }
    requires range { IsBody proc.node body.now }
    ensures memory { OnErr result (IfSome (answer_at (OpenCall.PageOut uid page delete) body.now) (MayWantAt desk.old proc.number)) }
    ensures outcome { IfOk result (λ step. IfSome (answer_at (OpenCall.PageOut uid page delete) body.now) (λ answer. Gives as_step desk.new (answered desk.old proc.number answer) step)) }
{
    match body {
        Body::Stored { stamp } => page_settled(alloc, desk, proc, uid, delete, *stamp, true),
        Body::Stale { stamp } => page_settled(alloc, desk, proc, uid, delete, *stamp, false),
        _ => unreachable!(),
    }
}

/// The home took a page, or not: the tests are made anew.
fn page_settled(
    alloc: Global,
    desk: &mut Desk,
    proc: ProcId,
    uid: Uid,
    delete: bool,
    stamp: u64,
    taken: bool,
) -> Result<Step, NoMemory>
    requires own { IsOf desk.old proc }
    requires kept { IsDesk desk.old }
    requires closed { open_call_of desk.old proc.number ≡ None }
    requires writer { WriterStands desk.old proc.number uid delete }
    requires stamp { 1 ≤ stamp }
    ensures memory { OnErr result (MayWantAt desk.old proc.number (LockAnswer.PageSettled uid delete taken stamp)) }
    ensures outcome { IfOk result (Gives as_step desk.new (answered desk.old proc.number (LockAnswer.PageSettled uid delete taken stamp))) }
{
    desk.page_done(proc, taken);
    settled(alloc, desk, proc, uid, stamp, delete)
}

/// A home answered a length that was sent there.
fn length_answered(
    alloc: Global,
    desk: &mut Desk,
    proc: ProcId,
    uid: Uid,
    length: u32,
    delete: bool,
    body: &Body,
) -> Result<Step, NoMemory>
    requires own { IsOf desk.old proc }
    requires kept { IsDesk desk.old }
    requires closed { open_call_of desk.old proc.number ≡ None }
    requires still { moving_of desk.old proc.number ≡ None }
    requires writer { WriterStands desk.old proc.number uid delete }
    requires fits { IsSome (answer_at (OpenCall.AttrOut uid length delete) body.now) }
    requires range { IsBody proc.node body.now }
    ensures memory { OnErr result (IfSome (answer_at (OpenCall.AttrOut uid length delete) body.now) (MayWantAt desk.old proc.number)) }
    ensures outcome { IfOk result (λ step. IfSome (answer_at (OpenCall.AttrOut uid length delete) body.now) (λ answer. Gives as_step desk.new (answered desk.old proc.number answer) step)) }
{
    match body {
        Body::Stored { stamp } => {
            length_settled(alloc, desk, proc, uid, length, delete, *stamp, true)
        }
        Body::Stale { stamp } => {
            length_settled(alloc, desk, proc, uid, length, delete, *stamp, false)
        }
        _ => unreachable!(),
    }
}

/// The home took a length, or not: the tests are made anew.
fn length_settled(
    alloc: Global,
    desk: &mut Desk,
    proc: ProcId,
    uid: Uid,
    length: u32,
    delete: bool,
    stamp: u64,
    taken: bool,
) -> Result<Step, NoMemory>
    requires own { IsOf desk.old proc }
    requires kept { IsDesk desk.old }
    requires closed { open_call_of desk.old proc.number ≡ None }
    requires still { moving_of desk.old proc.number ≡ None }
    requires writer { WriterStands desk.old proc.number uid delete }
    requires stamp { 1 ≤ stamp }
    ensures memory { OnErr result (MayWantAt desk.old proc.number (LockAnswer.LengthSettled uid length delete taken stamp)) }
    ensures outcome { IfOk result (Gives as_step desk.new (answered desk.old proc.number (LockAnswer.LengthSettled uid length delete taken stamp))) }
{
    desk.length_done(uid, length, taken);
    settled(alloc, desk, proc, uid, stamp, delete)
}

/// What was sent home before a release or a removal is settled, with the object's stamp there.
fn settled(
    alloc: Global,
    desk: &mut Desk,
    proc: ProcId,
    uid: Uid,
    stamp: u64,
    delete: bool,
) -> Result<Step, NoMemory>
    requires own { IsOf desk.old proc }
    requires seen { IsSome (stamp_of uid desk.old.seen) }
    requires stamp { 1 ≤ stamp }
    requires idle { IsIdle desk.old proc.number }
    requires writes { keeps_writing (entry_at desk.old.entries proc.number uid) ≡ true }
    ensures memory { OnErr result (SendsPage desk.old uid) }
    ensures outcome { IfOk result (Gives as_step desk.new (release_of (with_raised desk.old uid stamp) proc.number uid delete)) }
{
    desk.raise_seen(uid, stamp);
    release(alloc, desk, proc, uid, delete)
}

/// A home answered an unlock.
fn unlock_answered(
    alloc: Global,
    desk: &mut Desk,
    proc: ProcId,
    uid: Uid,
    body: &Body,
) -> Result<Step, NoMemory>
    requires own { IsOf desk.old proc }
    requires stands { ReleaseStands desk.old proc.number uid }
    requires fits { IsSome (answer_at (OpenCall.Unlock uid) body.now) }
    ensures done { IsOk result }
    ensures outcome { IfOk result (λ step. IfSome (answer_at (OpenCall.Unlock uid) body.now) (λ answer. Gives as_step desk.new (answered desk.old proc.number answer) step)) }
{
    match body {
        Body::Done => {
            desk.set_state(proc, uid, LockState::Free, 0);
            Ok(end(alloc, Reply::Fine))
        }
        _ => unreachable!(),
    }
}

/// A home answered a removal.
fn removal_answered(
    alloc: Global,
    desk: &mut Desk,
    proc: ProcId,
    uid: Uid,
    body: &Body,
) -> Result<Step, NoMemory>
    requires own { IsOf desk.old proc }
    requires kept { IsDesk desk.old }
    requires stands { ReleaseStands desk.old proc.number uid }
    requires fits { IsSome (answer_at (OpenCall.Remove uid) body.now) }
    ensures outcome { IfOk result (λ step. IfSome (answer_at (OpenCall.Remove uid) body.now) (λ answer. Gives as_step desk.new (answered desk.old proc.number answer) step)) }
    ensures memory { OnErr result (IfSome (answer_at (OpenCall.Remove uid) body.now) (MayWantAt desk.old proc.number)) }
{
    match body {
        Body::Done => {
            desk.set_state(proc, uid, LockState::Free, 0);
            removed(alloc, desk, proc, uid)
        }
        _ => unreachable!(),
    }
}

/// An object was removed, whose process is Free on it now.
fn removed(alloc: Global, desk: &mut Desk, proc: ProcId, uid: Uid) -> Result<Step, NoMemory>
    requires own { IsOf desk.old proc }
    requires kept { IsDesk desk.old }
    requires given_up { keeps (entry_at desk.old.entries proc.number uid) ≡ false }
    ensures outcome { IfOk result (Gives as_step desk.new (removed desk.old uid (any_keeps desk.old.entries uid))) }
    ensures memory { OnErr result (any_keeps desk.old.entries uid ≡ false) }
{
    let last = !desk.others_keep(proc, uid);
    let dropped = drop_pages(alloc, desk, uid, last)?;
    if last {
        desk.forget_seen(uid);
    }
    Ok(Step::End(Reply::Fine, dropped))
}
