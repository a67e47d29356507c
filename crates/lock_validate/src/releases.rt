//! Unlocks and removals: what is sent home before them, in this order: the lowest dirty page, and so on
//! until none is dirty; then a changed length; then the release or the removal.
ghost use Rattle.std.specs.Prelude.{◌≡◌, true, IsSome, IfOk, OnOk, OnErr, Some, None};
ghost use Rattle.std.specs.Option.{ForSome};
ghost use Rattle.dom_history.specs.declared.op.Op.{Op};
ghost use Rattle.dom_history.specs.Locks.{is_free, is_held};
ghost use Rattle.dom_history.specs.Replies.{may_write, may_delete};
ghost use Rattle.page_cache.specs.Caches.{IsResident};
ghost use Rattle.page_cache.specs.Numbers.{dirty_page};
ghost use Rattle.fault_handler.specs.Desks.{IsNode, entry_at, state_of, other_transit};
ghost use Rattle.fault_handler.specs.Entries.{keeps_writing};
ghost use Rattle.fault_handler.specs.Lengths.{known_of, changed_length};
ghost use Rattle.fault_handler.specs.Outcomes.{Gives};
ghost use Rattle.fault_handler.specs.Invariant.{IsDesk};
ghost use Rattle.fault_handler.specs.Conditions.{IsOf, IsIdle, IsNotAccessing};
ghost use Rattle.fault_handler.specs.Ready.{IsReady};
ghost use Rattle.fault_handler.specs.Next.{FitsTurn, IsAsked, MayGoOn, IsNext};
ghost use Rattle.lock_validate.specs.Steps.{sent, as_step, TellsTurn};
ghost use Rattle.lock_validate.specs.Releases.{release_call, release_ask, length_first, page_first, release_of, unlock_by, begin_unlock_of, delete_by, begin_delete_of, begin_release_of, release_in};
ghost use Rattle.lock_validate.specs.Wants.{SendsPage};

use crate::sends::{end, send};
use crate::step::Step;
use dom_history::{Dropped, Op, Reply};
use fault_handler::{Desk, LockState, OpenCall};
use ring_messages::Body;
use std::alloc::Global;
use uid_names::{NoMemory, ProcId, Uid};

/// Begins an unlock. Wants memory only where a page is sent home, and without it nothing changes.
pub fn begin_unlock(
    alloc: Global,
    desk: &mut Desk,
    proc: ProcId,
    uid: Uid,
) -> Result<Step, NoMemory>
    requires own { IsOf desk.old proc }
    requires idle { IsIdle desk.old proc.number }
    ensures unchanged { OnErr result (desk.new ≡ desk.old) }
    ensures memory { OnErr result (SendsPage desk.old uid) }
    ensures outcome { IfOk result (Gives as_step desk.new (begin_unlock_of desk.old proc.number uid)) }
    ensures fits { IfOk result (TellsTurn (FitsTurn (Op.Unlock uid))) }
    ensures asks { IfOk result (TellsTurn (IsAsked desk.new.nodes)) }
    ensures next { IfOk result (TellsTurn (IsNext desk.new proc.number (Op.Unlock uid))) }
    ensures ready { OnOk result (IsReady desk.new proc.number) }
    ensures node { OnOk result (desk.new.node ≡ desk.old.node) }
    ensures nodes { OnOk result (desk.new.nodes ≡ desk.old.nodes) }
{
    let state = desk.state(proc, uid);
    unlock_by(alloc, desk, proc, uid, state)
}

/// Begins an unlock, from the process's state on the object.
fn unlock_by(
    alloc: Global,
    desk: &mut Desk,
    proc: ProcId,
    uid: Uid,
    state: LockState,
) -> Result<Step, NoMemory>
    requires own { IsOf desk.old proc }
    requires idle { IsIdle desk.old proc.number }
    requires kept { IsDesk desk.old }
    requires state { state ≡ state_of desk.old proc.number uid }
    ensures unchanged { OnErr result (desk.new ≡ desk.old) }
    ensures memory { OnErr result (SendsPage desk.old uid) }
    ensures outcome { IfOk result (Gives as_step desk.new (unlock_by desk.old proc.number uid (is_free state) (is_held state) (may_write state))) }
{
    match state {
        LockState::Free => Ok(end(alloc, Reply::NotHeld)),
        LockState::Held(mode) if mode.writes() => release(alloc, desk, proc, uid, false),
        LockState::Held(_) => {
            desk.note_release(proc, uid);
            Ok(send_release(alloc, desk, proc, uid, false))
        }
        LockState::Taking(_) | LockState::Releasing(_) | LockState::Deleting => {
            Ok(send_release(alloc, desk, proc, uid, false))
        }
    }
}

/// Begins a removal. Wants memory only where a page is sent home, and without it nothing changes.
pub fn begin_delete(
    alloc: Global,
    desk: &mut Desk,
    proc: ProcId,
    uid: Uid,
) -> Result<Step, NoMemory>
    requires own { IsOf desk.old proc }
    requires idle { IsIdle desk.old proc.number }
    ensures unchanged { OnErr result (desk.new ≡ desk.old) }
    ensures memory { OnErr result (SendsPage desk.old uid) }
    ensures outcome { IfOk result (Gives as_step desk.new (begin_delete_of desk.old proc.number uid)) }
    ensures fits { IfOk result (TellsTurn (FitsTurn (Op.Delete uid))) }
    ensures asks { IfOk result (TellsTurn (IsAsked desk.new.nodes)) }
    ensures next { IfOk result (TellsTurn (IsNext desk.new proc.number (Op.Delete uid))) }
    ensures ready { OnOk result (IsReady desk.new proc.number) }
    ensures node { OnOk result (desk.new.node ≡ desk.old.node) }
    ensures nodes { OnOk result (desk.new.nodes ≡ desk.old.nodes) }
{
    let state = desk.state(proc, uid);
    delete_by(alloc, desk, proc, uid, state)
}

/// Begins a removal, from the process's state on the object.
fn delete_by(
    alloc: Global,
    desk: &mut Desk,
    proc: ProcId,
    uid: Uid,
    state: LockState,
) -> Result<Step, NoMemory>
    requires own { IsOf desk.old proc }
    requires idle { IsIdle desk.old proc.number }
    requires kept { IsDesk desk.old }
    requires state { state ≡ state_of desk.old proc.number uid }
    ensures unchanged { OnErr result (desk.new ≡ desk.old) }
    ensures memory { OnErr result (SendsPage desk.old uid) }
    ensures outcome { IfOk result (Gives as_step desk.new (delete_by desk.old proc.number uid (is_held state) (may_delete state))) }
{
    match state {
        LockState::Held(mode) if mode.removes() => release(alloc, desk, proc, uid, true),
        LockState::Held(_) => Ok(end(alloc, Reply::WrongMode)),
        LockState::Free | LockState::Taking(_) | LockState::Releasing(_) | LockState::Deleting =>
            Ok(end(alloc, Reply::NoLock)),
    }
}

/// Goes on with an unlock or a removal that waited: its tests are made anew. Wants memory only where a page is sent
/// home, and without it nothing changes.
pub fn go_on(alloc: Global, desk: &mut Desk, proc: ProcId, op: &Op) -> Result<Step, NoMemory>
    requires own { IsOf desk.old proc }
    requires idle { IsIdle desk.old proc.number }
    requires release { IsSome (release_in op.now) }
    requires may { MayGoOn desk.old proc.number op.now }
    ensures unchanged { OnErr result (desk.new ≡ desk.old) }
    ensures memory { OnErr result (ForSome (release_in op.now) (λ (delete, u). SendsPage desk.old u)) }
    ensures outcome { IfOk result (λ step. ForSome (release_in op.now) (λ (delete, u). Gives as_step desk.new (begin_release_of desk.old proc.number delete u) step)) }
    ensures fits { IfOk result (TellsTurn (FitsTurn op.now)) }
    ensures asks { IfOk result (TellsTurn (IsAsked desk.new.nodes)) }
    ensures next { IfOk result (TellsTurn (IsNext desk.new proc.number op.now)) }
    ensures ready { OnOk result (IsReady desk.new proc.number) }
    ensures node { OnOk result (desk.new.node ≡ desk.old.node) }
    ensures nodes { OnOk result (desk.new.nodes ≡ desk.old.nodes) }
{
    match op {
        Op::Unlock { uid } => begin_unlock(alloc, desk, proc, *uid),
        Op::Delete { uid } => begin_delete(alloc, desk, proc, *uid),
        Op::New { .. }
        | Op::Lock { .. }
        | Op::Load { .. }
        | Op::Store { .. }
        | Op::Length { .. }
        | Op::Map { .. }
        | Op::Unmap { .. }
        | Op::List { .. } => unreachable!(),
    }
}

/// Sends the release of a lock that is held in a mode that writes, or the removal of its object, or what
/// is to be sent home before it.
pub(crate) fn release(
    alloc: Global,
    desk: &mut Desk,
    proc: ProcId,
    uid: Uid,
    delete: bool,
) -> Result<Step, NoMemory>
    requires own { IsOf desk.old proc }
    requires idle { IsIdle desk.old proc.number }
    requires writes { keeps_writing (entry_at desk.old.entries proc.number uid) ≡ true }
    ensures unchanged { OnErr result (desk.new ≡ desk.old) }
    ensures memory { OnErr result (SendsPage desk.old uid) }
    ensures outcome { IfOk result (Gives as_step desk.new (release_of desk.old proc.number uid delete)) }
{
    if let Some(page) = desk.other_transit(proc, uid) {
        return Ok(Step::Wait(uid, page, Dropped::new(alloc)));
    }
    if let Some(page) = desk.dirty_page(uid) {
        return send_page(alloc, desk, proc, uid, page, delete);
    }
    Ok(send_length(alloc, desk, proc, uid, delete))
}

/// Sends home the lowest dirty page.
fn send_page(
    alloc: Global,
    desk: &mut Desk,
    proc: ProcId,
    uid: Uid,
    page: u32,
    delete: bool,
) -> Result<Step, NoMemory>
    requires own { IsOf desk.old proc }
    requires idle { IsIdle desk.old proc.number }
    requires kept { IsDesk desk.old }
    requires writes { keeps_writing (entry_at desk.old.entries proc.number uid) ≡ true }
    requires resident { IsResident desk.old.cache.pages uid page }
    requires alone { other_transit desk.old.moving proc.number uid ≡ None }
    ensures unchanged { OnErr result (desk.new ≡ desk.old) }
    ensures outcome { IfOk result (Gives as_step desk.new (page_first desk.old proc.number uid delete (Some page))) }
{
    let body = desk.send_page(alloc, proc, uid, page)?;
    let call = OpenCall::PageOut(uid, page, delete);
    Ok(send(alloc, desk, proc, call, uid.home(), body))
}

/// Sends home a changed length, or else the release or the removal.
fn send_length(alloc: Global, desk: &mut Desk, proc: ProcId, uid: Uid, delete: bool) -> Step
    requires own { IsOf desk.old proc }
    requires idle { IsIdle desk.old proc.number }
    requires kept { IsDesk desk.old }
    requires writes { keeps_writing (entry_at desk.old.entries proc.number uid) ≡ true }
    requires clean { dirty_page desk.old.cache.pages uid ≡ None }
    ensures { Gives as_step desk.new (length_first desk.old proc.number uid delete (changed_length (known_of uid desk.old.known))) result }
{
    let Some(length) = desk.changed_length(uid) else {
        desk.note_release(proc, uid);
        return send_release(alloc, desk, proc, uid, delete);
    };
    let body = Body::AttrOut {
        uid,
        length,
        grant: desk.grant(proc, uid).unwrap_or(0),
        base: desk.seen(uid).unwrap_or(0),
    };
    let call = OpenCall::AttrOut(uid, length, delete);
    send(alloc, desk, proc, call, uid.home(), body)
}

/// Sends the release or the removal.
fn send_release(alloc: Global, desk: &mut Desk, proc: ProcId, uid: Uid, delete: bool) -> Step
    requires own { IsOf desk.old proc }
    requires other { IsNotAccessing desk.old proc.number }
    requires home { IsNode desk.old.nodes uid.home }
    ensures { Gives as_step desk.new (sent desk.old proc.number (release_call delete uid) uid.home (release_ask delete uid)) result }
{
    let (call, body) = if delete {
        (OpenCall::Remove(uid), Body::Remove { uid })
    } else {
        (OpenCall::Unlock(uid), Body::Unlock { uid })
    };
    send(alloc, desk, proc, call, uid.home(), body)
}
