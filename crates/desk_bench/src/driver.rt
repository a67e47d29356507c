//! What a process does at its desk, what a home answers, and a link fault: each keeps every process of the node ready.
ghost use Rattle.std.specs.Prelude.{◌≡◌, ℕ, ◌≤◌, true, IfOk, OnOk, IsSome};
ghost use Rattle.std.specs.Bool.{OnTrue};
ghost use Rattle.dom_history.specs.Ranges.{IsOp};
ghost use Rattle.ring_messages.specs.Ranges.{IsBody, IsWhole};
ghost use Rattle.fault_handler.specs.Invariant.{IsDesk};
ghost use Rattle.fault_handler.specs.Accesses.{desk_op};
ghost use Rattle.fault_handler.specs.LockCalls.{lock_call, answers};
ghost use Rattle.fault_handler.specs.Conditions.{IsOf, IsIdle};
ghost use Rattle.desk_bench.specs.AllReady.{AllReady};

use anyhow::{Context, Result, bail};
use dom_history::{Dropped, Op, Reply};
use fault_handler::{Access, Desk, LockState, OpenCall};
use lock_validate::{
    Step, answer_came, begin_delete, begin_lock, begin_unlock, call_failed, go_on,
};
use ring_messages::Body;
use std::alloc::Global;
use uid_names::{MAX_LENGTH, MAX_ROOM, NodeId, PAGE_BYTES, ProcId, Uid};

/// What a call came to, and the pages that it dropped.
#[derive(Drop)]
pub enum Came {
    Ends(Reply, Dropped),
    Asks(NodeId, Body, Dropped),
    Waits(Uid, u32, Dropped),
}

fn from_access(access: Access) -> Came {
    match access {
        Access::Hit(reply, dropped) | Access::Refuse(reply, dropped) => Came::Ends(reply, dropped),
        Access::Need(home, body, dropped) => Came::Asks(home, body, dropped),
        Access::Wait(uid, page, dropped) => Came::Waits(uid, page, dropped),
    }
}

fn from_step(step: Step) -> Came {
    match step {
        Step::Send(home, body, dropped) => Came::Asks(home, body, dropped),
        Step::Wait(uid, page, dropped) => Came::Waits(uid, page, dropped),
        Step::End(reply, dropped) => Came::Ends(reply, dropped),
    }
}

/// The desk of the first of three nodes.
pub fn new_desk(alloc: Global, frames: u16) -> Result<Desk>
    requires low { 5 ≤ frames }
    requires high { frames ≤ 256 }
    ensures { IfOk result AllReady }
{
    let node = NodeId::new(1).context("no node")?;
    Ok(Desk::new(alloc, node, 3, frames)?)
}

/// A process of the desk's node, and what the desk keeps.
pub fn proc(desk: &Desk, number: u8) -> Result<ProcId>
    ensures own { IfOk result (IsOf desk.now) }
    ensures desk { OnOk result (IsDesk desk.now) }
{
    let proc = ProcId::new(desk.node(), number).context("no process")?;
    let _call = desk.open_call(proc);
    Ok(proc)
}

/// A process that may begin an operation, or go on with one that waited.
fn idle(desk: &Desk, number: u8) -> Result<ProcId>
    ensures own { IfOk result (IsOf desk.now) }
    ensures desk { OnOk result (IsDesk desk.now) }
    ensures idle { IfOk result (λ p. IsIdle desk.now p.number) }
{
    let proc = proc(desk, number)?;
    if desk.is_idle(proc) {
        Ok(proc)
    } else {
        bail!("not idle")
    }
}

/// A process begins an operation of a desk, or goes on with a load or store that waited.
pub fn begin(alloc: Global, desk: &mut Desk, number: u8, op: &Op) -> Result<Came>
    requires ready { AllReady desk.old }
    requires range { IsOp op.now }
    ensures { OnOk result (AllReady desk.new) }
{
    let proc = idle(desk, number)?;
    match op {
        Op::Lock { uid, mode } => Ok(from_step(begin_lock(alloc, desk, proc, *uid, *mode)?)),
        Op::Unlock { uid } => Ok(from_step(begin_unlock(alloc, desk, proc, *uid)?)),
        Op::Delete { uid } => Ok(from_step(begin_delete(alloc, desk, proc, *uid)?)),
        Op::Load { .. }
        | Op::Store { .. }
        | Op::Length { .. }
        | Op::Map { .. }
        | Op::Unmap { .. } => access(alloc, desk, proc, op),
        Op::New { .. } | Op::List { .. } => bail!("no operation of a desk"),
    }
}

/// A process begins an operation that the desk alone answers, or by its pages.
fn access(alloc: Global, desk: &mut Desk, proc: ProcId, op: &Op) -> Result<Came>
    requires own { IsOf desk.old proc }
    requires desk { IsDesk desk.old }
    requires ready { AllReady desk.old }
    requires idle { IsIdle desk.old proc.number }
    requires access { IsSome (desk_op op.now) }
    requires range { IsOp op.now }
    ensures { OnOk result (AllReady desk.new) }
{
    Ok(from_access(desk.access(alloc, proc, op)?))
}

/// A process goes on with an unlock that waited.
pub fn unlock_again(alloc: Global, desk: &mut Desk, number: u8, uid: Uid) -> Result<Came>
    requires { AllReady desk.old }
    ensures { OnOk result (AllReady desk.new) }
{
    let proc = idle(desk, number)?;
    match desk.state(proc, uid) {
        LockState::Free => bail!("not locked"),
        LockState::Held(_) | LockState::Taking(_) | LockState::Releasing(_) | LockState::Deleting =>
            Ok(from_step(go_on(alloc, desk, proc, &Op::Unlock { uid })?)),
    }
}

/// A home answers the open call of a process.
pub fn answer(alloc: Global, desk: &mut Desk, number: u8, body: &Body) -> Result<Came>
    requires { AllReady desk.old }
    ensures { OnOk result (AllReady desk.new) }
{
    let proc = proc(desk, number)?;
    if is_sent(body) && desk.answers(proc, body) {
        return answered(alloc, desk, proc, body);
    }
    bail!("no such answer is due")
}

/// Whether a home can have sent a body as an answer.
fn is_sent(body: &Body) -> bool
    ensures { OnTrue result ((node : ℕ) → IsBody node body.now) }
{
    match body {
        Body::Page { stamp, bytes } => is_sent_page(*stamp, bytes.bytes()),
        Body::Stored { stamp } | Body::Stale { stamp } => *stamp >= 1,
        Body::Granted {
            grant,
            stamp,
            room,
            length,
            ..
        } => {
            *grant >= 1 && *stamp >= 1 && *room >= 1 && *room <= MAX_ROOM && *length <= MAX_LENGTH
        }
        Body::Conflict { .. } | Body::NoObject | Body::Done => true,
        _ => false,
    }
}

/// Whether it can have sent a page, which has its bytes.
fn is_sent_page(stamp: u64, bytes: &[u8; PAGE_BYTES]) -> bool
    ensures { OnTrue result ((1 ≤ stamp) × IsWhole bytes.now) }
{
    let _bytes = bytes;
    stamp >= 1
}

/// A home answers the open call of a process with what fits it.
fn answered(alloc: Global, desk: &mut Desk, proc: ProcId, body: &Body) -> Result<Came>
    requires own { IsOf desk.old proc }
    requires desk { IsDesk desk.old }
    requires ready { AllReady desk.old }
    requires fits { answers desk.old proc.number body.now ≡ true }
    requires range { (node : ℕ) → IsBody node body.now }
    ensures { OnOk result (AllReady desk.new) }
{
    match desk.open_call(proc) {
        Some(OpenCall::Access) => Ok(from_access(desk.page_came(alloc, proc, body)?)),
        Some(call) if is_lock_call(call) => Ok(from_step(answer_came(alloc, desk, proc, body)?)),
        _ => bail!("no call is open"),
    }
}

/// A link fault ends the open call of a process.
pub fn fault(desk: &mut Desk, number: u8) -> Result<Reply>
    requires { AllReady desk.old }
    ensures { OnOk result (AllReady desk.new) }
{
    let proc = proc(desk, number)?;
    match desk.open_call(proc) {
        Some(OpenCall::Access) => Ok(desk.access_failed(proc)),
        Some(call) if is_lock_call(call) => Ok(call_failed(desk, proc)),
        _ => bail!("no call is open"),
    }
}

/// Whether an open call is that of a lock, an unlock or a removal.
fn is_lock_call(call: OpenCall) -> bool
    ensures { OnTrue result (IsSome (lock_call call)) }
{
    match call {
        OpenCall::Access => false,
        OpenCall::Lock(..)
        | OpenCall::PageOut(..)
        | OpenCall::AttrOut(..)
        | OpenCall::Unlock(_)
        | OpenCall::Remove(_) => true,
    }
}
