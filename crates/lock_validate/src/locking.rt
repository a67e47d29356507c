//! How a lock begins.
ghost use Rattle.std.specs.Prelude.{◌≡◌, IsOk, IfOk, OnOk};
ghost use Rattle.dom_history.specs.declared.deed.LockState.TheVariants.{Free};
ghost use Rattle.dom_history.specs.declared.op.Op.{Op};
ghost use Rattle.fault_handler.specs.Outcomes.{Gives};
ghost use Rattle.fault_handler.specs.Conditions.{IsOf, IsIdle};
ghost use Rattle.fault_handler.specs.Ready.{IsReady};
ghost use Rattle.fault_handler.specs.Next.{FitsTurn, IsAsked, IsNext};
ghost use Rattle.lock_validate.specs.Steps.{as_step, TellsTurn};
ghost use Rattle.lock_validate.specs.Locking.{lock_from, begin_lock_of};

use crate::sends::{end, send};
use crate::step::Step;
use dom_history::Reply;
use fault_handler::{Desk, LockState, OpenCall};
use ring_messages::Body;
use std::alloc::Global;
use uid_names::{Mode, NoMemory, PROCESS_LOCKS, ProcId, Uid};

/// Begins a lock. Takes no memory.
pub fn begin_lock(
    alloc: Global,
    desk: &mut Desk,
    proc: ProcId,
    uid: Uid,
    mode: Mode,
) -> Result<Step, NoMemory>
    requires own { IsOf desk.old proc }
    requires idle { IsIdle desk.old proc.number }
    ensures done { IsOk result }
    ensures outcome { IfOk result (Gives as_step desk.new (begin_lock_of desk.old proc.number uid mode)) }
    ensures fits { IfOk result (TellsTurn (FitsTurn (Op.Lock uid mode))) }
    ensures asks { IfOk result (TellsTurn (IsAsked desk.new.nodes)) }
    ensures next { IfOk result (TellsTurn (IsNext desk.new proc.number (Op.Lock uid mode))) }
    ensures ready { OnOk result (IsReady desk.new proc.number) }
    ensures node { OnOk result (desk.new.node ≡ desk.old.node) }
    ensures nodes { OnOk result (desk.new.nodes ≡ desk.old.nodes) }
{
    let state = desk.state(proc, uid);
    Ok(lock_by(alloc, desk, proc, uid, mode, state))
}

/// Begins a lock, from the process's state on the object.
fn lock_by(
    alloc: Global,
    desk: &mut Desk,
    proc: ProcId,
    uid: Uid,
    mode: Mode,
    state: LockState,
) -> Step
    requires own { IsOf desk.old proc }
    requires idle { IsIdle desk.old proc.number }
    ensures { Gives as_step desk.new (lock_from desk.old proc.number uid mode state) result }
{
    match state {
        LockState::Held(_) => end(alloc, Reply::AlreadyHeld),
        LockState::Taking(_) | LockState::Releasing(_) | LockState::Deleting => {
            end(alloc, Reply::Unsettled)
        }
        LockState::Free => lock_free(alloc, desk, proc, uid, mode),
    }
}

/// Begins a lock on an object on which the process is Free.
fn lock_free(alloc: Global, desk: &mut Desk, proc: ProcId, uid: Uid, mode: Mode) -> Step
    requires own { IsOf desk.old proc }
    requires idle { IsIdle desk.old proc.number }
    ensures { Gives as_step desk.new (lock_from desk.old proc.number uid mode Free) result }
{
    if usize::from(desk.not_free(proc)) >= PROCESS_LOCKS {
        return end(alloc, Reply::TooMany);
    }
    let home = uid.home();
    if home.number() > desk.nodes() {
        return end(alloc, Reply::NoObject);
    }
    let (call, body) = (OpenCall::Lock(uid, mode), Body::Lock { uid, mode });
    send(alloc, desk, proc, call, home, body)
}
