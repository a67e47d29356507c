//! A link fault ends the call of a lock, an unlock or a removal.
ghost use Rattle.std.specs.Prelude.{◌≡◌, None, IsSome, IfSome};
ghost use Rattle.std.specs.Option.{ForSome};
ghost use Rattle.dom_history.specs.declared.op.Op.{Op};
ghost use Rattle.dom_history.specs.Fitting.{Fits};
ghost use Rattle.fault_handler.specs.Desks.{open_call_of};
ghost use Rattle.fault_handler.specs.Outcomes.{ended};
ghost use Rattle.fault_handler.specs.LockCalls.{lock_call};
ghost use Rattle.fault_handler.specs.Invariant.{IsDesk};
ghost use Rattle.fault_handler.specs.Conditions.{IsOf, IsIdle};
ghost use Rattle.fault_handler.specs.Ready.{CallStands, IsReady};
ghost use Rattle.fault_handler.specs.Next.{IsOpen};
ghost use Rattle.lock_validate.specs.Answers.{lock_call_of};
ghost use Rattle.lock_validate.specs.Faults.{failed, call_failed_of};

use dom_history::Reply;
use fault_handler::{Desk, LockState, OpenCall};
use uid_names::ProcId;

/// A link fault ended the process's open call: the lock is kept where its release or removal was not sent
/// yet, and else whether the home acted is open. Takes no memory.
pub fn call_failed(desk: &mut Desk, proc: ProcId) -> Reply
    requires own { IsOf desk.old proc }
    requires ready { IsReady desk.old proc.number }
    requires lock { IsSome (lock_call_of desk.old proc.number) }
    ensures outcome { ForSome (lock_call_of desk.old proc.number) (λ call. call_failed_of desk.old proc.number call ≡ ended desk.new result) }
    ensures fits { (op : Op) → IsOpen desk.old proc.number op → Fits op result }
    ensures next { IsIdle desk.new proc.number }
    ensures ready { IsReady desk.new proc.number }
    ensures node { desk.new.node ≡ desk.old.node }
    ensures nodes { desk.new.nodes ≡ desk.old.nodes }
{
    let call = desk.open_call(proc);
    desk.set_open_call(proc, None);
    match call {
        Some(call) => failed(desk, proc, call),
        None => unreachable!(),
    }
}

/// A link fault ends the call that was open.
fn failed(desk: &mut Desk, proc: ProcId, call: OpenCall) -> Reply
    requires own { IsOf desk.old proc }
    requires kept { IsDesk desk.old }
    requires closed { open_call_of desk.old proc.number ≡ None }
    requires lock { IsSome (lock_call call) }
    requires stands { IfSome (lock_call call) (CallStands desk.old proc.number) }
    ensures { IfSome (lock_call call) (λ c. failed desk.old proc.number c ≡ ended desk.new result) }
{
    match call {
        OpenCall::Lock(uid, mode) => {
            desk.set_state(proc, uid, LockState::Taking(mode), 0);
            Reply::Doubt
        }
        OpenCall::PageOut(..) => {
            desk.page_done(proc, false);
            Reply::Kept
        }
        OpenCall::AttrOut(..) => Reply::Kept,
        OpenCall::Unlock(uid) => {
            let mode = desk.state(proc, uid).mode();
            desk.set_state(proc, uid, LockState::Releasing(mode), 0);
            Reply::Doubt
        }
        OpenCall::Remove(uid) => {
            desk.set_state(proc, uid, LockState::Deleting, 0);
            Reply::Doubt
        }
        OpenCall::Access => unreachable!(),
    }
}
