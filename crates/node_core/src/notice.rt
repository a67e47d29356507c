//! A process is told that a frame of its open call was lost or is late.
ghost use Rattle.std.specs.Prelude.{◌≡◌, ◌≤◌, ◌<◌, ◌^◌, ℕ, [], length, false, IsSome, OnOk};
ghost use Rattle.std.specs.Option.{ForSome};
ghost use Rattle.uid_names.specs.declared.limits.TheConstants.{NODE_PROCESSES};
ghost use Rattle.dom_history.specs.declared.op.Op.{Op};
ghost use Rattle.dom_history.specs.declared.op.Want.TheVariants.{Do};
ghost use Rattle.dom_history.specs.Fitting.{Fits};
ghost use Rattle.ring_messages.specs.Ranges.{IsBody, LiesWithin};
ghost use Rattle.uid_names.specs.Wires.{wire_room};
ghost use Rattle.fault_handler.specs.Desks.{at};
ghost use Rattle.fault_handler.specs.Conditions.{IsOf};
ghost use Rattle.fault_handler.specs.Outcomes.{ended};
ghost use Rattle.node_runs.specs.NodeStates.{proc_of};
ghost use Rattle.node_runs.specs.Doings.{notices};
ghost use Rattle.node_runs.specs.Operations.{failed as failed_as};
ghost use Rattle.node_core.specs.Processes.{IsWanted, IsCalling, again_sent, want_at, is_new, is_list};
ghost use Rattle.node_core.specs.Programs.{program_in};
ghost use Rattle.node_core.specs.Calls.{IsInCall};

use crate::machine::Machine;
use crate::processes::{Again, Proc, index_of};
use crate::turns::Done;
use dom_history::{Dropped, Op, Program, Reply, Want};
use fault_handler::{Desk, OpenCall};
use lock_validate::call_failed;
use page_store::Pages;
use ring_messages::Frame;
use std::alloc::Global;
use uid_names::{NODE_PROCESSES, NoMemory, ProcId};

impl<P: Program, G: Pages> Machine<P, G> {
    ghost use Rattle.node_core.specs.Machines.{given_of, state_of, IsAtEvent, IsBefore};
    ghost use Rattle.node_core.specs.Outcomes.{IsFresh, Sent, GivesUp, Does};

    /// The request is sent again, or the call is given up.
    pub(crate) fn notice(
        &mut self,
        alloc: Global,
        proc: ProcId,
        done: &mut Done,
    ) -> Result<(), NoMemory>
        requires fresh { IsFresh done.old }
        requires own { proc.node ≡ self.old.desk.node }
        requires before { IsBefore P.spent P.wants self.old }
        requires program { IsSome (program_in self.old.programs.items proc.number) }
        requires called { IsCalling (proc_of (state_of self.old) proc.number).doing }
        ensures { OnOk result (Does P.spent P.wants P.becomes self.old self.new done.new
            (notices (given_of self.old) (state_of self.old) proc.number (proc_of (state_of self.old) proc.number).doing)) }
    {
        let again = self.procs[index_of(proc)].notice(alloc)?;
        match again {
            Some(again) => {
                self.resends(alloc, proc, again, done);
                Ok(())
            }
            None => self.gives_up(alloc, proc, done),
        }
    }

    /// The request of a call is sent again, by a frame of its own.
    fn resends(&mut self, alloc: Global, proc: ProcId, again: Again, done: &mut Done)
        requires fresh { IsFresh done.old }
        requires counted { (to : ℕ) → at self.old.emitted to 0 < 2 ^ 40 }
        requires ticked { 1 ≤ self.old.tick }
        requires number { 1 ≤ again.number }
        requires range { IsBody again.home again.body }
        requires within { LiesWithin (wire_room self.old.server.wire) again.body }
        ensures { Sent self.old self.new done.new (again_sent self.old.server.wire self.old.desk.node proc.number self.old.tick again) [] }
    {
        let Again { home, number, body } = again;
        let (version, from) = (self.server.wire(), self.node());
        let frame = Frame::new(version, from, home, proc.number(), number, self.tick, body);
        self.sends(frame, Dropped::new(alloc), done)
    }

    /// The open call of a process is given up, and its operation ends.
    fn gives_up(&mut self, alloc: Global, proc: ProcId, done: &mut Done) -> Result<(), NoMemory>
        requires fresh { IsFresh done.old }
        requires own { proc.node ≡ self.old.desk.node }
        requires at { IsAtEvent P.spent P.wants self.old }
        requires program { IsSome (program_in self.old.programs.items proc.number) }
        requires wanted { IsWanted (want_at self.old.procs proc.number) }
        requires call { (op : Op) → want_at self.old.procs proc.number ≡ Do op → IsInCall self.old.desk proc.number op }
        ensures { OnOk result (GivesUp P.spent P.wants P.becomes self.old self.new done.new proc.number) }
    {
        let (desk, procs) = (&mut self.desk, &self.procs);
        let reply = failed_wanted(desk, proc, procs);
        self.ends(alloc, proc, reply, Dropped::new(alloc), done)
    }
}

/// The reply to what a process wants, whose call is given up.
fn failed_wanted(desk: &mut Desk, proc: ProcId, procs: &[Proc; NODE_PROCESSES]) -> Reply
    requires own { IsOf desk.old proc }
    requires four { length procs.now ≡ NODE_PROCESSES }
    requires wanted { IsWanted (want_at procs.now proc.number) }
    requires call { (op : Op) → want_at procs.now proc.number ≡ Do op → IsInCall desk.old proc.number op }
    ensures outcome { (op : Op) → want_at procs.now proc.number ≡ Do op → ForSome (failed_as desk.old proc.number op) (λ m. m ≡ ended desk.new result) }
    ensures fits { (op : Op) → want_at procs.now proc.number ≡ Do op → Fits op result }
    ensures node { desk.new.node ≡ desk.old.node }
{
    let at = index_of(proc);
    failed(desk, proc, &procs[at].want)
}

/// The reply to an operation whose call is given up.
fn failed(desk: &mut Desk, proc: ProcId, want: &Want) -> Reply
    requires own { IsOf desk.old proc }
    requires wanted { IsWanted want.now }
    requires call { (op : Op) → want.now ≡ Do op → IsInCall desk.old proc.number op }
    ensures outcome { (op : Op) → want.now ≡ Do op → ForSome (failed_as desk.old proc.number op) (λ m. m ≡ ended desk.new result) }
    ensures fits { (op : Op) → want.now ≡ Do op → Fits op result }
    ensures node { desk.new.node ≡ desk.old.node }
{
    match want {
        Want::Do(Op::New { .. } | Op::List { .. }) => Reply::LinkFault,
        _ => failed_at_desk(desk, proc, want),
    }
}

/// The reply to an operation whose call is given up, where the desk has a part in the operation.
fn failed_at_desk(desk: &mut Desk, proc: ProcId, want: &Want) -> Reply
    requires own { IsOf desk.old proc }
    requires wanted { IsWanted want.now }
    requires not_new { is_new want.now ≡ false }
    requires not_list { is_list want.now ≡ false }
    requires call { (op : Op) → want.now ≡ Do op → IsInCall desk.old proc.number op }
    ensures outcome { (op : Op) → want.now ≡ Do op → ForSome (failed_as desk.old proc.number op) (λ m. m ≡ ended desk.new result) }
    ensures fits { (op : Op) → want.now ≡ Do op → Fits op result }
    ensures node { desk.new.node ≡ desk.old.node }
{
    let Some(call) = desk.open_call(proc) else {
        unreachable!()
    };
    match call {
        OpenCall::Access => desk.access_failed(proc),
        _ => call_failed(desk, proc),
    }
}
