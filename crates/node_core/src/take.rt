//! A frame is taken: a request is served, and a reply goes to the operation whose call it answers.
ghost use Rattle.std.specs.Prelude.{◌≡◌, true, false, Some, None, IsSome, IfSome, IsTrue, IsFalse, OnOk};
ghost use Rattle.std.specs.Option.{ForSome};
ghost use Rattle.dom_history.specs.declared.op.Op.{Op};
ghost use Rattle.dom_history.specs.declared.op.Op.TheVariants.{New, List as ListOp};
ghost use Rattle.dom_history.specs.declared.op.Want.TheVariants.{Do};
ghost use Rattle.ring_messages.specs.Bodies.{ask_of, is_request};
ghost use Rattle.ring_messages.specs.Ranges.{IsBody, LiesWithin};
ghost use Rattle.lock_validate.specs.Bounded.{IsBounded};
ghost use Rattle.uid_names.specs.Wires.{wire_room};
ghost use Rattle.fault_handler.specs.Invariant.{IsProc};
ghost use Rattle.node_runs.specs.SentFrames.{IsNamedBody, IsFrame};
ghost use Rattle.node_runs.specs.NodeStates.{proc_of};
ghost use Rattle.node_runs.specs.Doings.{takes, hears};
ghost use Rattle.node_core.specs.Processes.{IsWanted, want_at, is_new, is_list};
ghost use Rattle.node_core.specs.Programs.{program_in};
ghost use Rattle.node_core.specs.Calls.{IsInCall};

use crate::machine::Machine;
use crate::moves::DeskMove;
use crate::processes::{Await, Open, index_of};
use crate::turns::{Done, quiet};
use dom_history::{Dropped, Op, Program, Reply, Want};
use fault_handler::OpenCall;
use lock_validate::answer_came;
use page_store::Pages;
use ring_messages::{Body, Frame};
use std::alloc::Global;
use uid_names::{NoMemory, Place, ProcId};

impl<P: Program, G: Pages> Machine<P, G> {
    ghost use Rattle.node_core.specs.Machines.{given_of, state_of, IsAtEvent, IsBefore};
    ghost use Rattle.node_core.specs.Outcomes.{IsFresh, Does, Hears};

    /// A frame is taken.
    pub(crate) fn take(
        &mut self,
        alloc: Global,
        frame: &Frame,
        done: &mut Done,
    ) -> Result<(), NoMemory>
        requires fresh { IsFresh done.old }
        requires before { IsBefore P.spent P.wants self.old }
        requires here { frame.now.to ≡ self.old.desk.node }
        requires version { frame.now.version ≡ self.old.server.wire }
        requires frame { IsFrame frame.now }
        ensures { OnOk result (Does P.spent P.wants P.becomes self.old self.new done.new (Some (takes (state_of self.old) frame.now (ask_of frame.now.body)))) }
    {
        if frame.body().is_request() {
            self.serves(alloc, frame, done)
        } else {
            self.hears(alloc, frame, done)
        }
    }

    /// A request is served.
    fn serves(&mut self, alloc: Global, frame: &Frame, done: &mut Done) -> Result<(), NoMemory>
        requires fresh { IsFresh done.old }
        requires before { IsBefore P.spent P.wants self.old }
        requires here { frame.now.to ≡ self.old.desk.node }
        requires version { frame.now.version ≡ self.old.server.wire }
        requires request { IsTrue (is_request frame.now.body) }
        ensures { OnOk result (Does P.spent P.wants P.becomes self.old self.new done.new (Some (takes (state_of self.old) frame.now (ask_of frame.now.body)))) }
    {
        match self.server.serve(alloc, frame, self.tick)? {
            Some(reply) => {
                self.sends(reply, Dropped::new(alloc), done);
                Ok(())
            }
            None => {
                quiet(Dropped::new(alloc), done);
                Ok(())
            }
        }
    }

    /// A reply is taken. One that is of no open call does nothing.
    fn hears(&mut self, alloc: Global, frame: &Frame, done: &mut Done) -> Result<(), NoMemory>
        requires fresh { IsFresh done.old }
        requires before { IsBefore P.spent P.wants self.old }
        requires here { frame.now.to ≡ self.old.desk.node }
        requires version { frame.now.version ≡ self.old.server.wire }
        requires frame { IsFrame frame.now }
        requires reply { IsFalse (is_request frame.now.body) }
        ensures { OnOk result (Does P.spent P.wants P.becomes self.old self.new done.new
            (Some (hears (state_of self.old) frame.now (proc_of (state_of self.old) frame.now.proc).doing))) }
    {
        let proc = frame.caller();
        let Some(Open { begun, awaits }) = self.procs[index_of(proc)].doing() else {
            quiet(Dropped::new(alloc), done);
            return Ok(());
        };
        let Await::Answer(call) = awaits else {
            quiet(Dropped::new(alloc), done);
            return Ok(());
        };
        if !call.asking.fits(frame.number()) {
            quiet(Dropped::new(alloc), done);
            return Ok(());
        }
        self.hears_body(alloc, proc, begun, frame.body(), done)
    }

    /// A reply to the open call of a process is taken. One that does not fit does nothing.
    fn hears_body(
        &mut self,
        alloc: Global,
        proc: ProcId,
        begun: Place,
        body: &Body,
        done: &mut Done,
    ) -> Result<(), NoMemory>
        requires fresh { IsFresh done.old }
        requires own { proc.node ≡ self.old.desk.node }
        requires program { IsSome (program_in self.old.programs.items proc.number) }
        requires at { IsAtEvent P.spent P.wants self.old }
        requires wanted { IsWanted (want_at self.old.procs proc.number) }
        requires call { (op : Op) → want_at self.old.procs proc.number ≡ Do op → IsInCall self.old.desk proc.number op }
        requires range { IsBody proc.node body.now }
        requires within { LiesWithin (wire_room self.old.server.wire) body.now }
        requires low { IsBounded (wire_room self.old.server.wire) self.old.desk }
        requires named { IsNamedBody body.now }
        ensures { OnOk result (Hears P.spent P.wants P.becomes self.old self.new done.new proc.number begun body.now) }
    {
        match &self.procs[index_of(proc)].want {
            Want::Do(Op::New { .. }) => self.hears_made(alloc, proc, begun, body, done),
            Want::Do(Op::List { .. }) => self.hears_listed(alloc, proc, begun, body, done),
            _ => self.hears_at_desk(alloc, proc, begun, body, done),
        }
    }

    fn hears_made(
        &mut self,
        alloc: Global,
        proc: ProcId,
        begun: Place,
        body: &Body,
        done: &mut Done,
    ) -> Result<(), NoMemory>
        requires fresh { IsFresh done.old }
        requires at { IsAtEvent P.spent P.wants self.old }
        requires program { IsSome (program_in self.old.programs.items proc.number) }
        requires wanted { is_new (want_at self.old.procs proc.number) ≡ true }
        ensures { OnOk result (Hears P.spent P.wants P.becomes self.old self.new done.new proc.number begun body.now) }
    {
        let dropped = Dropped::new(alloc);
        match body {
            Body::Made { uid } => self.ends(alloc, proc, Reply::Made(*uid), dropped, done),
            Body::NoSpace => self.ends(alloc, proc, Reply::NoSpace, dropped, done),
            _ => {
                quiet(dropped, done);
                Ok(())
            }
        }
    }

    fn hears_listed(
        &mut self,
        alloc: Global,
        proc: ProcId,
        begun: Place,
        body: &Body,
        done: &mut Done,
    ) -> Result<(), NoMemory>
        requires fresh { IsFresh done.old }
        requires at { IsAtEvent P.spent P.wants self.old }
        requires program { IsSome (program_in self.old.programs.items proc.number) }
        requires wanted { is_list (want_at self.old.procs proc.number) ≡ true }
        requires range { IsBody proc.node body.now }
        ensures { OnOk result (Hears P.spent P.wants P.becomes self.old self.new done.new proc.number begun body.now) }
    {
        let dropped = Dropped::new(alloc);
        match body {
            Body::Listed { rows, more } => {
                let rows = rows.copy(alloc)?;
                let reply = Reply::Locks { rows, more: *more };
                self.ends(alloc, proc, reply, dropped, done)
            }
            _ => {
                quiet(dropped, done);
                Ok(())
            }
        }
    }

    fn hears_at_desk(
        &mut self,
        alloc: Global,
        proc: ProcId,
        begun: Place,
        body: &Body,
        done: &mut Done,
    ) -> Result<(), NoMemory>
        requires fresh { IsFresh done.old }
        requires own { proc.node ≡ self.old.desk.node }
        requires process { IsProc proc.number }
        requires at { IsAtEvent P.spent P.wants self.old }
        requires program { IsSome (program_in self.old.programs.items proc.number) }
        requires wanted { IsWanted (want_at self.old.procs proc.number) }
        requires not_new { is_new (want_at self.old.procs proc.number) ≡ false }
        requires not_list { is_list (want_at self.old.procs proc.number) ≡ false }
        requires call { (op : Op) → want_at self.old.procs proc.number ≡ Do op → IsInCall self.old.desk proc.number op }
        requires range { IsBody proc.node body.now }
        requires within { LiesWithin (wire_room self.old.server.wire) body.now }
        requires low { IsBounded (wire_room self.old.server.wire) self.old.desk }
        requires named { IsNamedBody body.now }
        ensures { OnOk result (Hears P.spent P.wants P.becomes self.old self.new done.new proc.number begun body.now) }
    {
        if !self.desk.answers(proc, body) {
            quiet(Dropped::new(alloc), done);
            return Ok(());
        }
        let Some(call) = self.desk.open_call(proc) else {
            unreachable!()
        };
        match call {
            OpenCall::Access => {
                let access = self.desk.page_came(alloc, proc, body)?;
                self.moves(alloc, proc, begun, DeskMove::of_access(access), done)
            }
            _ => {
                let step = answer_came(alloc, &mut self.desk, proc, body)?;
                self.moves(alloc, proc, begun, DeskMove::of_step(step), done)
            }
        }
    }
}
