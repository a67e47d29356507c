//! A process begins what its program wants, or goes on with it after a wait.
ghost use Rattle.std.specs.Prelude.{◌≡◌, ◌≤◌, length, ◌&&◌, nat_le, true, false, Some, None, IsSome, IfOk, OnOk};
ghost use Rattle.std.specs.Option.{ForSome};
ghost use Rattle.uid_names.specs.Names.{IsProcNumber};
ghost use Rattle.uid_names.specs.Rooms.{IsRoom};
ghost use Rattle.uid_names.specs.Wires.{wire_room};
ghost use Rattle.uid_names.specs.declared.limits.TheConstants.{NODE_PROCESSES};
ghost use Rattle.dom_history.specs.declared.op.Op.{Op};
ghost use Rattle.dom_history.specs.declared.op.Op.TheVariants.{New, List as ListOp, Lock, Unlock, Delete};
ghost use Rattle.dom_history.specs.declared.op.Want.TheVariants.{Do, Phase, Done as AllDone};
ghost use Rattle.dom_history.specs.Ranges.{IsOp};
ghost use Rattle.fault_handler.specs.Outcomes.{seen_access};
ghost use Rattle.fault_handler.specs.Accesses.{desk_op};
ghost use Rattle.fault_handler.specs.Conditions.{IsOf, IsIdle};
ghost use Rattle.fault_handler.specs.Invariant.{IsProc, IsDesk};
ghost use Rattle.fault_handler.specs.Next.{FitsTurn, IsAsked};
ghost use Rattle.lock_validate.specs.Bounded.{IsBounded};
ghost use Rattle.lock_validate.specs.Locking.{begin_lock_of};
ghost use Rattle.lock_validate.specs.Releases.{begin_unlock_of, begin_delete_of};
ghost use Rattle.node_runs.specs.Incomings.{may_begin, may_go};
ghost use Rattle.node_runs.specs.NodeStates.{proc_of};
ghost use Rattle.node_runs.specs.Doings.{begins, goes_on};
ghost use Rattle.node_runs.specs.Operations.{begun as begun_as, new_by, list_by};
ghost use Rattle.dom_history.specs.Objects.{is_node};
ghost use Rattle.node_core.specs.Processes.{IsWanted, want_at};
ghost use Rattle.node_core.specs.Programs.{program_in};
ghost use Rattle.node_core.specs.DeskAccesses.{IsAccessOf};

use crate::asked::Request;
use crate::machine::Machine;
use crate::moves::DeskMove;
use crate::processes::{Proc, index_of};
use crate::turns::{Done, quiet};
use dom_history::{Dropped, Op, Program, Reply, Want};
use fault_handler::{Access, Desk};
use lock_validate::{begin_delete, begin_lock, begin_unlock};
use page_store::Pages;
use ring_messages::Body;
use std::alloc::Global;
use uid_names::{LockRows, Mode, NODE_PROCESSES, NoMemory, NodeId, ObjKind, Place, ProcId, Uid};

/// What the desk says to a load, a store, or what is asked of a length or a mapping.
fn access(alloc: Global, desk: &mut Desk, proc: ProcId, want: &Want) -> Result<Access, NoMemory>
    requires own { IsOf desk.old proc }
    requires idle { IsIdle desk.old proc.number }
    requires wanted { IsWanted want.now }
    requires access { (op : Op) → want.now ≡ Do op → IsSome (desk_op op) }
    ensures outcome { IfOk result (λ access. (op : Op) → want.now ≡ Do op → IsAccessOf desk.old desk.new proc.number op access) }
    ensures fits { IfOk result (λ access. (op : Op) → want.now ≡ Do op → ForSome (seen_access access) (λ o. FitsTurn op o.turn)) }
    ensures asks { IfOk result (λ access. ForSome (seen_access access) (λ o. IsAsked desk.new.nodes o.turn)) }
    ensures node { desk.new.node ≡ desk.old.node }
{
    match want {
        Want::Do(op) => desk.access(alloc, proc, op),
        Want::Phase | Want::Done => unreachable!(),
    }
}

/// What the desk makes of the access that a process wants, where all processes' own is given.
fn access_wanted(
    alloc: Global,
    desk: &mut Desk,
    proc: ProcId,
    procs: &[Proc; NODE_PROCESSES],
) -> Result<Access, NoMemory>
    requires own { IsOf desk.old proc }
    requires idle { IsIdle desk.old proc.number }
    requires four { length procs.now ≡ NODE_PROCESSES }
    requires wanted { IsWanted (want_at procs.now proc.number) }
    requires access { (op : Op) → want_at procs.now proc.number ≡ Do op → IsSome (desk_op op) }
    ensures outcome { IfOk result (λ access. (op : Op) → want_at procs.now proc.number ≡ Do op → IsAccessOf desk.old desk.new proc.number op access) }
    ensures fits { IfOk result (λ access. (op : Op) → want_at procs.now proc.number ≡ Do op → ForSome (seen_access access) (λ o. FitsTurn op o.turn)) }
    ensures asks { IfOk result (λ access. ForSome (seen_access access) (λ o. IsAsked desk.new.nodes o.turn)) }
    ensures node { desk.new.node ≡ desk.old.node }
    ensures process { IsProcNumber proc.number }
{
    let at = index_of(proc);
    access(alloc, desk, proc, &procs[at].want)
}

impl<P: Program, G: Pages> Machine<P, G> {
    ghost use Rattle.node_core.specs.Machines.{given_of, state_of, IsAtEvent, IsBefore};
    ghost use Rattle.node_core.specs.Outcomes.{IsFresh, Moves, Begins, Does};

    /// A process begins what its program wants, or is at the end of its phase or of all.
    pub(crate) fn begin(
        &mut self,
        alloc: Global,
        proc: ProcId,
        done: &mut Done,
    ) -> Result<(), NoMemory>
        requires fresh { IsFresh done.old }
        requires own { proc.node ≡ self.old.desk.node }
        requires before { IsBefore P.spent P.wants self.old }
        requires going { self.old.phase ≤ self.old.phases }
        requires enabled { may_begin (given_of self.old) (state_of self.old) proc.number ≡ true }
        ensures { OnOk result (Does P.spent P.wants P.becomes self.old self.new done.new
            (Some (begins (given_of self.old) (state_of self.old) proc.number (want_at self.old.procs proc.number)))) }
    {
        match &self.procs[index_of(proc)].want {
            Want::Do(_) => self.begins(alloc, proc, self.place(), done),
            Want::Phase => self.pauses(alloc, proc, done),
            Want::Done => {
                self.finishes(alloc, proc, done);
                Ok(())
            }
        }
    }

    /// The program is told that a phase begins, which is that of what it wants next.
    fn pauses(&mut self, alloc: Global, proc: ProcId, done: &mut Done) -> Result<(), NoMemory>
        requires fresh { IsFresh done.old }
        requires before { IsBefore P.spent P.wants self.old }
        requires going { self.old.phase ≤ self.old.phases }
        requires enabled { may_begin (given_of self.old) (state_of self.old) proc.number ≡ true }
        requires wanted { want_at self.old.procs proc.number ≡ Phase }
        ensures { OnOk result (Does P.spent P.wants P.becomes self.old self.new done.new
            (Some (begins (given_of self.old) (state_of self.old) proc.number Phase))) }
    {
        let phase = self.procs[index_of(proc)].phase + 1;
        self.tell(alloc, proc, None, phase)?;
        quiet(Dropped::new(alloc), done);
        Ok(())
    }

    /// The process is at the end of all phases.
    fn finishes(&mut self, alloc: Global, proc: ProcId, done: &mut Done)
        requires fresh { IsFresh done.old }
        requires before { IsBefore P.spent P.wants self.old }
        ensures { Does P.spent P.wants P.becomes self.old self.new done.new (Some (begins (given_of self.old) (state_of self.old) proc.number AllDone)) }
    {
        self.procs[index_of(proc)].phase = self.phases + 1;
        quiet(Dropped::new(alloc), done)
    }

    /// A process goes on after a wait: its operation begins anew.
    pub(crate) fn go(
        &mut self,
        alloc: Global,
        proc: ProcId,
        done: &mut Done,
    ) -> Result<(), NoMemory>
        requires fresh { IsFresh done.old }
        requires own { proc.node ≡ self.old.desk.node }
        requires before { IsBefore P.spent P.wants self.old }
        requires program { IsSome (program_in self.old.programs.items proc.number) }
        requires enabled { may_go self.old.desk (proc_of (state_of self.old) proc.number).doing ≡ true }
        ensures { OnOk result (Does P.spent P.wants P.becomes self.old self.new done.new
            (goes_on (state_of self.old) proc.number (proc_of (state_of self.old) proc.number).doing)) }
    {
        match self.procs[index_of(proc)].doing() {
            Some(open) => self.begins(alloc, proc, open.begun, done),
            None => unreachable!(),
        }
    }

    /// The operation that began at this place begins, or begins anew after a wait.
    fn begins(
        &mut self,
        alloc: Global,
        proc: ProcId,
        begun: Place,
        done: &mut Done,
    ) -> Result<(), NoMemory>
        requires fresh { IsFresh done.old }
        requires own { proc.node ≡ self.old.desk.node }
        requires at { IsAtEvent P.spent P.wants self.old }
        requires program { IsSome (program_in self.old.programs.items proc.number) }
        requires wanted { IsWanted (want_at self.old.procs proc.number) }
        requires desk { IsDesk self.old.desk }
        requires low { IsBounded (wire_room self.old.server.wire) self.old.desk }
        requires rooms { self.old.greatest ≤ wire_room self.old.server.wire }
        requires idle { IsIdle self.old.desk proc.number }
        ensures { OnOk result (Begins P.spent P.wants P.becomes self.old self.new done.new proc.number begun) }
    {
        match &self.procs[index_of(proc)].want {
            Want::Do(Op::New { home, kind, room }) => {
                let (home, kind, room) = (*home, *kind, *room);
                self.begins_new(alloc, proc, begun, home, kind, room, done)
            }
            Want::Do(Op::List { home, after }) => {
                let (home, after) = (*home, *after);
                self.begins_list(alloc, proc, begun, home, after, done)
            }
            Want::Do(Op::Lock { uid, mode }) => {
                let (uid, mode) = (*uid, *mode);
                self.begins_lock(alloc, proc, begun, uid, mode, done)
            }
            Want::Do(Op::Unlock { uid }) => {
                let uid = *uid;
                self.begins_unlock(alloc, proc, begun, uid, done)
            }
            Want::Do(Op::Delete { uid }) => {
                let uid = *uid;
                self.begins_delete(alloc, proc, begun, uid, done)
            }
            Want::Do(_) => self.begins_access(alloc, proc, begun, done),
            Want::Phase | Want::Done => unreachable!(),
        }
    }

    /// Whether this is one of the nodes.
    fn is_node(&self, home: NodeId) -> bool
        ensures { result ≡ is_node (given_of self.now).opening home }
    {
        1 <= home.number() && home.number() <= self.desk.nodes()
    }

    /// Whether this is one of the nodes, and the room is not too great.
    fn may_make(&self, home: NodeId, room: u32) -> bool
        ensures { result ≡ (is_node (given_of self.now).opening home && nat_le room (given_of self.now).opening.greatest) }
    {
        self.is_node(home) && room <= self.greatest
    }

    fn begins_new(
        &mut self,
        alloc: Global,
        proc: ProcId,
        begun: Place,
        home: NodeId,
        kind: ObjKind,
        room: u32,
        done: &mut Done,
    ) -> Result<(), NoMemory>
        requires fresh { IsFresh done.old }
        requires own { proc.node ≡ self.old.desk.node }
        requires at { IsAtEvent P.spent P.wants self.old }
        requires program { IsSome (program_in self.old.programs.items proc.number) }
        requires wanted { want_at self.old.procs proc.number ≡ Do (New home kind room) }
        requires room { IsRoom room }
        requires rooms { self.old.greatest ≤ wire_room self.old.server.wire }
        ensures { OnOk result (Begins P.spent P.wants P.becomes self.old self.new done.new proc.number begun) }
    {
        if self.may_make(home, room) {
            let request = Request::from_body(Body::Make { kind, room });
            return self.asks(alloc, proc, begun, home, request, Dropped::new(alloc), done);
        }
        self.ends(alloc, proc, Reply::NoSpace, Dropped::new(alloc), done)
    }

    fn begins_list(
        &mut self,
        alloc: Global,
        proc: ProcId,
        begun: Place,
        home: NodeId,
        after: Option<(Uid, ProcId)>,
        done: &mut Done,
    ) -> Result<(), NoMemory>
        requires fresh { IsFresh done.old }
        requires own { proc.node ≡ self.old.desk.node }
        requires at { IsAtEvent P.spent P.wants self.old }
        requires program { IsSome (program_in self.old.programs.items proc.number) }
        requires wanted { want_at self.old.procs proc.number ≡ Do (ListOp home after) }
        ensures { OnOk result (Begins P.spent P.wants P.becomes self.old self.new done.new proc.number begun) }
    {
        if self.is_node(home) {
            let request = Request::from_body(Body::List { after });
            return self.asks(alloc, proc, begun, home, request, Dropped::new(alloc), done);
        }
        let reply = Reply::Locks {
            rows: LockRows::new(alloc),
            more: false,
        };
        self.ends(alloc, proc, reply, Dropped::new(alloc), done)
    }

    fn begins_lock(
        &mut self,
        alloc: Global,
        proc: ProcId,
        begun: Place,
        uid: Uid,
        mode: Mode,
        done: &mut Done,
    ) -> Result<(), NoMemory>
        requires fresh { IsFresh done.old }
        requires own { proc.node ≡ self.old.desk.node }
        requires at { IsAtEvent P.spent P.wants self.old }
        requires program { IsSome (program_in self.old.programs.items proc.number) }
        requires wanted { want_at self.old.procs proc.number ≡ Do (Lock uid mode) }
        requires range { IsOp (Lock uid mode) }
        requires process { IsProc proc.number }
        requires desk { IsDesk self.old.desk }
        requires low { IsBounded (wire_room self.old.server.wire) self.old.desk }
        requires idle { IsIdle self.old.desk proc.number }
        ensures { OnOk result (Begins P.spent P.wants P.becomes self.old self.new done.new proc.number begun) }
    {
        let step = begin_lock(alloc, &mut self.desk, proc, uid, mode)?;
        self.moves(alloc, proc, begun, DeskMove::of_step(step), done)
    }

    fn begins_unlock(
        &mut self,
        alloc: Global,
        proc: ProcId,
        begun: Place,
        uid: Uid,
        done: &mut Done,
    ) -> Result<(), NoMemory>
        requires fresh { IsFresh done.old }
        requires own { proc.node ≡ self.old.desk.node }
        requires at { IsAtEvent P.spent P.wants self.old }
        requires program { IsSome (program_in self.old.programs.items proc.number) }
        requires wanted { want_at self.old.procs proc.number ≡ Do (Unlock uid) }
        requires range { IsOp (Unlock uid) }
        requires process { IsProc proc.number }
        requires desk { IsDesk self.old.desk }
        requires low { IsBounded (wire_room self.old.server.wire) self.old.desk }
        requires idle { IsIdle self.old.desk proc.number }
        ensures { OnOk result (Begins P.spent P.wants P.becomes self.old self.new done.new proc.number begun) }
    {
        let step = begin_unlock(alloc, &mut self.desk, proc, uid)?;
        self.moves(alloc, proc, begun, DeskMove::of_step(step), done)
    }

    fn begins_delete(
        &mut self,
        alloc: Global,
        proc: ProcId,
        begun: Place,
        uid: Uid,
        done: &mut Done,
    ) -> Result<(), NoMemory>
        requires fresh { IsFresh done.old }
        requires own { proc.node ≡ self.old.desk.node }
        requires at { IsAtEvent P.spent P.wants self.old }
        requires program { IsSome (program_in self.old.programs.items proc.number) }
        requires wanted { want_at self.old.procs proc.number ≡ Do (Delete uid) }
        requires range { IsOp (Delete uid) }
        requires process { IsProc proc.number }
        requires desk { IsDesk self.old.desk }
        requires low { IsBounded (wire_room self.old.server.wire) self.old.desk }
        requires idle { IsIdle self.old.desk proc.number }
        ensures { OnOk result (Begins P.spent P.wants P.becomes self.old self.new done.new proc.number begun) }
    {
        let step = begin_delete(alloc, &mut self.desk, proc, uid)?;
        self.moves(alloc, proc, begun, DeskMove::of_step(step), done)
    }

    /// A load, a store, or what is asked of a length or a mapping.
    fn begins_access(
        &mut self,
        alloc: Global,
        proc: ProcId,
        begun: Place,
        done: &mut Done,
    ) -> Result<(), NoMemory>
        requires fresh { IsFresh done.old }
        requires own { proc.node ≡ self.old.desk.node }
        requires at { IsAtEvent P.spent P.wants self.old }
        requires program { IsSome (program_in self.old.programs.items proc.number) }
        requires wanted { IsWanted (want_at self.old.procs proc.number) }
        requires access { (op : Op) → want_at self.old.procs proc.number ≡ Do op → IsSome (desk_op op) }
        requires desk { IsDesk self.old.desk }
        requires low { IsBounded (wire_room self.old.server.wire) self.old.desk }
        requires idle { IsIdle self.old.desk proc.number }
        ensures { OnOk result (Begins P.spent P.wants P.becomes self.old self.new done.new proc.number begun) }
    {
        let (desk, procs) = (&mut self.desk, &self.procs);
        let access = access_wanted(alloc, desk, proc, procs)?;
        self.moves(alloc, proc, begun, DeskMove::of_access(access), done)
    }
}
