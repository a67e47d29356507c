//! A node comes to the end of its phase, and takes in that others did.
ghost use Rattle.std.specs.Prelude.{◌≡◌, ◌≤◌, ◌<◌, ◌-◌, ◌^◌, ◌∷◌, ◌&&◌, ◌||◌, ◌==◌, nat_le, not, Some, true, OnOk};
ghost use Rattle.node_runs.specs.Doings.{after_marks, others_marked};
ghost use Rattle.node_core.specs.Marks.{is_taken};

use crate::machine::Machine;
use crate::turns::{Done, quiet};
use dom_history::{Dropped, Program};
use page_store::Pages;
use std::alloc::Global;
use uid_names::{NoMemory, NodeId};

impl<P: Program, G: Pages> Machine<P, G> {
    ghost use Rattle.node_core.specs.Machines.{given_of, state_of, IsBefore};
    ghost use Rattle.node_core.specs.Outcomes.{IsFresh, PassesPhase};

    /// The node sends the mark of its phase.
    pub(crate) fn end_phase(&mut self, alloc: Global, done: &mut Done)
        requires fresh { IsFresh done.old }
        requires before { IsBefore P.spent P.wants self.old }
        requires going { self.old.phase ≤ self.old.phases }
        ensures { PassesPhase P.spent P.wants P.becomes self.old self.new done.new (record (state_of self.old) { ready = true }) }
    {
        self.ready = true;
        self.pass_phase();
        quiet(Dropped::new(alloc), done)
    }

    /// The mark of a node is taken.
    pub(crate) fn mark(
        &mut self,
        alloc: Global,
        from: NodeId,
        phase: u32,
        done: &mut Done,
    ) -> Result<(), NoMemory>
        requires fresh { IsFresh done.old }
        requires before { IsBefore P.spent P.wants self.old }
        requires going { self.old.phase ≤ self.old.phases }
        ensures { OnOk result (PassesPhase P.spent P.wants P.becomes self.old self.new done.new (record (state_of self.old) { marks = (from, phase) ∷ self.old.marks })) }
    {
        self.marks.add(from, phase)?;
        self.pass_phase();
        quiet(Dropped::new(alloc), done);
        Ok(())
    }

    /// The phase is over once its mark was sent and those of all other nodes were taken.
    fn pass_phase(&mut self)
        requires { self.old.phase < 2 ^ 32 - 1 }
        ensures state { state_of self.new ≡ after_marks (given_of self.old) (state_of self.old) }
        ensures same { self.new ≡ record self.old { phase = self.new.phase; ready = self.new.ready } }
    {
        if self.ready && self.others_marked() {
            self.phase += 1;
            self.ready = false;
        }
    }

    fn others_marked(&self) -> bool
        ensures { result ≡ others_marked (given_of self.now) (state_of self.now) }
    {
        self.is_marked(1)
            && self.is_marked(2)
            && self.is_marked(3)
            && self.is_marked(4)
            && self.is_marked(5)
            && self.is_marked(6)
            && self.is_marked(7)
            && self.is_marked(8)
    }

    /// Whether a node of this number is none, or this one, or its mark of the phase was taken.
    fn is_marked(&self, m: u8) -> bool
        ensures { result ≡ (not (nat_le m self.now.desk.nodes) || ((m == self.now.desk.node) || is_taken self.now.marks m self.now.phase)) }
    {
        self.desk.nodes() < m || m == self.node().number() || self.marks.has(m, self.phase)
    }
}
