//! All nodes, and what they sent one another.
ghost use Rattle.std.specs.Prelude.{◌≡◌, ◌<◌, ◌≤◌, ◌^◌, ℕ, true, false, Option, MatchOption, IfOk, OnErr, length, sum};
ghost use Rattle.node_runs.specs.Setups.{Setup};
ghost use Rattle.node_runs.specs.Runs.{World as Done, first_world};
ghost use Rattle.world_core.specs.Places.{enabled_counts, IsPlace};

use crate::laws::turns_are_right_so_far;
use crate::station::Station;
use dom_history::{FaultPlan, Program};
use node_core::Node;
use page_store::Pages;
use run_laws::ends::no_turn_is_stuck;
use std::alloc::Global;
use uid_names::NoMemory;

/// All nodes on one thread, with what waits on their links by a fault plan.
///
/// A world that found no memory at a turn is spent.
pub struct World<P: Program, G: Pages> {
    pub(crate) stations: Vec<Station<P, G>>,
    pub(crate) plan: FaultPlan,
    pub(crate) spent: bool,
}

// Of its own, so that what drops one calls this and does not take it apart in place.
impl<P: Program, G: Pages> Drop for World<P, G> {
    fn drop(self) {
        let World {
            stations: _,
            plan: _,
            spent: _,
        } = self;
    }
}

impl<P: Program, G: Pages> World<P, G> {
    ghost use Rattle.world_core.specs.SoFar.{IsRightSoFar};
    ghost use Rattle.world_core.specs.Stands.{AreNodes, Stands, IsTurn, IsTurnAt, TellsEnd, IsBelow};

    /// Its stations, by number of node.
    pub(crate) fn into_stations(self) -> Vec<Station<P, G>>
        ensures { result.items ≡ self.stations.items }
    {
        let World {
            stations,
            plan: _,
            spent: _,
        } = self;
        stations
    }

    /// The world of these nodes, which are all, by number, as they were made.
    pub fn new(
        alloc: Global,
        nodes: Vec<Node<P, G>>,
        plan: FaultPlan,
    ) -> Result<World<P, G>, NoMemory>
        requires nodes { (made : ℕ → ℕ → Option P) × (s : Setup) × AreNodes P.wants P.becomes made s nodes.items }
        ensures stands { IfOk result (λ world. (made : ℕ → ℕ → Option P) (s : Setup) → AreNodes P.wants P.becomes made s nodes.items →
            Stands P.wants P.becomes made s world (first_world s)) }
        ensures plan { IfOk result (λ world. world.plan ≡ plan) }
    {
        // What each plan keeps.
        let _rows = plan.rows();
        let count = nodes.len() as u8;
        let mut stations = Vec::with_capacity(alloc, nodes.len())?;
        for node in nodes {
            stations.push(Station::new(alloc, node, count)?)?;
        }
        Ok(World {
            stations,
            plan,
            spent: false,
        })
    }

    /// How many events are enabled.
    fn enabled(&self) -> usize
        requires { sum (enabled_counts self.now.stations.items) < 2 ^ 64 }
        ensures { result ≡ sum (enabled_counts self.now.stations.items) }
    {
        let mut count = 0;
        for station in &self.stations {
            count += station.enabled.len();
        }
        count
    }

    /// The node of the enabled event at a place, by its place among the nodes, and the event's place among those of
    /// the node.
    fn find(&self, place: usize) -> Option<(usize, usize)>
        ensures { MatchOption result (sum (enabled_counts self.now.stations.items) ≤ place)
            (λ at. IsPlace (enabled_counts self.now.stations.items) place at.0 at.1) }
    {
        let mut left = place;
        for (i, station) in self.stations.iter().enumerate() {
            let enabled = station.enabled.len();
            if left < enabled {
                return Some((i, left));
            }
            left -= enabled;
        }
        None
    }

    /// Does the enabled event at the place `choice`, counted on from the first behind the last; false where none is
    /// enabled, which is just where all nodes have ended. What was done so far, ended or not, is by place a run by the plan, and all is right
    /// after each of its events: the history is one of one store, keeps the phases apart, and has what each program asked, once and in order,
    /// with the replies that it heard; no home refused an open call for a page, a length or a removal; at each unlock of a held lock the home
    /// has what its process stored last; and each page that was dropped for another was the clean one used longest ago. Without memory the world is spent.
    pub fn turn(&mut self, alloc: Global, choice: u64) -> Result<bool, NoMemory>
        requires stands { (made : ℕ → ℕ → Option P) × (s : Setup) × (w : Done) × Stands P.wants P.becomes made s self.old w }
        requires below { IsBelow (2 ^ 40) self.old }
        ensures turn { IfOk result (λ done. (made : ℕ → ℕ → Option P) (s : Setup) (w : Done) → Stands P.wants P.becomes made s self.old w →
            IsTurn P.wants P.becomes made s self.old self.new w choice done) }
        ensures ended { IfOk result (λ done. (made : ℕ → ℕ → Option P) (s : Setup) (w : Done) → Stands P.wants P.becomes made s self.old w →
            TellsEnd s w done) }
        ensures so_far { IfOk result (λ done. (made : ℕ → ℕ → Option P) (s : Setup) (w : Done) → Stands P.wants P.becomes made s self.new w →
            IsRightSoFar s self.new.plan w) }
        ensures plan { self.new.plan ≡ self.old.plan }
        ensures spent { OnErr result (self.new.spent ≡ true) }
    {
        no_turn_is_stuck();
        turns_are_right_so_far();
        Ok(self.take_turn(alloc, choice)?.is_some())
    }

    /// Does the enabled event at the place `choice`, counted on from the first behind the last; the place of the node whose
    /// event was done, None where none is enabled. Without memory the world is spent.
    pub(crate) fn take_turn(
        &mut self,
        alloc: Global,
        choice: u64,
    ) -> Result<Option<usize>, NoMemory>
        requires stands { (made : ℕ → ℕ → Option P) × (s : Setup) × (w : Done) × Stands P.wants P.becomes made s self.old w }
        requires below { IsBelow (2 ^ 40) self.old }
        ensures turn { IfOk result (λ at. (made : ℕ → ℕ → Option P) (s : Setup) (w : Done) → Stands P.wants P.becomes made s self.old w →
            IsTurnAt P.wants P.becomes made s self.old self.new w choice at) }
        ensures plan { self.new.plan ≡ self.old.plan }
        ensures spent { OnErr result (self.new.spent ≡ true) }
    {
        let count = self.enabled();
        if count == 0 {
            return Ok(None);
        }
        let Some((at, place)) = self.find((choice % count as u64) as usize) else {
            unreachable!()
        };
        self.spent = true;
        let emitted = self.stations[at].happen(alloc, place)?;
        self.send(alloc, at, emitted)?;
        self.stations[at].relist(alloc)?;
        self.spent = false;
        Ok(Some(at))
    }
}
