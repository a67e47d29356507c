//! Whole runs, by the draws of a seed.
ghost use Rattle.std.specs.Prelude.{◌≡◌, ◌<◌, ◌≤◌, ◌^◌, ℕ, Option, IfSome, IfOk, OnOk, IfErr, IsErrOf, All, map, length, slice_get};
ghost use Rattle.uid_names.specs.Names.{ProcName};
ghost use Rattle.node_runs.specs.Setups.{Setup};
ghost use Rattle.node_runs.specs.Runs.{first_world};
ghost use Rattle.world_runs.specs.Draws.{ComesToLast};
ghost use Rattle.ring_links.specs.Merged.{AreLogs, AreMerged};
ghost use Rattle.node_core.specs.Nodes.{state_of};
ghost use Rattle.ended_nodes.specs.Ended.{named, program_at, AreNumbered};
ghost use Rattle.node_core.specs.declared.fault.RunFault.TheVariants as faults;

use crate::laws::turns_are_right_so_far;
use crate::world::World;
use dom_history::{EventList, MergedLogs, Program};
use drawn_numbers::Draws;
use ended_nodes::take_apart;
use node_core::RunFault;
use page_store::Pages;
use ring_links::by_place;
use run_laws::ends::no_turn_is_stuck;
use std::alloc::Global;
use uid_names::{NoMemory, ProcId};

impl<P: Program, G: Pages> World<P, G> {
    ghost use Rattle.world_core.specs.Stands.{Stands, IsRunOf};
    ghost use Rattle.world_core.specs.Starts.{OfEachStart};

    /// Turns by the draws of a seed, until all nodes have ended: all events by rising place, which are a right and recent run by the
    /// plan, and the programs as they are then, by node and number. TickLimit is answered where an event gave that node the tick `last_tick`.
    pub fn run_turns(
        self,
        alloc: Global,
        seed: u64,
        last_tick: u64,
    ) -> Result<(EventList, Vec<(ProcId, P)>), RunFault>
        requires stands { (made : ℕ → ℕ → Option P) × (s : Setup) × Stands P.wants P.becomes made s self (first_world s) }
        requires least { 1 ≤ last_tick }
        requires greatest { last_tick ≤ 2 ^ 40 }
        ensures run { IfOk result (λ r. OfEachStart P.wants P.becomes self (λ made s. IsRunOf P.wants P.becomes made s self.plan seed last_tick r.0 r.1.items)) }
        ensures limit { (n : ℕ) → IsErrOf result (faults.TickLimit n) → OfEachStart P.wants P.becomes self (λ made s. ComesToLast s self.plan seed last_tick n) }
    {
        let (events, programs) = self.run_merged(alloc, seed, last_tick)?;
        Ok((events.to_list(alloc)?, programs))
    }

    /// Turns by the draws of a seed, until all nodes have ended: the events in the logs of their nodes, merged by place with no
    /// copy of them, and the programs as they are then. TickLimit is answered where an event gave that node the tick
    /// `last_tick`.
    pub fn run_merged(
        self,
        alloc: Global,
        seed: u64,
        last_tick: u64,
    ) -> Result<(MergedLogs, Vec<(ProcId, P)>), RunFault>
        requires stands { (made : ℕ → ℕ → Option P) × (s : Setup) × Stands P.wants P.becomes made s self (first_world s) }
        requires least { 1 ≤ last_tick }
        requires greatest { last_tick ≤ 2 ^ 40 }
        ensures run { IfOk result (λ r. OfEachStart P.wants P.becomes self (λ made s. IsRunOf P.wants P.becomes made s self.plan seed last_tick r.0.events r.1.items)) }
        ensures limit { (n : ℕ) → IsErrOf result (faults.TickLimit n) → OfEachStart P.wants P.becomes self (λ made s. ComesToLast s self.plan seed last_tick n) }
    {
        // So where no event is enabled all nodes have ended, and what was done is a run by the plan, right and recent.
        no_turn_is_stuck();
        turns_are_right_so_far();
        let mut world = self;
        let mut draws = Draws::new(seed);
        for turn in 0..u64::MAX {
            match world.take_turn(alloc, draws.draw())? {
                Some(at) => world.look_at(at, last_tick)?,
                None => return Ok(world.end(alloc)?),
            }
        }
        unreachable!()
    }

    /// The fault where the node at this place came to the last tick.
    fn look_at(&self, at: usize, last_tick: u64) -> Result<(), RunFault>
        requires { at < length self.now.stations.items }
        ensures below { OnOk result (IfSome (slice_get self.now.stations.items at) (λ y. (state_of y.node).tick < last_tick)) }
        ensures limit { IfErr result (λ fault. IfSome (slice_get self.now.stations.items at)
            (λ y. (fault ≡ faults.TickLimit y.node.log.node) × (last_tick ≤ (state_of y.node).tick))) }
    {
        let node = &self.stations[at].node;
        if node.tick() < last_tick {
            Ok(())
        } else {
            Err(RunFault::TickLimit(node.log().node))
        }
    }

    /// All events by rising place, and the programs.
    fn end(self, alloc: Global) -> Result<(MergedLogs, Vec<(ProcId, P)>), NoMemory>
        requires logs { AreLogs (map (λ y. y.node.log) self.stations.items) }
        requires numbers { All (λ y. AreNumbered y.node) self.stations.items }
        ensures events { IfOk result (λ r. AreMerged (map (λ y. y.node.log) self.stations.items) r.0.events) }
        ensures programs { IfOk result (λ r. (p : ProcName) → named r.1.items p ≡ program_at (map (λ y. y.node) self.stations.items) p) }
    {
        let mut nodes = Vec::with_capacity(alloc, self.stations.len())?;
        for station in self.into_stations() {
            nodes.push(station.node)?;
        }
        let (logs, programs) = take_apart(alloc, nodes)?;
        Ok((by_place(alloc, logs)?, programs))
    }
}
