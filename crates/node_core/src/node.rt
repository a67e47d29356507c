//! A node of a domain, and its journal.
ghost use Rattle.std.specs.Prelude.{◌≡◌, ◌≤◌, ◌<◌, ◌^◌, ◌++◌, true, false, [], ◌∷◌, ℕ, filter, option_to_list, Option, IfSome, IfOk, OnOk, OnErr, option_copied};
ghost use Rattle.uid_names.specs.Beginnings.{CanHomeBegin, at_home};
ghost use Rattle.uid_names.specs.Wires.{IsWire, wire_room};
ghost use Rattle.uid_names.specs.declared.limits.TheConstants.{MAX_PHASES};
ghost use Rattle.page_frames.specs.declared.frame.TheConstants.{FEWEST_FRAMES, MOST_FRAMES};
ghost use Rattle.page_store.specs.Volumes.{no_pages};
ghost use Rattle.dom_history.specs.declared.op.Want.TheVariants.{Phase};
ghost use Rattle.dom_history.specs.declared.event.What.TheVariants.{Ready};
ghost use Rattle.dom_history.specs.Events.{IsWhat, AreEffects};
ghost use Rattle.fault_handler.specs.Invariant.{IsProc};
ghost use Rattle.node_runs.specs.Setups.{Given, ArePrograms};
ghost use Rattle.node_runs.specs.NodeStates.{NodeState, first_node, is_ended};
ghost use Rattle.node_runs.specs.Incomings.Incoming.{Nothing};
ghost use Rattle.node_runs.specs.Incomings.{tick_of, enabled};
ghost use Rattle.node_runs.specs.Outcomes.{Stepped};
ghost use Rattle.node_core.specs.Programs.{program_in, numbers_in, AreRising};
ghost use Rattle.node_core.specs.Receivings.{seen, mark_in};
ghost use Rattle.node_core.specs.Starts.{starts_of};

use crate::machine::Machine;
use crate::programs::program_of;
use crate::setup::{Emitted, Incoming, NodeSetup};
use crate::turns::Done;
use dom_history::{Event, EventList, NodeLog, Program, What};
use page_store::Pages;
use std::alloc::Global;
use std::marker::Model;
use uid_names::{NoMemory, Opening, Place};

// A journal has one of these for each event.
const _: () = prove!(size_of::<Event>() <= 112);

/// A journal has room for so many events from its start, so that what is written first is not moved as it grows.
const FIRST_EVENTS: usize = 4_096;

/// The phase whose mark an event sends.
fn mark_in(what: &What) -> Option<u32>
    ensures { result ≡ mark_in what.now }
{
    match what {
        What::Ready(phase) => Some(*phase),
        _ => None,
    }
}

/// Writes the line of the journal, and answers what the event emits. The node is spent no more; without memory it stays
/// so, and the journal is as it was.
// Inlined, so that the parts of what was done are moved from where the event left them, as those of an outcome are.
#[inline(always)]
fn write(
    log: &mut NodeLog,
    spent: &mut bool,
    place: Place,
    what: What,
    done: Done,
) -> Result<Emitted, NoMemory>
    requires what { IsWhat what }
    requires effects { AreEffects done.effects }
    ensures emits { IfOk result (λ emitted. emitted ≡ record { frame = done.frame; mark = mark_in what }) }
    ensures events { OnOk result (log.new.events ≡ log.old.events ++ record { place = place; what = what; effects = done.effects } ∷ []) }
    ensures node { log.new.node ≡ log.old.node }
    ensures whole { OnOk result (spent.new ≡ false) }
    ensures err { OnErr result (log.new ≡ log.old) }
    ensures err_spent { OnErr result (spent.new ≡ spent.old) }
{
    let Done { frame, effects } = done;
    let mark = mark_in(&what);
    log.events.push(Event::new(place, what, effects))?;
    *spent = false;
    Ok(Emitted { frame, mark })
}

/// The event of what was done, and what it emits, where no journal is written.
fn aside(place: Place, what: What, done: Done) -> (Event, Emitted)
    requires what { IsWhat what }
    requires effects { AreEffects done.effects }
    ensures event { result.0 ≡ record { place = place; what = what; effects = done.effects } }
    ensures emits { result.1 ≡ record { frame = done.frame; mark = mark_in what } }
{
    let Done { frame, effects } = done;
    let mark = mark_in(&what);
    (Event::new(place, what, effects), Emitted { frame, mark })
}

/// A node: its home side, its desk, its processes with their programs, and its journal.
///
/// A node that found no memory at an event is spent: no event of it is enabled.
pub struct Node<P: Program, G: Pages> {
    machine: Machine<P, G>,
    log: NodeLog,
    spent: bool,
}

// Of its own, so that what drops one calls this and does not take it apart in place.
impl<P: Program, G: Pages> Drop for Node<P, G> {
    fn drop(self) {
        let Node {
            machine: _,
            log: _,
            spent: _,
        } = self;
    }
}

impl<P: Program, G: Pages> Model for Node<P, G> {
    ghost use Rattle.std.specs.Prelude.{◌≡◌, false};
    ghost use Rattle.node_core.specs.Nodes.{Noted, noted_code};
    ghost use Rattle.node_core.specs.Machines.{inner_of, IsKept};

    ghost Value = { Noted P };

    ghost coded = { noted_code P.code };

    ghost view = { λ x. record { inner = inner_of x.machine; log = x.log; spent = x.spent } };

    ghost invariant = { λ x. x.spent ≡ false → IsKept P.spent P.wants x.machine };
}

impl<P: Program, G: Pages> Node<P, G> {
    ghost use Rattle.node_core.specs.Nodes.{given_of, state_of, program_of, is_enabled, Stands, Happened, Does, DoesAside, IsGivenBy};

    /// A node at the start. Each program is asked what it wants first.
    ///
    /// The opening has the nodes of `setup`, 1 to 8, of which its node is one, and no room that its version can't write; the
    /// pages are empty; the programs are of processes 1 to 4, each once, and none of them was asked before.
    pub fn new(
        alloc: Global,
        setup: NodeSetup,
        opening: &Opening,
        pages: G,
        programs: Vec<(u8, P)>,
    ) -> Result<Node<P, G>, NoMemory>
        requires nodes { opening.now.nodes ≡ setup.nodes }
        requires node { setup.node ≤ setup.nodes }
        requires frames_low { FEWEST_FRAMES ≤ setup.frames }
        requires frames_high { setup.frames ≤ MOST_FRAMES }
        requires wire { IsWire setup.wire }
        requires rooms { opening.now.greatest ≤ wire_room setup.wire }
        requires phases_low { 1 ≤ setup.phases }
        requires phases_high { setup.phases ≤ MAX_PHASES }
        requires empty { G.volume pages ≡ no_pages }
        requires begins { CanHomeBegin (at_home setup.node opening.now.objects) }
        requires numbers { ArePrograms (numbers_in programs.items) }
        requires whole { (p : ℕ) → IfSome (program_in programs.items p) (λ y. P.spent y ≡ false) }
        requires fresh { (p : ℕ) → IfSome (program_in programs.items p) (λ y. P.wants y ≡ Phase) }
        ensures stands { IfOk result (λ node. (g : Given) → IsGivenBy P.wants P.becomes setup opening.now programs.items g →
            Stands P.wants P.becomes (program_in programs.items) g node (first_node g)) }
        ensures log { IfOk result (λ node. node.log ≡ record { node = setup.node; events = [] }) }
    {
        let node = setup.node;
        let machine = Machine::new(alloc, setup, opening, pages, programs)?;
        let machine = machine.asked(alloc)?;
        let events = EventList::from_vec(Vec::with_capacity(alloc, FIRST_EVENTS)?);
        let log = NodeLog { node, events };
        Ok(Node {
            machine,
            log,
            spent: false,
        })
    }

    /// Whether an event is enabled with what it receives, as far as this node and that tell. Takes no memory.
    #[inline(always)]
    pub fn enabled(&self, what: &What, incoming: &Incoming) -> bool
        ensures value { result ≡ is_enabled self.now what.now (seen incoming.now) }
        ensures stands { (made : ℕ → Option P) (g : Given) (n : NodeState) → Stands P.wants P.becomes made g self.now n →
            result ≡ enabled g n what.now (seen incoming.now) }
    {
        !self.spent && self.machine.enabled(what, incoming)
    }

    /// The event of a process that receives nothing, if one is enabled, as far as this node tells: the process begins, or
    /// it goes on. Takes no memory.
    #[inline(always)]
    pub fn start(&self, proc: u8) -> Option<What>
        requires proc { IsProc proc }
        ensures value { option_to_list result ≡ filter (λ what. is_enabled self.now what Nothing) (starts_of proc) }
        ensures stands { (made : ℕ → Option P) (g : Given) (n : NodeState) → Stands P.wants P.becomes made g self.now n →
            option_to_list result ≡ filter (λ what. enabled g n what Nothing) (starts_of proc) }
    {
        if self.spent {
            return None;
        }
        self.machine.start(proc)
    }

    /// Whether the event that sends the mark of its phase is enabled, as far as this node tells. Takes no memory.
    pub fn ready(&self) -> bool
        ensures value { result ≡ is_enabled self.now (Ready (state_of self.now).phase) Nothing }
        ensures stands { (made : ℕ → Option P) (g : Given) (n : NodeState) → Stands P.wants P.becomes made g self.now n →
            result ≡ enabled g n (Ready (state_of self.now).phase) Nothing }
    {
        !self.spent && self.machine.may_send_mark()
    }

    /// The tick of its last event, 0 before the first. Takes no memory.
    pub fn tick(&self) -> u64
        ensures { result ≡ (state_of self.now).tick }
    {
        self.machine.tick
    }

    /// Its phase, from 1. Takes no memory.
    pub fn phase(&self) -> u32
        ensures { result ≡ (state_of self.now).phase }
    {
        self.machine.phase
    }

    /// Whether its last phase is over. Takes no memory.
    pub fn ended(&self) -> bool
        ensures { result ≡ is_ended (given_of self.now) (state_of self.now) }
    {
        self.machine.has_ended()
    }

    /// Its journal. Takes no memory.
    pub fn log(&self) -> &NodeLog
        ensures { result.now ≡ self.now.log }
    {
        &self.log
    }

    /// Its journal, and its programs as they are now, by rising number. Takes no memory.
    pub fn into_parts(self) -> (NodeLog, Vec<(u8, P)>)
        ensures log { result.0 ≡ self.log }
        ensures programs { (p : ℕ) → program_in result.1.items p ≡ program_of self p }
        ensures rising { self.spent ≡ false → AreRising (numbers_in result.1.items) }
    {
        let Node {
            machine,
            log,
            spent: _,
        } = self;
        (log, machine.into_programs())
    }

    /// The program of a process, as it is now: it lives, unless the node is spent. Takes no memory.
    pub fn program(&self, proc: u8) -> Option<&P>
        ensures value { option_copied result ≡ program_of self.now proc }
        ensures live { self.now.spent ≡ false → IfSome (option_copied result) (λ y. P.spent y ≡ false) }
    {
        program_of(self.machine.programs.as_slice(), proc)
    }

    /// One event, which is enabled. Without memory the journal is as it was, and the node is spent.
    #[inline(always)]
    pub fn step(
        &mut self,
        alloc: Global,
        what: What,
        incoming: &Incoming,
    ) -> Result<Emitted, NoMemory>
        requires enabled { is_enabled self.old what (seen incoming.now) ≡ true }
        requires tick { (state_of self.old).tick < 2 ^ 40 }
        requires incoming { tick_of (seen incoming.now) < 2 ^ 40 }
        ensures happens { IfOk result (λ emitted. Does P.wants P.becomes what (seen incoming.now) self.old self.new emitted) }
        ensures log { OnErr result (self.new.log ≡ self.old.log) }
        ensures spent { OnErr result (self.new.spent ≡ true) }
    {
        incoming.known();
        self.spent = true;
        let mut done = Done::new(alloc);
        self.machine.happen(alloc, &what, incoming, &mut done)?;
        let place = self.machine.place();
        let (log, spent) = (&mut self.log, &mut self.spent);
        write(log, spent, place, what, done)
    }

    /// One event, which is enabled, as `step` does it, handed back with what it emits: the journal stays as it was. Without memory the
    /// node is spent.
    pub fn step_aside(
        &mut self,
        alloc: Global,
        what: What,
        incoming: &Incoming,
    ) -> Result<(Event, Emitted), NoMemory>
        requires enabled { is_enabled self.old what (seen incoming.now) ≡ true }
        requires tick { (state_of self.old).tick < 2 ^ 40 }
        requires incoming { tick_of (seen incoming.now) < 2 ^ 40 }
        ensures happens { IfOk result (λ did. DoesAside P.wants P.becomes what (seen incoming.now) self.old self.new did.0 did.1) }
        ensures log { self.new.log ≡ self.old.log }
        ensures spent { OnErr result (self.new.spent ≡ true) }
    {
        incoming.known();
        self.spent = true;
        let mut done = Done::new(alloc);
        self.machine.happen(alloc, &what, incoming, &mut done)?;
        let place = self.machine.place();
        self.spent = false;
        Ok(aside(place, what, done))
    }
}
