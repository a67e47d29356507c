//! The state of a node, and which events are enabled there.
ghost use Rattle.std.specs.Prelude.{◌≡◌, ◌≤◌, ◌<◌, ◌^◌, ◌&&◌, ◌==◌, not, nat_lt, true, false, [], ◌∷◌, ℕ, filter, option_to_list, is_some, is_none, IsSome, IfSome, IsNone, Some, None, IfOk, OnOk, map, length, option_copied};
ghost use Rattle.std.specs.Option.{ForSome};
ghost use Rattle.std.specs.List.{list_all, list_any};
ghost use Rattle.uid_names.specs.Beginnings.{CanHomeBegin, at_home};
ghost use Rattle.uid_names.specs.Wires.{IsWire, wire_room};
ghost use Rattle.uid_names.specs.declared.limits.TheConstants.{MAX_PHASES, NODE_PROCESSES};
ghost use Rattle.dom_history.specs.declared.event.What.TheVariants.{Ready};
ghost use Rattle.dom_history.specs.Events.{IsWhat, AreEffects};
ghost use Rattle.dom_history.specs.Programs.{FitsWant};
ghost use Rattle.dom_history.specs.declared.op.Want.TheVariants.{Phase};
ghost use Rattle.dom_history.specs.Ranges.{IsWant};
ghost use Rattle.page_store.specs.Volumes.{no_pages};
ghost use Rattle.ring_messages.specs.Bodies.{Ask};
ghost use Rattle.page_frames.specs.declared.frame.TheConstants.{FEWEST_FRAMES, MOST_FRAMES};
ghost use Rattle.fault_handler.specs.Desks.{IsNode};
ghost use Rattle.fault_handler.specs.Invariant.{IsProc};
ghost use Rattle.node_runs.specs.Setups.{Given, ArePrograms};
ghost use Rattle.node_runs.specs.NodeStates.{proc_of, first_proc, first_node, is_ended, is_at_end};
ghost use Rattle.node_runs.specs.Incomings.Incoming.{Nothing};
ghost use Rattle.node_runs.specs.Incomings.{tick_of, enabled, has_program as has, has_come, is_call, may_begin, may_go, may_notice, may_be_ready};
ghost use Rattle.node_runs.specs.SentFrames.{IsIncoming};
ghost use Rattle.node_runs.specs.Doings.{event_of};
ghost use Rattle.node_runs.specs.Steps.{named_step};
ghost use Rattle.node_core.specs.Marks.{is_taken};
ghost use Rattle.node_core.specs.Processes.{want_at, await_seen};
ghost use Rattle.node_core.specs.Programs.{program_in, numbers_in, AreRising};
ghost use Rattle.node_core.specs.Receivings.{seen};
ghost use Rattle.node_core.specs.Starts.{starts_of};

use crate::marks::Marks;
use crate::processes::{Await, Proc, index_of};
use crate::programs::{has_program, rising, tell};
use crate::setup::{Incoming, NodeSetup};
use crate::turns::Done;
use dom_history::{Program, Reply, Want, What};
use fault_handler::Desk;
use object_store::Home;
use page_server::PageServer;
use page_store::Pages;
use ring_messages::Frame;
use std::alloc::Global;
use uid_names::{MAX_NODES, NODE_PROCESSES, NoMemory, NodeId, Opening, Place, ProcId};

/// Whether what an operation waits for is there.
#[inline(always)]
fn has_come(desk: &Desk, awaits: &Await) -> bool
    ensures { (ask : Ask) → result ≡ has_come desk.now (await_seen awaits.now ask) }
{
    match awaits {
        Await::Answer(_) => false,
        Await::Page(uid, page) => !desk.in_transit(*uid, *page),
    }
}

/// Whether an operation waits for the answer to the call of this number.
#[inline(always)]
fn is_call(number: u64, awaits: &Await) -> bool
    ensures { (ask : Ask) → result ≡ is_call number (await_seen awaits.now ask) }
{
    match awaits {
        Await::Answer(call) => call.asking.fits(number),
        Await::Page(_, _) => false,
    }
}

/// The state of a node: its home side, its desk, its four processes with their programs by rising number, how many
/// frames it sent to each node, its tick and phase, whether it sent the mark of its phase, and the marks that it took.
pub(crate) struct Machine<P: Program, G: Pages> {
    pub(crate) greatest: u32,
    pub(crate) phases: u32,
    pub(crate) server: PageServer<G>,
    pub(crate) desk: Desk,
    pub(crate) programs: Vec<(u8, P)>,
    pub(crate) procs: [Proc; NODE_PROCESSES],
    pub(crate) emitted: [u64; MAX_NODES as usize],
    pub(crate) tick: u64,
    pub(crate) phase: u32,
    pub(crate) ready: bool,
    pub(crate) marks: Marks,
}

// Of its own, so that what drops one calls this and does not take it apart in place.
impl<P: Program, G: Pages> Drop for Machine<P, G> {
    fn drop(self) {
        let Machine {
            greatest: _,
            phases: _,
            server: _,
            desk: _,
            programs: _,
            procs: _,
            emitted: _,
            tick: _,
            phase: _,
            ready: _,
            marks: _,
        } = self;
    }
}

impl<P: Program, G: Pages> Machine<P, G> {
    ghost use Rattle.node_core.specs.Machines.{given_of, state_of, IsKept, IsAtEvent, IsBefore};
    ghost use Rattle.node_core.specs.Nodes.{AreTold};
    ghost use Rattle.node_core.specs.Outcomes.{IsFresh, Led, Told, FirstAsked, AllAsked, Does};

    /// A node at the start, whose programs were not asked yet.
    pub(crate) fn new(
        alloc: Global,
        setup: NodeSetup,
        opening: &Opening,
        pages: G,
        programs: Vec<(u8, P)>,
    ) -> Result<Machine<P, G>, NoMemory>
        requires nodes { opening.now.nodes ≡ setup.nodes }
        requires empty { G.volume pages ≡ no_pages }
        requires begins { CanHomeBegin (at_home setup.node opening.now.objects) }
        requires frames_low { FEWEST_FRAMES ≤ setup.frames }
        requires frames_high { setup.frames ≤ MOST_FRAMES }
        requires wire { IsWire setup.wire }
        requires rooms { opening.now.greatest ≤ wire_room setup.wire }
        requires phases { setup.phases ≤ MAX_PHASES }
        requires numbers { ArePrograms (numbers_in programs.items) }
        requires whole { (p : ℕ) → IfSome (program_in programs.items p) (λ y. P.spent y ≡ false) }
        requires fresh { (p : ℕ) → IfSome (program_in programs.items p) (λ y. P.wants y ≡ Phase) }
        ensures state { IfOk result (λ m. (g : Given) → g.number ≡ setup.node → g.opening ≡ opening.now → g.frames ≡ setup.frames → state_of m ≡ first_node g) }
        ensures programs { IfOk result (λ m. (p : ℕ) → program_in m.programs.items p ≡ program_in programs.items p) }
        ensures kept { IfOk result (IsKept P.spent P.wants) }
        ensures greatest { IfOk result (λ m. m.greatest ≡ opening.now.greatest) }
        ensures phases { IfOk result (λ m. m.phases ≡ setup.phases) }
        ensures wire { IfOk result (λ m. m.server.wire ≡ setup.wire) }
    {
        // What each opening keeps.
        let _nodes = opening.nodes();
        let home = Home::new(alloc, setup.node, pages, opening)?;
        let server = PageServer::new(alloc, home, setup.wire)?;
        let desk = Desk::new(alloc, setup.node, setup.nodes, setup.frames)?;
        let programs = rising(alloc, programs)?;
        let procs = [Proc::new(), Proc::new(), Proc::new(), Proc::new()];
        Ok(Machine {
            greatest: opening.greatest(),
            phases: setup.phases,
            server,
            desk,
            programs,
            procs,
            emitted: [0; MAX_NODES as usize],
            tick: 0,
            phase: 1,
            ready: false,
            marks: Marks::new(alloc),
        })
    }

    /// Its programs, by rising number.
    pub(crate) fn into_programs(self) -> Vec<(u8, P)>
        ensures { result ≡ self.programs }
    {
        let Machine {
            greatest: _,
            phases: _,
            server: _,
            desk: _,
            programs,
            procs: _,
            emitted: _,
            tick: _,
            phase: _,
            ready: _,
            marks: _,
        } = self;
        programs
    }

    /// The node, once each program was asked for the first time.
    pub(crate) fn asked(mut self, alloc: Global) -> Result<Machine<P, G>, NoMemory>
        requires kept { IsKept P.spent P.wants self }
        requires first { (p : ℕ) → proc_of (state_of self) p ≡ first_proc }
        requires fresh { (p : ℕ) → IfSome (program_in self.programs.items p) (λ y. P.wants y ≡ Phase) }
        ensures { IfOk result (AllAsked P.spent P.wants P.becomes self) }
    {
        self.ask_all(alloc)?;
        Ok(self)
    }

    /// Asks each program for the first time.
    fn ask_all(&mut self, alloc: Global) -> Result<(), NoMemory>
        requires kept { IsKept P.spent P.wants self.old }
        requires first { (p : ℕ) → proc_of (state_of self.old) p ≡ first_proc }
        requires fresh { (p : ℕ) → IfSome (program_in self.old.programs.items p) (λ y. P.wants y ≡ Phase) }
        ensures { OnOk result (AllAsked P.spent P.wants P.becomes self.old self.new) }
    {
        self.ask_first(alloc, 1)?;
        self.ask_first(alloc, 2)?;
        self.ask_first(alloc, 3)?;
        self.ask_first(alloc, 4)
    }

    /// Asks a process's program, if it has one, for the first time.
    fn ask_first(&mut self, alloc: Global, number: u8) -> Result<(), NoMemory>
        requires proc { IsProc number }
        requires kept { IsKept P.spent P.wants self.old }
        requires first { proc_of (state_of self.old) number ≡ first_proc }
        requires fresh { IfSome (program_in self.old.programs.items number) (λ y. P.wants y ≡ Phase) }
        ensures { OnOk result (FirstAsked P.spent P.wants P.becomes self.old self.new number) }
    {
        if !has_program(self.programs.as_slice(), number) {
            return Ok(());
        }
        let proc = self.proc(number);
        self.tell_program(alloc, proc, None, 1)
    }

    /// The node. Takes no memory.
    pub(crate) fn node(&self) -> NodeId
        ensures { result ≡ self.now.desk.node }
    {
        self.desk.node()
    }

    /// A process of the node.
    fn proc(&self, number: u8) -> ProcId
        requires { IsProc number }
        ensures { result ≡ record { node = self.now.desk.node; number = number } }
    {
        match ProcId::new(self.node(), number) {
            Some(proc) => proc,
            None => unreachable!(),
        }
    }

    /// Where its event stands. Takes no memory.
    pub(crate) fn place(&self) -> Place
        ensures { result ≡ record { tick = self.now.tick; node = self.now.desk.node } }
    {
        Place {
            tick: self.tick,
            node: self.node(),
        }
    }

    /// Tells the program of a process a reply, or that a phase begins, and keeps what it wants then, in this phase.
    pub(crate) fn tell(
        &mut self,
        alloc: Global,
        proc: ProcId,
        last: Option<&Reply>,
        phase: u32,
    ) -> Result<(), NoMemory>
        requires at { IsAtEvent P.spent P.wants self.old }
        requires there { IsSome (program_in self.old.programs.items proc.number) }
        requires fits { FitsWant (want_at self.old.procs proc.number) (option_copied last) }
        ensures { OnOk result (Told P.spent P.wants P.becomes self.old self.new proc.number phase (option_copied last.entry)) }
    {
        self.tell_program(alloc, proc, last, phase)
    }

    /// Tells the program of a process a reply, or that a phase begins, and keeps what it wants then: at an event, and at the
    /// start, before there is one.
    fn tell_program(
        &mut self,
        alloc: Global,
        proc: ProcId,
        last: Option<&Reply>,
        phase: u32,
    ) -> Result<(), NoMemory>
        requires four { length self.old.procs ≡ NODE_PROCESSES }
        requires told { AreTold P.spent P.wants self.old.programs.items self.old.procs }
        requires wanted { (p : ℕ) → IsWant (want_at self.old.procs p) }
        requires there { IsSome (program_in self.old.programs.items proc.number) }
        requires fits { FitsWant (want_at self.old.procs proc.number) (option_copied last) }
        ensures { OnOk result (Told P.spent P.wants P.becomes self.old self.new proc.number phase (option_copied last.entry)) }
    {
        let at = index_of(proc);
        let process = &mut self.procs[at];
        tell(
            alloc,
            &mut self.programs,
            proc.number(),
            last,
            &mut process.want,
        )?;
        process.opened = None;
        process.phase = phase;
        Ok(())
    }

    /// Whether its last phase is over. Takes no memory.
    pub(crate) fn has_ended(&self) -> bool
        ensures { result ≡ is_ended (given_of self.now) (state_of self.now) }
    {
        self.phases < self.phase
    }

    /// Whether an event is enabled with what it receives. Takes no memory.
    #[inline(always)]
    pub(crate) fn enabled(&self, what: &What, incoming: &Incoming) -> bool
        requires { ArePrograms (numbers_in self.now.programs.items) }
        ensures { result ≡ enabled (given_of self.now) (state_of self.now) what.now (seen incoming.now) }
    {
        if self.has_ended() {
            return false;
        }
        match (what, incoming) {
            (What::Begin(p), Incoming::Nothing) => {
                self.has_program(*p) && self.may_begin(self.proc(*p))
            }
            (What::Go(p), Incoming::Nothing) => {
                self.has_program(*p) && self.may_go(self.proc(*p))
            }
            (What::Take(from, _), Incoming::Frame(frame)) => self.may_take(*from, frame),
            (What::Notice(p, _, _, _), Incoming::Gone { number, .. }) => {
                self.may_notice(*p, *number)
            }
            (What::Ready(phase), Incoming::Nothing) => self.may_be_ready(*phase),
            (What::Mark(from, phase), Incoming::Mark { .. }) => self.may_mark(*from, *phase),
            _ => false,
        }
    }

    /// The event of a process that receives nothing, if one is enabled. It is asked last whether the process has a
    /// program, since that takes the longest. Takes no memory.
    #[inline(always)]
    pub(crate) fn start(&self, p: u8) -> Option<What>
        requires programs { ArePrograms (numbers_in self.now.programs.items) }
        requires proc { IsProc p }
        ensures { option_to_list result ≡ filter (λ what. enabled (given_of self.now) (state_of self.now) what Nothing) (starts_of p) }
    {
        let (ended, proc) = (self.has_ended(), self.proc(p));
        if ended {
            return None;
        }
        if self.may_begin(proc) && self.has_program(p) {
            return Some(What::Begin(p));
        }
        if self.may_go(proc) && self.has_program(p) {
            return Some(What::Go(p));
        }
        None
    }

    /// Whether a process has a program.
    #[inline(always)]
    fn has_program(&self, p: u8) -> bool
        requires { ArePrograms (numbers_in self.now.programs.items) }
        ensures value { result ≡ has (given_of self.now) p }
        ensures proc { result ≡ true → IsProc p }
    {
        has_program(self.programs.as_slice(), p)
    }

    /// Whether a process is at the end of the phase.
    fn is_at_end(&self, proc: ProcId) -> bool
        ensures { result ≡ is_at_end (state_of self.now) proc.number }
    {
        self.phase < self.procs[index_of(proc)].phase
    }

    /// Whether a process may begin, if it has a program.
    #[inline(always)]
    fn may_begin(&self, proc: ProcId) -> bool
        ensures { result ≡ (is_none (proc_of (state_of self.now) proc.number).doing && not (is_at_end (state_of self.now) proc.number)) }
    {
        self.procs[index_of(proc)].doing().is_none() && !self.is_at_end(proc)
    }

    /// Whether a process may go on, if it has a program.
    #[inline(always)]
    fn may_go(&self, proc: ProcId) -> bool
        ensures { result ≡ may_go self.now.desk (proc_of (state_of self.now) proc.number).doing }
    {
        match self.procs[index_of(proc)].doing() {
            Some(open) => has_come(&self.desk, &open.awaits),
            None => false,
        }
    }

    fn may_take(&self, from: NodeId, frame: &Frame) -> bool
        ensures { result ≡ (((frame.now.from == from) && (frame.now.to == self.now.desk.node)) && (frame.now.version == self.now.server.wire)) }
    {
        let own = frame.from() == from && frame.to() == self.node();
        own && frame.version() == self.server.wire()
    }

    fn may_notice(&self, p: u8, number: u64) -> bool
        requires { ArePrograms (numbers_in self.now.programs.items) }
        ensures { result ≡ (has (given_of self.now) p && may_notice number (proc_of (state_of self.now) p).doing) }
    {
        if !self.has_program(p) {
            return false;
        }
        match self.procs[index_of(self.proc(p))].doing() {
            Some(open) => is_call(number, &open.awaits),
            None => false,
        }
    }

    /// Whether the event that sends the mark of its phase is enabled. Takes no memory.
    pub(crate) fn may_send_mark(&self) -> bool
        requires { ArePrograms (numbers_in self.now.programs.items) }
        ensures { result ≡ enabled (given_of self.now) (state_of self.now) (Ready self.now.phase) Nothing }
    {
        !self.has_ended() && self.may_be_ready(self.phase)
    }

    fn may_be_ready(&self, phase: u32) -> bool
        requires { ArePrograms (numbers_in self.now.programs.items) }
        ensures { result ≡ may_be_ready (given_of self.now) (state_of self.now) phase }
    {
        phase == self.phase && !self.ready && self.are_at_end()
    }

    /// Whether each process that has a program is at the end of the phase.
    fn are_at_end(&self) -> bool
        requires { ArePrograms (numbers_in self.now.programs.items) }
        ensures { result ≡ list_all (is_at_end (state_of self.now)) (numbers_in self.now.programs.items) }
    {
        for program in &self.programs {
            if !self.is_at_end(self.proc(program.0)) {
                return false;
            }
        }
        true
    }

    fn may_mark(&self, from: NodeId, phase: u32) -> bool
        ensures { result ≡ (not (from == self.now.desk.node) && not (is_taken self.now.marks from phase)) }
    {
        from != self.node() && !self.marks.has(from.number(), phase)
    }

    /// One event, that is enabled.
    pub(crate) fn happen(
        &mut self,
        alloc: Global,
        what: &What,
        incoming: &Incoming,
        done: &mut Done,
    ) -> Result<(), NoMemory>
        requires fresh { IsFresh done.old }
        requires kept { IsKept P.spent P.wants self.old }
        requires enabled { enabled (given_of self.old) (state_of self.old) what.now (seen incoming.now) ≡ true }
        requires tick { self.old.tick < 2 ^ 40 }
        requires incoming { tick_of (seen incoming.now) < 2 ^ 40 }
        requires frame { IsIncoming (seen incoming.now) }
        ensures happens { OnOk result (ForSome (named_step (given_of self.old) (state_of self.old) what.now (seen incoming.now)) (λ s. Led P.spent P.wants P.becomes self.old self.new done.new s)) }
        ensures kept { OnOk result (IsKept P.spent P.wants self.new) }
        ensures what { IsWhat what.now }
        ensures effects { OnOk result (AreEffects done.new.effects) }
    {
        self.tick = self.tick.max(incoming.tick()) + 1;
        self.does(alloc, what, incoming, done)
    }

    /// One event, that is enabled, at a machine that has the tick of the event by now.
    fn does(
        &mut self,
        alloc: Global,
        what: &What,
        incoming: &Incoming,
        done: &mut Done,
    ) -> Result<(), NoMemory>
        requires fresh { IsFresh done.old }
        requires before { IsBefore P.spent P.wants self.old }
        requires enabled { enabled (given_of self.old) (state_of self.old) what.now (seen incoming.now) ≡ true }
        requires frame { IsIncoming (seen incoming.now) }
        ensures does { OnOk result (Does P.spent P.wants P.becomes self.old self.new done.new
            (event_of (given_of self.old) (state_of self.old) what.now (seen incoming.now))) }
        ensures what { IsWhat what.now }
    {
        match what {
            What::Begin(p) => self.begin(alloc, self.proc(*p), done),
            What::Go(p) => self.go(alloc, self.proc(*p), done),
            What::Take(_, _) => match incoming {
                Incoming::Frame(frame) => self.take(alloc, frame, done),
                _ => unreachable!(),
            },
            What::Notice(p, _, _, _) => self.notice(alloc, self.proc(*p), done),
            What::Ready(_) => {
                self.end_phase(alloc, done);
                Ok(())
            }
            What::Mark(from, phase) => self.mark(alloc, *from, *phase, done),
        }
    }
}
