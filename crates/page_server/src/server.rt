//! The home side of a node, which serves frames.
ghost use Rattle.std.specs.Prelude.{◌≡◌, ◌-◌, ◌^◌, ◌<◌, ◌≤◌, ◌↔◌, Some, IfSome, IsNone, IfOk, OnOk, OnErr, IsTrue};
ghost use Rattle.std.specs.Option.{option_map};
ghost use Rattle.lock_manager.specs.Tables.{IsTable};
ghost use Rattle.call_once.specs.Calls.{last_of, body_of, with_call};
ghost use Rattle.ring_messages.specs.Bodies.{ask_of, body_of_answer, is_request};
ghost use Rattle.ring_messages.specs.Frames.{caller_of};
ghost use Rattle.page_server.specs.Decisions.{decide};
ghost use Rattle.page_server.specs.Serving.{serve_frame, reply_to};
ghost use Rattle.uid_names.specs.Wires.{IsWire, wire_room};
ghost use Rattle.ring_messages.specs.Ranges.{LiesWithin};
ghost use Rattle.page_server.specs.ServerStates.{AreStampedTo, AreRoomsWithin, IsBegun, first_server};
ghost use Rattle.page_server.specs.Wants.{decision_wants, kept_wants, may_want};

use crate::answers::HomeAnswer;
use crate::requests::decide;
use call_once::{Looked, Served};
use lock_manager::Locks;
use object_store::Home;
use page_store::Pages;
use ring_messages::Frame;
use std::alloc::Global;
use std::marker::Model;
use uid_names::{NoMemory, NodeId, ProcId};

/// The home side of a node: its objects, its locks, and its last answer to each process.
pub struct PageServer<P: Pages> {
    home: Home<P>,
    locks: Locks,
    served: Served<HomeAnswer>,
    // The tick of the last call of `serve`, 0 at first.
    tick: u64,
    // The version of the frames that it takes and sends.
    wire: u8,
}

// Of its own, so that what drops one calls this and does not take it apart in place.
impl<P: Pages> Drop for PageServer<P> {
    fn drop(self) {
        let PageServer {
            home: _,
            locks: _,
            served: _,
            tick: _,
            wire: _,
        } = self;
    }
}

impl<P: Pages> Model for PageServer<P> {
    ghost use Rattle.page_server.specs.ServerStates.{ServerState, server_code, IsServer};

    ghost Value = { ServerState };

    ghost coded = { server_code };

    ghost view = { λ s. record { side = record { home = s.home; locks = s.locks; served = s.served }; tick = s.tick; wire = s.wire } };

    ghost invariant = { λ s. IsServer (record { side = record { home = s.home; locks = s.locks; served = s.served }; tick = s.tick; wire = s.wire }) };
}

impl<P: Pages> PageServer<P> {
    /// The home side of a node at the start, over its home as it was made, for frames of this version, which can write the
    /// rooms of all its objects.
    pub fn new(alloc: Global, home: Home<P>, wire: u8) -> Result<PageServer<P>, NoMemory>
        requires begun { IsBegun home }
        requires wire { IsWire wire }
        requires rooms { AreRoomsWithin (wire_room wire) home.objects }
        ensures { IfOk result (λ server. server ≡ first_server home wire) }
    {
        // What each home keeps.
        let _node = home.node();
        let locks = Locks::new(alloc)?;
        let served = Served::new(alloc)?;
        Ok(PageServer {
            home,
            locks,
            served,
            tick: 0,
            wire,
        })
    }

    /// The node. Takes no memory.
    pub fn node(&self) -> NodeId
        ensures { result ≡ self.now.side.home.node }
    {
        self.home.node()
    }

    /// The version of the frames that it takes and sends. Takes no memory.
    pub fn wire(&self) -> u8
        ensures value { result ≡ self.now.wire }
        ensures range { IsWire result }
    {
        self.wire
    }

    /// Answers a request of its version, by the event with this tick; None where the process has an answer to a later
    /// call. A number above the process's last one is decided; the last one gets the same answer again.
    /// Memory may be wanted for a page that is answered or stored, a grant where the table is full, an object that is
    /// made, and a list. Without memory nothing changes.
    pub fn serve(
        &mut self,
        alloc: Global,
        frame: &Frame,
        tick: u64,
    ) -> Result<Option<Frame>, NoMemory>
        requires request { IsTrue (is_request frame.now.body) }
        requires here { frame.now.to ≡ self.old.side.home.node }
        requires version { frame.now.version ≡ self.old.wire }
        requires later { self.old.tick < tick }
        requires tick { tick ≤ 2 ^ 40 }
        ensures reply { IfOk result (λ reply.
            reply ≡ option_map (reply_to frame.now tick) (serve_frame self.old.side frame.now).answer) }
        ensures side { OnOk result (self.new.side ≡ (serve_frame self.old.side frame.now).side) }
        ensures tick { OnOk result (self.new.tick ≡ tick) }
        ensures wire { self.new.wire ≡ self.old.wire }
        ensures old { IfOk result (λ reply.
            IsNone reply ↔ (frame.now.number < last_of (caller_of frame.now) self.old.side.served)) }
        ensures node { self.new.side.home.node ≡ self.old.side.home.node }
        ensures memory { IfSome (ask_of frame.now.body) (λ ask. OnErr result
            (IsTrue (may_want self.old.side (caller_of frame.now) frame.now.number ask))) }
        ensures err { OnErr result (self.new ≡ self.old) }
    {
        match self.served.look(frame.caller(), frame.number()) {
            Looked::Fresh => {
                let (home, locks) = (&mut self.home, &mut self.locks);
                let answer = fresh(alloc, home, locks, &mut self.served, frame)?;
                self.tick = tick;
                Ok(Some(reply(frame, tick, answer)))
            }
            Looked::Again => {
                let answer = again(alloc, &self.served, frame.caller())?;
                self.tick = tick;
                Ok(Some(reply(frame, tick, answer)))
            }
            Looked::Old => {
                self.tick = tick;
                Ok(None)
            }
        }
    }
}

/// Decides on a request, and keeps the answer as the last one to its process.
fn fresh<P: Pages>(
    alloc: Global,
    home: &mut Home<P>,
    locks: &mut Locks,
    served: &mut Served<HomeAnswer>,
    frame: &Frame,
) -> Result<HomeAnswer, NoMemory>
    requires request { IsTrue (is_request frame.now.body) }
    requires here { frame.now.to ≡ home.old.node }
    requires table { IsTable locks.old }
    requires grants { locks.old.last < 2 ^ 64 - 1 }
    requires counters { home.old.greatest < 2 ^ 44 - 1 }
    requires stamps { AreStampedTo (2 ^ 64 - 2) home.old.objects }
    ensures answer { IfSome (ask_of frame.now.body) (λ ask.
        IfOk result (λ answer. answer ≡ (decide home.old locks.old (caller_of frame.now) ask).answer)) }
    ensures home { IfSome (ask_of frame.now.body) (λ ask.
        OnOk result (home.new ≡ (decide home.old locks.old (caller_of frame.now) ask).home)) }
    ensures locks { IfSome (ask_of frame.now.body) (λ ask.
        OnOk result (locks.new ≡ (decide home.old locks.old (caller_of frame.now) ask).locks)) }
    ensures memory { IfSome (ask_of frame.now.body) (λ ask.
        OnErr result (IsTrue (decision_wants ask locks.old (decide home.old locks.old (caller_of frame.now) ask).answer))) }
    ensures served { IfOk result (λ answer.
        served.new ≡ with_call (record { proc = caller_of frame.now; number = frame.now.number; body = answer }) served.old) }
    ensures err_home { OnErr result (home.new ≡ home.old) }
    ensures err_locks { OnErr result (locks.new ≡ locks.old) }
    ensures err_served { OnErr result (served.new ≡ served.old) }
{
    let proc = frame.caller();
    let answer = decide(alloc, home, locks, proc, frame.body())?;
    let copy = answer.copy(alloc)?;
    served.keep(proc, frame.number(), answer);
    Ok(copy)
}

/// The last answer to a process, which has one.
fn again(alloc: Global, served: &Served<HomeAnswer>, proc: ProcId) -> Result<HomeAnswer, NoMemory>
    requires { 1 ≤ last_of proc served.now }
    ensures same { IfOk result (λ answer. body_of proc served.now ≡ Some answer) }
    ensures memory { OnErr result (IsTrue (kept_wants (body_of proc served.now))) }
{
    match served.kept(proc) {
        Some(answer) => answer.copy(alloc),
        None => unreachable!(),
    }
}

/// The frame that answers a request, in its version.
fn reply(frame: &Frame, tick: u64, answer: HomeAnswer) -> Frame
    requires tick { 1 ≤ tick }
    requires within { LiesWithin (wire_room frame.now.version) (body_of_answer answer) }
    ensures { result ≡ reply_to frame.now tick answer }
{
    Frame::new(
        frame.version(),
        frame.to(),
        frame.from(),
        frame.proc(),
        frame.number(),
        tick,
        answer.into_body(),
    )
}
