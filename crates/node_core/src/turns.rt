//! What the outcome of a desk's call makes of an operation and its node.
ghost use Rattle.std.specs.Prelude.{◌≡◌, ◌-◌, ◌+◌, ◌<◌, ◌^◌, ℕ, [], Some, None, IsSome, slice_set, OnOk};
ghost use Rattle.uid_names.specs.declared.ids.Place.{Place};
ghost use Rattle.dom_history.specs.declared.op.Op.{Op};
ghost use Rattle.dom_history.specs.declared.op.Want.TheVariants.{Do};
ghost use Rattle.dom_history.specs.Programs.{FitsWant};
ghost use Rattle.ring_messages.specs.Bodies.{body_of_ask};
ghost use Rattle.fault_handler.specs.Desks.{at, put_at};
ghost use Rattle.fault_handler.specs.Outcomes.{Turn};
ghost use Rattle.fault_handler.specs.Next.{FitsTurn, IsAsked};
ghost use Rattle.ring_messages.specs.Ranges.{IsBody, LiesWithin};
ghost use Rattle.lock_validate.specs.Bounded.{AsksWithin};
ghost use Rattle.uid_names.specs.Wires.{wire_room};
ghost use Rattle.node_core.specs.DeskMoves.{move_seen};
ghost use Rattle.node_core.specs.Outcomes.{IsFresh};
ghost use Rattle.node_core.specs.Processes.{IsWanted, want_at};
ghost use Rattle.node_core.specs.Programs.{program_in};

use crate::asked::Request;
use crate::machine::Machine;
use crate::moves::DeskMove;
use crate::processes::index_of;
use dom_history::{Dropped, Effects, EndWord, Program, Reply, Sent};
use page_store::Pages;
use ring_messages::Frame;
use std::alloc::Global;
use uid_names::{MAX_NODES, NoMemory, NodeId, Place, ProcId, Uid};

/// What an event did: the frame that it sends, with its index on its link, and its effects.
#[derive(Drop)]
pub(crate) struct Done {
    pub(crate) frame: Option<(u64, Frame)>,
    pub(crate) effects: Effects,
}

impl Done {
    /// Nothing yet. Takes no memory.
    pub(crate) fn new(alloc: Global) -> Done
        ensures { result ≡ record { frame = None; effects = record { dropped = []; sent = None; ended = None } } }
    {
        let effects = Effects {
            dropped: Dropped::new(alloc),
            sent: None,
            ended: None,
        };
        Done {
            frame: None,
            effects,
        }
    }
}

/// Nothing is sent, and no operation ends; these pages were dropped. What was done is still fresh, so the rest is so already.
pub(crate) fn quiet(dropped: Dropped, done: &mut Done)
    requires fresh { IsFresh done.old }
    ensures { done.new ≡ record { frame = None; effects = record { dropped = dropped; sent = None; ended = None } } }
{
    done.effects.dropped = dropped;
}

/// Counts one frame more to a node; how many there are then.
fn count(emitted: &mut [u64; MAX_NODES as usize], to: NodeId) -> u64
    requires { at emitted.old to 0 < 2 ^ 40 }
    ensures count { result ≡ at emitted.old to 0 + 1 }
    ensures counted { emitted.new ≡ put_at emitted.old to (at emitted.old to 0 + 1) }
{
    let at = usize::from(to.number()) - 1;
    emitted[at] += 1;
    emitted[at]
}

// Those of an outcome are inlined, so that its parts are moved from where a call left them: to copy a value of many small
// parts as a whole, right after they were written, takes longer than to write them.
impl<P: Program, G: Pages> Machine<P, G> {
    ghost use Rattle.node_core.specs.Machines.{state_of, IsAtEvent};
    ghost use Rattle.node_core.specs.Outcomes.{IsFresh, Sent as IsSent, Turns};

    /// What comes of an operation that began at this place, where its desk's call makes this of it.
    #[inline(always)]
    pub(crate) fn moves(
        &mut self,
        alloc: Global,
        proc: ProcId,
        begun: Place,
        came: DeskMove,
        done: &mut Done,
    ) -> Result<(), NoMemory>
        requires fresh { IsFresh done.old }
        requires own { proc.node ≡ self.old.desk.node }
        requires at { IsAtEvent P.spent P.wants self.old }
        requires program { IsSome (program_in self.old.programs.items proc.number) }
        requires wanted { IsWanted (want_at self.old.procs proc.number) }
        requires fits { (op : Op) → want_at self.old.procs proc.number ≡ Do op → FitsTurn op (move_seen came).turn }
        requires asks { IsAsked self.old.desk.nodes (move_seen came).turn }
        requires within { AsksWithin (wire_room self.old.server.wire) (move_seen came).turn }
        ensures { OnOk result (Turns P.spent P.wants P.becomes self.old self.new done.new proc.number begun (move_seen came).turn (move_seen came).dropped) }
    {
        match came {
            DeskMove::Ends(reply, dropped) => self.ends(alloc, proc, reply, dropped, done),
            DeskMove::Asks(home, request, dropped) => {
                self.asks(alloc, proc, begun, home, request, dropped, done)
            }
            DeskMove::Waits(uid, page, dropped) => {
                self.waits(proc, begun, uid, page, dropped, done);
                Ok(())
            }
        }
    }

    /// The operation of a process ends, and its program is told the reply.
    #[inline(always)]
    pub(crate) fn ends(
        &mut self,
        alloc: Global,
        proc: ProcId,
        reply: Reply,
        dropped: Dropped,
        done: &mut Done,
    ) -> Result<(), NoMemory>
        requires fresh { IsFresh done.old }
        requires at { IsAtEvent P.spent P.wants self.old }
        requires program { IsSome (program_in self.old.programs.items proc.number) }
        requires fits { FitsWant (want_at self.old.procs proc.number) (Some reply) }
        ensures { OnOk result ((begun : Place) → Turns P.spent P.wants P.becomes self.old self.new done.new proc.number begun (Turn.Ends reply) dropped) }
    {
        let word = EndWord::of(&reply);
        let phase = self.procs[index_of(proc)].phase;
        self.tell(alloc, proc, Some(&reply), phase)?;
        done.effects.dropped = dropped;
        done.effects.ended = Some((proc.number(), word));
        Ok(())
    }

    /// The operation of a process makes a call.
    #[inline(always)]
    pub(crate) fn asks(
        &mut self,
        alloc: Global,
        proc: ProcId,
        begun: Place,
        home: NodeId,
        request: Request,
        dropped: Dropped,
        done: &mut Done,
    ) -> Result<(), NoMemory>
        requires fresh { IsFresh done.old }
        requires own { proc.node ≡ self.old.desk.node }
        requires at { IsAtEvent P.spent P.wants self.old }
        requires range { IsBody home (body_of_ask request) }
        requires within { LiesWithin (wire_room self.old.server.wire) (body_of_ask request) }
        ensures { OnOk result (Turns P.spent P.wants P.becomes self.old self.new done.new proc.number begun (Turn.Asks home request) dropped) }
    {
        let number = self.procs[index_of(proc)].call(alloc, begun, home, &request)?;
        let version = self.server.wire();
        let (from, body) = (self.node(), request.into_body());
        let frame = Frame::new(version, from, home, proc.number(), number, self.tick, body);
        self.sends(frame, dropped, done);
        Ok(())
    }

    /// A frame is sent: the next one on its link.
    #[inline(always)]
    pub(crate) fn sends(&mut self, frame: Frame, dropped: Dropped, done: &mut Done)
        requires fresh { IsFresh done.old }
        requires counted { (to : ℕ) → at self.old.emitted to 0 < 2 ^ 40 }
        ensures { IsSent self.old self.new done.new frame dropped }
    {
        let to = frame.to();
        let index = count(&mut self.emitted, to);
        let sent = Sent {
            to,
            index,
            kind: frame.body().kind().number(),
            number: frame.number(),
        };
        done.frame = Some((index, frame));
        done.effects.dropped = dropped;
        done.effects.sent = Some(sent);
    }

    /// The operation of a process waits for a page.
    fn waits(
        &mut self,
        proc: ProcId,
        begun: Place,
        uid: Uid,
        page: u32,
        dropped: Dropped,
        done: &mut Done,
    )
        requires fresh { IsFresh done.old }
        requires at { IsAtEvent P.spent P.wants self.old }
        ensures { Turns P.spent P.wants P.becomes self.old self.new done.new proc.number begun (Turn.Waits uid page) dropped }
    {
        self.procs[index_of(proc)].wait(begun, uid, page);
        quiet(dropped, done)
    }
}
