//! How far streams have come: an object is opened, worked on and closed.
ghost use Rattle.std.specs.Prelude.{◌≡◌, ℕ, List, [], true, false, IsTrue, IfOk, OnOk, IfNone};
ghost use Rattle.uid_names.specs.Rooms.{IsLength};
ghost use Rattle.dom_history.specs.Ranges.{IsOp};
ghost use Rattle.dom_history.specs.Fitting.{Fits, is_length_reply, is_map_reply};
ghost use Rattle.dom_history.specs.declared.op.Op.TheVariants.{Lock as LockOp, Length as LengthOp, Map as MapOp};
ghost use Rattle.mapped_streams.specs.declared.step.StreamResult.TheVariants.{Store};
ghost use Rattle.naming_tree.specs.Entering.{is_fine as is_fine_reply};
ghost use Rattle.naming_tree.specs.Sessions.{fine, closers_if};
ghost use Rattle.mapped_streams.specs.Dialogues.{told};
ghost use Rattle.mapped_streams.specs.Pages.{IsMapped};
ghost use Rattle.mapped_streams.specs.Streams.{closing, go_on, measuring, mapping};
ghost use Rattle.mapped_streams.specs.Works.{come_of, work_op, is_done, IsWork};
ghost use Rattle.mapped_streams.specs.Turns.{turn_of, working, giving_up, behind_lock, behind_length, behind_map, behind_work, first_refusal, behind_close, turn as stream_turn};
ghost use Rattle.mapped_streams.specs.States.{streaming_of, opened_left, left, left_or, stage_op, closing_left, IsStreaming};

use crate::mapped::{Mapped, Opened};
use crate::step::StreamResult;
use crate::work::Work;
use dom_history::{Op, Reply};
use std::alloc::Global;
use uid_names::{NoMemory, Uid};

/// What a stream asks.
#[derive(Clone, Copy)]
pub enum Stage {
    Lock,
    Length,
    Map { length: u32 },
    /// The object is open, and is worked on.
    At(Opened),
    /// It is closed: the mapping, where that is to be undone, and the lock.
    Close { mapped: bool },
}

/// How far a stream on an object has come; the refusal that counts, if there was one.
pub struct Streaming {
    pub uid: Uid,
    pub work: Work,
    pub stage: Stage,
    pub refused: Option<Reply>,
}

// Of its own, so that what drops one calls this and does not take it apart in place.
impl Drop for Streaming {
    fn drop(self) {
        let Streaming {
            uid: _,
            work: _,
            stage: _,
            refused: _,
        } = self;
    }
}

/// Whether an operation was done that tells nothing.
fn is_fine(reply: &Reply) -> bool
    ensures { result ≡ is_fine_reply reply.now }
{
    match reply {
        Reply::Fine => true,
        _ => false,
    }
}

impl Streaming {
    /// A stream on an object, before it begins. Takes no memory.
    pub fn new(uid: Uid, work: Work) -> Streaming
        requires { IsWork work }
        ensures value { result ≡ streaming_of uid work }
        ensures range { IsStreaming result }
    {
        Streaming {
            uid,
            work,
            stage: Stage::Lock,
            refused: None,
        }
    }

    /// Its operation.
    pub fn op(&self, alloc: Global) -> Result<Op, NoMemory>
        requires { IsStreaming self.now }
        ensures value { IfOk result (λ op. op ≡ stage_op self.now.uid self.now.work self.now.stage) }
        ensures range { IfOk result IsOp }
    {
        let uid = self.uid;
        let _number = uid.number();
        Ok(match self.stage {
            Stage::Lock => Op::Lock {
                uid,
                mode: self.work.mode(),
            },
            Stage::Length => Op::Length { uid },
            Stage::Map { length: _ } => Op::Map { uid },
            Stage::At(opened) => self.work.op(alloc, &opened.at)?,
            Stage::Close { mapped: true } => Op::Unmap { uid },
            Stage::Close { mapped: false } => Op::Unlock { uid },
        })
    }

    #[tactic(auto, using(crate::proofs::Works::work_done))]
    /// Goes on with its work, or closes where that is done.
    fn settle(&mut self, opened: &Opened)
        requires work { IsWork self.old.work }
        requires mapped { IsMapped opened.now.at }
        ensures value { self.new ≡ working self.old.uid self.old.work self.old.refused opened.now }
        ensures left { left self.new ≡ opened_left self.old.uid self.old.work opened.now }
        ensures range { IsStreaming self.new }
    {
        if self.work.is_done(&opened.at) {
            self.stage = Stage::Close {
                mapped: opened.fresh,
            };
            self.refused = None;
        } else {
            self.stage = Stage::At(*opened);
        }
    }

    /// Closes behind a refusal, which is the result.
    fn give_up(&mut self, alloc: Global, mapped: bool, reply: &Reply) -> Result<(), NoMemory>
        requires { IsWork self.old.work }
        ensures value { OnOk result (self.new ≡ giving_up self.old.uid self.old.work mapped reply.now) }
        ensures left { OnOk result (left self.new ≡ closing (closers_if mapped self.old.uid) (Store reply.now)) }
        ensures range { OnOk result (IsStreaming self.new) }
    {
        self.refused = Some(reply.copy(alloc)?);
        self.stage = Stage::Close { mapped };
        Ok(())
    }

    /// Takes in the reply to the lock.
    fn on_lock(&mut self, alloc: Global, reply: &Reply) -> Result<Option<StreamResult>, NoMemory>
        requires { IsWork self.old.work }
        ensures turn { IfOk result (λ come. turn_of come self.new ≡ behind_lock self.old.uid self.old.work self.old.refused reply.now) }
        ensures left { IfOk result (λ come. left_or come self.new ≡ go_on (fine reply.now) reply.now [] (λ _. measuring self.old.uid (opened_left self.old.uid self.old.work))) }
        ensures range { IfOk result (λ come. IfNone come (IsStreaming self.new)) }
    {
        if !is_fine(reply) {
            return Ok(Some(StreamResult::Store(reply.copy(alloc)?)));
        }
        self.stage = Stage::Length;
        Ok(None)
    }

    /// Takes in the reply to the length.
    fn on_length(&mut self, alloc: Global, reply: &Reply) -> Result<(), NoMemory>
        requires work { IsWork self.old.work }
        requires fits { IsTrue (is_length_reply reply.now) }
        ensures value { OnOk result (self.new ≡ behind_length self.old.uid self.old.work self.old.refused reply.now) }
        ensures left { OnOk result (left self.new ≡ told (measuring self.old.uid (opened_left self.old.uid self.old.work)) reply.now) }
        ensures range { OnOk result (IsStreaming self.new) }
    {
        match reply {
            Reply::Size(length) => {
                self.stage = Stage::Map { length: *length };
                Ok(())
            }
            _ => self.give_up(alloc, false, reply),
        }
    }

    /// Takes in the reply to the mapping.
    fn on_map(&mut self, alloc: Global, length: u32, reply: &Reply) -> Result<(), NoMemory>
        requires work { IsWork self.old.work }
        requires length { IsLength length }
        requires fits { IsTrue (is_map_reply reply.now) }
        ensures value { OnOk result (self.new ≡ behind_map self.old.uid self.old.work self.old.refused length reply.now) }
        ensures left { OnOk result (left self.new ≡ told (mapping self.old.uid length (opened_left self.old.uid self.old.work)) reply.now) }
        ensures range { OnOk result (IsStreaming self.new) }
    {
        match reply {
            Reply::At { address, fresh } => {
                let at = Mapped {
                    address: *address,
                    length,
                };
                self.settle(&Opened { at, fresh: *fresh });
                Ok(())
            }
            _ => self.give_up(alloc, false, reply),
        }
    }

    #[tactic(auto, using(crate::proofs::Works::taken_left, crate::proofs::Works::refused_left))]
    /// Takes in the reply to an operation of its work.
    fn on_work(&mut self, alloc: Global, opened: &Opened, reply: &Reply) -> Result<(), NoMemory>
        requires work { IsWork self.old.work }
        requires mapped { IsMapped opened.now.at }
        requires going { is_done opened.now.at self.old.work ≡ false }
        requires fits { Fits (work_op opened.now.at self.old.work) reply.now }
        ensures value { OnOk result (self.new ≡ behind_work self.old.uid self.old.work self.old.refused opened.now reply.now) }
        ensures left { OnOk result (left self.new ≡ told (opened_left self.old.uid self.old.work opened.now) reply.now) }
        ensures range { OnOk result (IsStreaming self.new) }
    {
        if self.work.hear(alloc, &opened.at, reply)? {
            self.settle(opened);
            Ok(())
        } else {
            self.give_up(alloc, opened.fresh, reply)
        }
    }

    /// Takes in the reply to an operation of its closing.
    fn on_close(
        &mut self,
        alloc: Global,
        mapped: bool,
        reply: &Reply,
    ) -> Result<Option<StreamResult>, NoMemory>
        requires { IsWork self.old.work }
        ensures turn { IfOk result (λ come. turn_of come self.new ≡ behind_close self.old.uid self.old.work mapped (first_refusal self.old.refused reply.now)) }
        ensures left { IfOk result (λ come. left_or come self.new ≡ told (closing_left (closers_if mapped self.old.uid) self.old.refused (come_of self.old.work)) reply.now) }
        ensures range { IfOk result (λ come. IfNone come (IsStreaming self.new)) }
    {
        if self.refused.is_none() && !is_fine(reply) {
            self.refused = Some(reply.copy(alloc)?);
        }
        if mapped {
            self.stage = Stage::Close { mapped: false };
            return Ok(None);
        }
        match self.refused.take() {
            Some(reply) => Ok(Some(StreamResult::Store(reply))),
            None => Ok(Some(self.work.take_result(alloc))),
        }
    }

    /// Takes in the reply to its operation.
    pub fn hear(&mut self, alloc: Global, reply: &Reply) -> Result<Option<StreamResult>, NoMemory>
        requires range { IsStreaming self.old }
        requires fits { Fits (stage_op self.old.uid self.old.work self.old.stage) reply.now }
        ensures turn { IfOk result (λ come. turn_of come self.new ≡ stream_turn self.old reply.now) }
        ensures left { IfOk result (λ come. left_or come self.new ≡ told (left self.old) reply.now) }
        ensures range { IfOk result (λ come. IfNone come (IsStreaming self.new)) }
    {
        match self.stage {
            Stage::Lock => return self.on_lock(alloc, reply),
            Stage::Length => self.on_length(alloc, reply)?,
            Stage::Map { length } => self.on_map(alloc, length, reply)?,
            Stage::At(opened) => self.on_work(alloc, &opened, reply)?,
            Stage::Close { mapped } => return self.on_close(alloc, mapped, reply),
        }
        Ok(None)
    }
}
