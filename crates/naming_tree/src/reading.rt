//! Objects that are read whole.
ghost use Rattle.std.specs.Prelude.{◌≡◌, ◌≢◌, false, true, IfOk, OnOk};
ghost use Rattle.dom_history.specs.Ranges.{IsOp};
ghost use Rattle.dom_history.specs.Fitting.{Fits};
ghost use Rattle.naming_tree.specs.Readings.{reading_of, reading_op, is_done as is_done_reading, reading_after, entered, closed, nothing_held, IsReading};
ghost use Rattle.naming_tree.specs.Entering.{IsEntering};

use crate::session::{Closing, Entering, Entry};
use dom_history::{Op, Reply};
use std::alloc::Global;
use uid_names::{ByteList, Mode, NoMemory, Uid};

/// The reading of an object: it is opened, loaded and closed.
pub struct Reading {
    pub uid: Uid,
    /// How far it is opened and loaded; None once it is closed or being closed.
    pub enter: Option<Entering>,
    /// What was loaded so far.
    pub bytes: ByteList,
    pub closing: Closing,
}

// Of its own, so that what drops one calls this and does not take it apart in place.
impl Drop for Reading {
    fn drop(self) {
        let Reading {
            uid: _,
            enter: _,
            bytes: _,
            closing: _,
        } = self;
    }
}

impl Reading {
    /// The reading of an object that begins. Takes no memory.
    pub fn new(alloc: Global, uid: Uid) -> Reading
        ensures { result ≡ reading_of uid }
    {
        Reading {
            uid,
            enter: Some(Entering::Lock),
            bytes: ByteList::new(alloc),
            closing: Closing::none(),
        }
    }

    /// What it asks, while it is not done. Takes no memory.
    pub fn op(&self) -> Op
        requires { IsReading self.now }
        ensures value { result ≡ reading_op self.now }
        ensures range { IsOp result }
    {
        let _number = self.uid.number();
        match (self.enter, self.closing.held) {
            (Some(stage), _) => stage.op(self.uid, Mode::Read),
            (None, Some(held)) => held.op(),
            (None, None) => Op::Unlock { uid: self.uid },
        }
    }

    /// Whether it is done. Takes no memory.
    pub fn is_done(&self) -> bool
        ensures { result ≡ is_done_reading self.now }
    {
        self.enter.is_none() && self.closing.held.is_none()
    }

    /// Takes in the reply to an operation of the opening.
    fn enter(&mut self, alloc: Global, stage: &Entering, reply: &Reply) -> Result<(), NoMemory>
        requires { IsEntering stage.now }
        ensures { OnOk result (self.new ≡ entered self.old stage.now reply.now) }
    {
        stage.take_bytes(&mut self.bytes, reply)?;
        let entry = stage.hear(self.uid, reply);
        self.enter = entry.stage();
        self.closing = entry.closing(alloc, reply)?;
        Ok(())
    }

    /// Takes in the reply to its operation.
    pub fn hear(&mut self, alloc: Global, reply: &Reply) -> Result<(), NoMemory>
        requires range { IsReading self.old }
        requires fits { Fits (reading_op self.old) reply.now }
        ensures after { OnOk result (self.new ≡ reading_after self.old reply.now) }
        ensures range { OnOk result (IsReading self.new) }
    {
        match self.enter {
            Some(stage) => self.enter(alloc, &stage, reply),
            None => self.closing.hear(alloc, reply),
        }
    }
}
