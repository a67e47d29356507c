//! A frame, and what a node reads first of one.
ghost use Rattle.std.specs.Prelude.{◌≡◌, ◌≤◌, ℕ};
ghost use Rattle.uid_names.specs.Names.{ProcName};
ghost use Rattle.uid_names.specs.declared.limits.TheConstants.{MAX_NODES};

use crate::body::Body;
use crate::copied::Copied;
use std::alloc::{AllocError, AllocFailed, Global};
use std::marker::Model;
use thiserror::Error;
use uid_names::{FrameKind, NoMemory, NodeId, ProcId};

/// A frame: in which version it is written, from which node to which, for which process, with the number of its call and
/// the tick of the event that sends it. It keeps all ranges that its spelling has.
#[derive(Debug)]
pub struct Frame {
    version: u8,
    from: NodeId,
    to: NodeId,
    proc: u8,
    number: u64,
    tick: u64,
    body: Body,
}

// Of its own, so that what drops one calls this and does not take it apart in place.
impl Drop for Frame {
    fn drop(self) {
        let Frame {
            version: _,
            from: _,
            to: _,
            proc: _,
            number: _,
            tick: _,
            body: _,
        } = self;
    }
}

impl Model for Frame {
    ghost use Rattle.ring_messages.specs.Frames.{Message};

    ghost Value = { Message };

    ghost use Rattle.ring_messages.specs.Frames.{IsInRange};

    ghost view = { λ f. record { version = f.version; from = f.from; to = f.to; proc = f.proc; number = f.number; tick = f.tick; body = f.body } };

    ghost invariant = { λ f. IsInRange (record { version = f.version; from = f.from; to = f.to; proc = f.proc; number = f.number; tick = f.tick; body = f.body }) };
}

/// The header of a frame. The process is of node `from` in a request, and of node `to` in a reply.
#[derive(Clone, Copy, Debug, PartialEq, Eq)]
pub struct Head {
    pub version: u8,
    pub kind: FrameKind,
    pub from: NodeId,
    pub to: NodeId,
    pub proc: u8,
    pub number: u64,
    pub tick: u64,
}

/// Why no frame was read.
#[derive(Clone, Copy, Debug, PartialEq, Eq, Error)]
pub enum FrameFault {
    #[error("no frame has these bytes")]
    BadFrame,
    #[error("no memory")]
    NoMemory,
}

impl From<NoMemory> for FrameFault {
    ghost use Rattle.ring_messages.specs.declared.frame.FrameFault.TheVariants as faults;

    ghost from_gives = { λ _ e. e ≡ faults.NoMemory };

    fn from(_error: NoMemory) -> FrameFault {
        FrameFault::NoMemory
    }
}

impl Frame {
    ghost use Rattle.ring_messages.specs.Frames.{Message, IsInRange, caller_of};

    /// A frame. The process is of node `from` in a request, and of node `to` in a reply.
    pub fn new(
        version: u8,
        from: NodeId,
        to: NodeId,
        proc: u8,
        number: u64,
        tick: u64,
        body: Body,
    ) -> Frame
        requires { IsInRange (record { version = version; from = from; to = to; proc = proc; number = number; tick = tick; body = body }) }
        ensures { result ≡ record { version = version; from = from; to = to; proc = proc; number = number; tick = tick; body = body } }
    {
        Frame {
            version,
            from,
            to,
            proc,
            number,
            tick,
            body,
        }
    }

    /// The version in which it is written, 1 or 2.
    pub fn version(&self) -> u8
        ensures value { result ≡ self.now.version }
        ensures ranges { IsInRange self.now }
    {
        self.version
    }

    /// The node that sends it.
    pub fn from(&self) -> NodeId
        ensures value { result ≡ self.now.from }
        ensures least { 1 ≤ result }
        ensures greatest { result ≤ MAX_NODES }
    {
        let node = self.from;
        let _number = node.number();
        node
    }

    /// The node that it is sent to.
    pub fn to(&self) -> NodeId
        ensures value { result ≡ self.now.to }
        ensures least { 1 ≤ result }
        ensures greatest { result ≤ MAX_NODES }
    {
        let node = self.to;
        let _number = node.number();
        node
    }

    /// The number of the calling process at its node, 1 to 4.
    pub fn proc(&self) -> u8
        ensures value { result ≡ self.now.proc }
        ensures ranges { IsInRange self.now }
    {
        self.proc
    }

    /// The process that calls: of node `from` in a request, and of node `to` in a reply.
    pub fn caller(&self) -> ProcId
        ensures { result ≡ caller_of self.now }
    {
        let node = if self.body.is_request() {
            self.from
        } else {
            self.to
        };
        match ProcId::new(node, self.proc) {
            Some(caller) => caller,
            None => unreachable!(),
        }
    }

    /// The number of the call, from 1.
    pub fn number(&self) -> u64
        ensures value { result ≡ self.now.number }
        ensures ranges { IsInRange self.now }
    {
        self.number
    }

    /// The tick of the event that sends it, from 1.
    pub fn tick(&self) -> u64
        ensures value { result ≡ self.now.tick }
        ensures ranges { IsInRange self.now }
    {
        self.tick
    }

    /// What it carries.
    pub fn body(&self) -> &Body
        ensures value { result.now ≡ self.now.body }
        ensures ranges { IsInRange self.now }
    {
        &self.body
    }

    /// What it carries, as a value.
    pub fn into_body(self) -> Body
        ensures value { result ≡ self.body }
        ensures ranges { IsInRange self }
    {
        let Frame {
            version: _,
            from: _,
            to: _,
            proc: _,
            number: _,
            tick: _,
            body,
        } = self;
        body
    }
}

impl Copied for Frame {
    fn copy(&self, alloc: Global) -> Result<Frame, NoMemory> {
        let body = self.body.copy(alloc)?;
        Ok(Frame {
            version: self.version,
            from: self.from,
            to: self.to,
            proc: self.proc,
            number: self.number,
            tick: self.tick,
            body,
        })
    }
}
