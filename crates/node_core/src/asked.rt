//! What a process asks of a home.
ghost use Rattle.std.specs.Prelude.{◌≡◌, IfOk};
ghost use Rattle.ring_messages.specs.Bodies.{body_of_ask};
ghost use Rattle.node_core.specs.Asked.{ask_in, IsRequest};

use ring_messages::Body;
use std::alloc::Global;
use std::marker::Model;
use uid_names::NoMemory;

/// A request: the body of a frame that asks a home something.
#[derive(Drop)]
pub(crate) struct Request {
    body: Body,
}

impl Model for Request {
    ghost use Rattle.ring_messages.specs.Bodies.{Ask};
    ghost use Rattle.node_core.specs.Asked.{ask_code, ask_in, IsRequest};

    ghost Value = { Ask };

    ghost coded = { ask_code };

    ghost view = { λ r. ask_in r.body };

    ghost invariant = { λ r. IsRequest r.body };
}

impl Request {
    /// It stands where a process made no call yet. Takes no memory.
    pub(crate) fn none() -> Request {
        let body = Body::List { after: None };
        Request { body }
    }

    /// What this body asks. Takes no memory.
    #[inline(always)]
    pub(crate) fn from_body(body: Body) -> Request
        requires { IsRequest body }
        ensures { result ≡ ask_in body }
    {
        Request { body }
    }

    /// A copy. Only that of a page takes memory.
    pub(crate) fn copy(&self, alloc: Global) -> Result<Request, NoMemory>
        ensures { IfOk result (λ copy. copy ≡ self.now) }
    {
        let body = self.body.copy(alloc)?;
        Ok(Request { body })
    }

    /// The body that asks it. Takes no memory.
    #[inline(always)]
    pub(crate) fn into_body(self) -> Body
        ensures { result ≡ body_of_ask self }
    {
        self.body
    }
}
