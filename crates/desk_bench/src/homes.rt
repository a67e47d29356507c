//! A home side, and what it answers to requests.
ghost use Rattle.std.specs.Prelude.{◌≡◌, ◌≤◌, ◌<◌, IsTrue};
ghost use Rattle.uid_names.specs.Beginnings.{CanHomeBegin, at_home};
ghost use Rattle.ring_messages.specs.Bodies.{is_request};
ghost use Rattle.ring_messages.specs.Ranges.{IsBody, IsWhole};

use crate::bodies;
use crate::words::{MOST, behind_two, number, proc};
use anyhow::{Result, bail};
use object_store::Home;
use page_server::PageServer;
use page_store::ListPages;
use ring_messages::{Body, Frame};
use std::alloc::{AllocError, Global};
use uid_names::{
    MAX_LENGTH, MAX_ROOM, NoMemory, NodeId, ObjKind, Opening, PAGE_BYTES, ProcId, Uid,
};

/// The version of its frames, which can carry each body.
const WIRE: u8 = 2;

/// The home side of node 2, and the tick of its last event.
#[derive(Drop)]
pub struct HomeBench {
    server: PageServer<ListPages>,
    tick: u64,
    ghost in_step: { server.tick ≤ tick },
    ghost version: { server.wire ≡ 2 },
}

impl HomeBench {
    /// The home side of an opening that is named: with a file of one page, or with a link of one page and a file of
    /// another home.
    pub fn new(alloc: Global, name: &str) -> Result<HomeBench> {
        let (Some(elsewhere), Some(node)) = (NodeId::new(1), NodeId::new(2)) else {
            bail!("no node");
        };
        let mut opening = Opening::new(alloc, 2, MAX_ROOM);
        let uid = Uid::from_parts(2, node);
        match name {
            "file" => opening.add(uid, ObjKind::File, 1)?,
            "link" => {
                opening.add(uid, ObjKind::Link, 1)?;
                opening.add(Uid::from_parts(2, elsewhere), ObjKind::File, 4)?;
            }
            _ => bail!("no such opening"),
        }
        Ok(HomeBench::begun(alloc, node, &opening)?)
    }

    /// The home side of a node at the start.
    fn begun(alloc: Global, node: NodeId, opening: &Opening) -> Result<HomeBench, NoMemory>
        requires { CanHomeBegin (at_home node opening.now.objects) }
    {
        let home = Home::new(alloc, node, ListPages::new(alloc), opening)?;
        let _node = home.node();
        let server = PageServer::new(alloc, home, WIRE)?;
        Ok(HomeBench { server, tick: 0 })
    }

    /// Takes a call: the process, the number of its call, and the request.
    pub fn call(&mut self, alloc: Global, words: &[&str; MOST]) -> Result<String> {
        let (caller, number) = (proc(words[0])?, number(words[1])?);
        let body = bodies::read(alloc, &behind_two(words))?;
        match self.send(alloc, caller, number, body)? {
            Some(frame) => Ok(self.told(alloc, caller, number, &frame)?),
            None => Ok(format!(in alloc; "nothing")?),
        }
    }

    /// The frame that answers the call of this number of a process.
    fn send(
        &mut self,
        alloc: Global,
        caller: ProcId,
        number: u64,
        body: Body,
    ) -> Result<Option<Frame>> {
        let to = self.server.node();
        if self.tick >= 1_000_000 || number == 0 || !may_ask(to, &body) {
            bail!("no such request");
        }
        let tick = self.tick + 1;
        let frame = Frame::new(WIRE, caller.node(), to, caller.number(), number, tick, body);
        self.tick = tick;
        Ok(self.server.serve(alloc, &frame, tick)?)
    }

    /// What is told to a call. It says so where the answer is not sent to its process, at this tick.
    fn told(
        &self,
        alloc: Global,
        caller: ProcId,
        number: u64,
        frame: &Frame,
    ) -> Result<String, AllocError> {
        let is_sent = frame.from() == self.server.node()
            && frame.to() == caller.node()
            && frame.proc() == caller.number()
            && frame.number() == number
            && frame.tick() == self.tick;
        let body = bodies::text(alloc, frame.body())?;
        if is_sent {
            Ok(body)
        } else {
            format!(in alloc; "astray {body}")
        }
    }
}

/// Whether a page-out is in the ranges of what a node may be asked.
fn may_write(
    to: NodeId,
    uid: Uid,
    page: u32,
    grant: u64,
    base: u64,
    bytes: &[u8; PAGE_BYTES],
) -> bool
    ensures { IsTrue result → (uid.home ≡ to) × (page < MAX_ROOM) × (1 ≤ grant) × (1 ≤ base) × IsWhole bytes.now }
{
    let _bytes = bytes;
    uid.home() == to && page < MAX_ROOM && grant >= 1 && base >= 1
}

/// Whether a body asks, and is in the ranges of what a node may be asked.
fn may_ask(to: NodeId, body: &Body) -> bool
    ensures request { IsTrue result → IsTrue (is_request body.now) }
    ensures ranges { IsTrue result → IsBody to body.now }
{
    match body {
        Body::PageIn { uid, page } => uid.home() == to && *page < MAX_ROOM,
        Body::PageOut {
            uid,
            page,
            grant,
            base,
            bytes,
        } => may_write(to, *uid, *page, *grant, *base, bytes.bytes()),
        Body::AttrOut {
            uid,
            length,
            grant,
            base,
        } => uid.home() == to && *length <= MAX_LENGTH && *grant >= 1 && *base >= 1,
        Body::Lock { uid, .. } | Body::Unlock { uid } | Body::Remove { uid } => uid.home() == to,
        Body::Make { room, .. } => 1 <= *room && *room <= MAX_ROOM,
        Body::List { .. } => true,
        _ => false,
    }
}
