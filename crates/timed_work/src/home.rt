//! Requests that a home serves: locks and unlocks in turn, and page-outs of one page.
ghost use Rattle.std.specs.Prelude.{◌≡◌, ◌≤◌, IsTrue, IfOk};
ghost use Rattle.ring_messages.specs.Bodies.{is_request};
ghost use Rattle.ring_messages.specs.Ranges.{IsBody};

use crate::{object, process};
use anyhow::Result;
use object_store::Home;
use page_server::PageServer;
use page_store::BlockPages;
use ring_messages::{Body, Frame, PageBytes};
use std::alloc::Global;
use uid_names::{Mode, NoMemory, ObjKind, Opening, Uid};

/// What a process asks.
#[derive(Clone, Copy)]
enum Asked {
    Lock,
    Unlock,
    PageOut,
}

/// The version of its frames, which can carry each body.
const WIRE: u8 = 2;

/// A home at node 2 with one object, the tick of its last event, and the last grant and stamp that it told.
#[derive(Drop)]
struct Side {
    server: PageServer<BlockPages>,
    uid: Uid,
    tick: u64,
    grant: u64,
    stamp: u64,
    ghost in_step: { server.tick ≤ tick },
    ghost version: { server.wire ≡ 2 },
    ghost granted: { 1 ≤ grant },
    ghost stamped: { 1 ≤ stamp },
}

impl Side {
    fn new(alloc: Global) -> Result<Side, NoMemory> {
        let (uid, tick, grant, stamp) = (object(), 0, 1, 1);
        let mut opening = Opening::new(alloc, 2, 1024);
        opening.add(uid, ObjKind::File, 1)?;
        let home = Home::new(alloc, uid.home(), BlockPages::new(alloc), &opening)?;
        let _node = home.node();
        let server = PageServer::new(alloc, home, WIRE)?;
        Ok(Side {
            server,
            uid,
            tick,
            grant,
            stamp,
        })
    }

    fn request(&self, alloc: Global, asked: Asked) -> Result<Body, NoMemory>
        ensures request { IfOk result (λ body. IsTrue (is_request body)) }
        ensures range { IfOk result (IsBody self.now.uid.home) }
    {
        let (uid, mode, page, grant, base) = (self.uid, Mode::Write, 0, self.grant, self.stamp);
        Ok(match asked {
            Asked::Lock => Body::Lock { uid, mode },
            Asked::Unlock => Body::Unlock { uid },
            Asked::PageOut => {
                let bytes = PageBytes::new(alloc, &[(base % 251) as u8; 1024])?;
                Body::PageOut {
                    uid,
                    page,
                    grant,
                    base,
                    bytes,
                }
            }
        })
    }

    /// Asks the home; 1 where it does what it is asked for, else 0.
    fn ask(&mut self, alloc: Global, asked: Asked) -> Result<u32, NoMemory> {
        let (caller, to) = (process(2, 1), self.uid.home());
        if self.tick >= 1_000_000_000_000 || to != self.server.node() {
            return Ok(0);
        }
        self.tick += 1;
        let (number, tick, body) = (caller.number(), self.tick, self.request(alloc, asked)?);
        let frame = Frame::new(WIRE, caller.node(), to, number, tick, tick, body);
        let Some(reply) = self.server.serve(alloc, &frame, tick)? else {
            return Ok(0);
        };
        match reply.body() {
            Body::Granted { grant, .. } => self.grant = (*grant).max(1),
            Body::Stored { stamp } => self.stamp = (*stamp).max(1),
            Body::Done => {}
            _ => return Ok(0),
        }
        Ok(1)
    }
}

pub fn lock_and_unlock(rt: &HostRuntime, count: u32) -> Result<(u64, u64)> {
    let mut side = Side::new(rt.alloc())?;
    timed!(rt, count, i => match i % 2 {
        0 => side.ask(rt.alloc(), Asked::Lock)?,
        _ => side.ask(rt.alloc(), Asked::Unlock)?,
    })
}

/// The object is locked before.
pub fn page_out(rt: &HostRuntime, count: u32) -> Result<(u64, u64)> {
    let mut side = Side::new(rt.alloc())?;
    side.ask(rt.alloc(), Asked::Lock)?;
    timed!(rt, count, _i => side.ask(rt.alloc(), Asked::PageOut)?)
}
