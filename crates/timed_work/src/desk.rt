//! A cache alone, and a desk of 64 frames with its cache.
ghost use Rattle.std.specs.Prelude.{◌≡◌, IsSome};
ghost use Rattle.dom_history.specs.Ranges.{IsOp, IsSpot, IsInPage};
ghost use Rattle.fault_handler.specs.Accesses.{desk_op};

use crate::{object, process};
use anyhow::Result;
use dom_history::{LockState, Op, Spot};
use fault_handler::{Access, Desk, OpenCall};
use page_cache::Cache;
use ring_messages::{Body, PageBytes};
use std::alloc::Global;
use uid_names::{ByteList, Mode, NoMemory, ProcId, Uid};

/// Puts a page in, where there is a free frame and the page isn't there.
fn put(cache: &mut Cache, uid: Uid, page: u32) -> Result<(), NoMemory> {
    if cache.free() > 0 {
        cache.reserve();
        match cache.find(uid, page) {
            None => cache.install(uid, page, &[7; 1024])?,
            Some(_) => cache.unreserve(),
        }
    }
    Ok(())
}

/// A cache of 64 or 256 frames, full of the first pages of an object.
fn full(alloc: Global, frames: u16, uid: Uid) -> Result<Cache, NoMemory> {
    let mut cache = Cache::new(alloc, if frames <= 64 { 64 } else { 256 })?;
    for page in 0..u32::from(frames) {
        put(&mut cache, uid, page)?;
    }
    Ok(cache)
}

/// Touches each time the page that was used longest ago.
pub fn touch(rt: &HostRuntime, frames: u16, count: u32) -> Result<(u64, u64)> {
    let uid = object();
    let mut cache = full(rt.alloc(), frames, uid)?;
    timed!(rt, count, i => {
        let page = i.checked_rem(u32::from(frames)).unwrap_or(0);
        if cache.find(uid, page).is_some() {
            cache.touch(uid, page);
            1
        } else {
            0
        }
    })
}

/// Puts a page in the place of the one that goes.
pub fn evict(rt: &HostRuntime, frames: u16, count: u32) -> Result<(u64, u64)> {
    let uid = object();
    let mut cache = full(rt.alloc(), frames, uid)?;
    timed!(rt, count, i => {
        if let Some((uid, page)) = cache.victim() {
            cache.remove(uid, page);
        }
        put(&mut cache, uid, i % 1000)?;
        u32::from(cache.free() == 0)
    })
}

/// A desk at node 1, and an object of node 2 that a process holds in Write and of which so many pages are used in turn. With
/// more pages than frames each load brings its page.
#[derive(Drop)]
struct Side {
    alloc: Global,
    desk: Desk,
    proc: ProcId,
    pages: u32,
    ghost same: { desk.node ≡ proc.node },
}

impl Side {
    fn new(alloc: Global, pages: u32) -> Result<Side, NoMemory> {
        let (proc, uid, mode) = (process(1, 1), object(), Mode::Write);
        let mut desk = Desk::new(alloc, proc.node(), 2, 64)?;
        desk.know(uid, 1, 1024, 1_048_576)?;
        match desk.state(proc, uid) {
            LockState::Free
                if desk.seen(uid).is_some()
                    && desk.not_free(proc) < 8
                    && uid.home().number() <= desk.nodes() => {
                desk.set_state(proc, uid, LockState::Held(mode), 1)
            }
            _ => {}
        }
        let mut side = Side {
            alloc,
            desk,
            proc,
            pages,
        };
        for page in 0..pages {
            side.load(page)?;
        }
        Ok(side)
    }

    /// The beginning of the page whose turn it is.
    fn spot(&self, i: u32) -> Spot
        ensures name { IsSpot result }
        ensures place { IsInPage result 1 }
    {
        let uid = object();
        let _number = uid.number();
        let page = i.checked_rem(self.pages).unwrap_or(0) % 1000;
        Spot::Of(uid, page * 1024)
    }

    /// The page comes that a load asked for: 1 where it is done.
    fn come(&mut self, i: u32) -> Result<u32, NoMemory> {
        let stamp = 1;
        let bytes = PageBytes::new(self.alloc, &[(i % 251) as u8; 1024])?;
        let body = Body::Page { stamp, bytes };
        match self.desk.open_call(self.proc) {
            Some(OpenCall::Access) if self.desk.answers(self.proc, &body) => {
                let access = self.desk.page_came(self.alloc, self.proc, &body)?;
                Ok(u32::from(matches!(&access, Access::Hit(..))))
            }
            _ => Ok(0),
        }
    }

    /// A load or store: 1 where it is done.
    fn access(&mut self, op: &Op, i: u32) -> Result<u32, NoMemory>
        requires access { IsSome (desk_op op.now) }
        requires range { IsOp op.now }
    {
        if !self.desk.is_idle(self.proc) {
            return Ok(0);
        }
        match &self.desk.access(self.alloc, self.proc, op)? {
            Access::Hit(..) => Ok(1),
            Access::Need(..) => self.come(i),
            _ => Ok(0),
        }
    }

    fn load(&mut self, i: u32) -> Result<u32, NoMemory> {
        let (spot, count) = (self.spot(i), 1);
        self.access(&Op::Load { spot, count }, i)
    }

    fn store(&mut self, i: u32) -> Result<u32, NoMemory> {
        let spot = self.spot(i);
        let bytes = ByteList::from_slice(self.alloc, &[(i % 251) as u8])?;
        self.access(&Op::Store { spot, bytes }, i)
    }
}

/// Loads a byte of each of so many pages in turn.
pub fn load(rt: &HostRuntime, pages: u32, count: u32) -> Result<(u64, u64)> {
    let mut side = Side::new(rt.alloc(), pages)?;
    timed!(rt, count, i => side.load(i)?)
}

pub fn store(rt: &HostRuntime, pages: u32, count: u32) -> Result<(u64, u64)> {
    let mut side = Side::new(rt.alloc(), pages)?;
    timed!(rt, count, i => side.store(i)?)
}
