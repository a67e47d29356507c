//! Loads and stores at their places.
ghost use Rattle.std.specs.Prelude.{◌≡◌, ◌+◌, ◌≤◌, IfOk, take, drop};
ghost use Rattle.fault_handler.specs.Tasks.{page_of, start_of, size_of};
ghost use Rattle.fault_handler.specs.Unseen.{loaded_from, loaded_size};

use std::alloc::Global;
use uid_names::{ByteList, ByteRoom, NoMemory, PAGE_BYTES, Uid};

/// So many bytes of a page, from one on, where there is room for them. Takes no memory.
pub(crate) fn copied(room: ByteRoom, page: &[u8; PAGE_BYTES], start: u32, count: u32) -> ByteList
    requires within { start + count ≤ PAGE_BYTES }
    requires room { count ≤ room }
    ensures { result ≡ take count (drop start page.now) }
{
    let first = start as usize;
    room.fill(&page[first..first + count as usize])
}

/// What is done at a place: so many bytes loaded, or these stored.
#[derive(Drop, Debug)]
pub enum Work {
    Load(u32),
    Store(ByteList),
}

/// A load or store at an offset of an object, in bytes.
#[derive(Debug)]
pub struct Task {
    pub uid: Uid,
    pub offset: u32,
    pub work: Work,
}

// Of its own, so that what drops one calls this and does not take it apart in place.
impl Drop for Task {
    fn drop(self) {
        let Task {
            uid: _,
            offset: _,
            work: _,
        } = self;
    }
}

impl Task {
    /// The page that it needs.
    pub fn page(&self) -> u32
        ensures { result ≡ page_of self.now }
    {
        self.offset / PAGE_BYTES as u32
    }

    /// Where it begins in that page.
    pub fn start(&self) -> u32
        ensures { result ≡ start_of self.now }
    {
        self.offset % PAGE_BYTES as u32
    }

    /// Room for the bytes that a load takes from its page. A store wants no memory.
    pub(crate) fn room(&self, alloc: Global) -> Result<ByteRoom, NoMemory>
        ensures { IfOk result (λ room. loaded_size self.now.work ≤ room) }
    {
        match &self.work {
            Work::Load(count) => ByteRoom::new(alloc, *count as usize),
            Work::Store(_) => Ok(ByteRoom::none(alloc)),
        }
    }

    /// The bytes that a load takes from its page; None of a store.
    pub(crate) fn loaded(
        &self,
        alloc: Global,
        page: &[u8; PAGE_BYTES],
    ) -> Result<Option<ByteList>, NoMemory>
        requires { start_of self.now + size_of self.now.work ≤ PAGE_BYTES }
        ensures { IfOk result (λ loaded. loaded ≡ loaded_from page.now (start_of self.now) self.now.work) }
    {
        let room = self.room(alloc)?;
        match &self.work {
            Work::Load(count) => Ok(Some(copied(room, page, self.start(), *count))),
            Work::Store(_) => Ok(None),
        }
    }
}
