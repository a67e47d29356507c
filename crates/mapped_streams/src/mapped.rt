//! Objects that are mapped. No function takes memory.
ghost use Rattle.std.specs.Prelude.{◌≡◌, ◌<◌, ◌≤◌, length};
ghost use Rattle.uid_names.specs.declared.limits.TheConstants.{MAX_ROOM};
ghost use Rattle.dom_history.specs.Ranges.{IsOp};
ghost use Rattle.naming_tree.specs.Entering.{pages as pages_of};
ghost use Rattle.mapped_streams.specs.Pages.{IsMapped, bytes_in, page_load, page_store, end_of, room_at as room_from};

use dom_history::{Op, Spot};
use uid_names::{ByteList, PAGE_BYTES};

/// An object as it is mapped: where, and how many bytes it has.
#[derive(Clone, Copy)]
pub struct Mapped {
    pub address: u32,
    pub length: u32,
}

/// An object that is open. `fresh` where this opening mapped it.
#[derive(Clone, Copy)]
pub struct Opened {
    pub at: Mapped,
    pub fresh: bool,
}

impl Mapped {
    /// How many pages it has.
    pub fn pages(&self) -> u32
        ensures { result ≡ pages_of self.now.length }
    {
        self.length.div_ceil(PAGE_BYTES as u32)
    }

    /// The load of a page, as far as the object is long.
    pub fn load(&self, page: u32) -> Op
        requires mapped { IsMapped self.now }
        requires page { page < pages_of self.now.length }
        ensures value { result ≡ page_load self.now page }
        ensures range { IsOp result }
    {
        let bytes = PAGE_BYTES as u32;
        Op::Load {
            spot: Spot::Addr(self.address + page * bytes),
            count: bytes.min(self.length - page * bytes),
        }
    }

    /// The store of a page.
    pub fn store(&self, page: u32, bytes: ByteList) -> Op
        requires mapped { IsMapped self.now }
        requires page { page < MAX_ROOM }
        requires some { 1 ≤ length bytes }
        requires few { length bytes ≤ 1024 }
        ensures value { result ≡ page_store self.now page bytes }
        ensures range { IsOp result }
    {
        Op::Store {
            spot: Spot::Addr(self.address + page * PAGE_BYTES as u32),
            bytes,
        }
    }

    /// Where its bytes end.
    pub fn end(&self) -> u32
        requires { IsMapped self.now }
        ensures { result ≡ end_of self.now }
    {
        self.address + self.length
    }
}

/// How many bytes there are up to the next page border.
pub fn room_at(place: u32) -> usize
    ensures { result ≡ room_from place }
{
    PAGE_BYTES - place as usize % PAGE_BYTES
}
