//! Pages in blocks. Each page has a place of its own, and a place that is free is taken again.
ghost use Rattle.std.specs.Prelude.{◌≡◌, ◌+◌, ◌<◌, length, IsSome, None, Some, IfOk, IfSome, OnErr, slice_index_or};
ghost use Rattle.slab.specs.Slab.{HasRoomFor};
ghost use Rattle.page_store.specs.Stored.{no_block, stored_in, Stores, AsStored};

use slab::Slab;
use std::alloc::Global;
use uid_names::{NoMemory, PAGE_BYTES};

/// How many pages a block holds.
const BLOCK_PAGES: usize = 32;

/// Where a page lies: the number of its block, and its key there.
#[derive(Clone, Copy)]
pub(crate) struct Place {
    pub(crate) block: usize,
    pub(crate) key: usize,
}

/// The blocks, each of which keeps a list of its free places.
#[derive(Drop)]
pub(crate) struct Blocks {
    pub(crate) blocks: Vec<Slab<[u8; PAGE_BYTES]>>,
    // No block before this one has a free place.
    first_open: usize,
}

impl Blocks {
    /// No block. Takes no memory.
    pub(crate) fn new(alloc: Global) -> Blocks {
        Blocks {
            blocks: Vec::new(alloc),
            first_open: 0,
        }
    }

    // The first block with a free place, if there is one.
    fn open_block(&self) -> Option<usize>
        ensures within { IfSome result (λ at. at < length self.now.blocks.items) }
        ensures room { IfSome result (λ at. HasRoomFor (slice_index_or self.now.blocks.items at no_block) 1) }
    {
        for at in self.first_open..self.blocks.len() {
            if self.blocks[at].len() < self.blocks[at].capacity() {
                return Some(at);
            }
        }
        None
    }

    // Adds a block, all of whose places are free, and answers its number.
    fn add_block(&mut self, alloc: Global) -> Result<usize, NoMemory>
        ensures within { IfOk result (λ at. at < length self.new.blocks.items) }
        ensures room { IfOk result (λ at. HasRoomFor (slice_index_or self.new.blocks.items at no_block) 1) }
        ensures stored { AsStored self.old.blocks.items self.new.blocks.items }
    {
        let at = self.blocks.len();
        let block = Slab::with_capacity(alloc, BLOCK_PAGES)?;
        self.blocks.push(block)?;
        self.first_open = at;
        Ok(at)
    }

    // The number of a block with a free place; all pages stay as they were.
    fn block_with_room(&mut self, alloc: Global) -> Result<usize, NoMemory>
        ensures within { IfOk result (λ at. at < length self.new.blocks.items) }
        ensures room { IfOk result (λ at. HasRoomFor (slice_index_or self.new.blocks.items at no_block) 1) }
        ensures stored { AsStored self.old.blocks.items self.new.blocks.items }
    {
        match self.open_block() {
            Some(at) => {
                self.first_open = at;
                Ok(at)
            }
            None => self.add_block(alloc),
        }
    }

    /// Stores a page in a place that was free; without memory all pages stay as they were.
    pub(crate) fn store(
        &mut self,
        alloc: Global,
        bytes: &[u8; PAGE_BYTES],
    ) -> Result<Place, NoMemory>
        ensures free { IfOk result (λ place. stored_in self.old.blocks.items place ≡ None) }
        ensures stored { IfOk result (λ place. Stores self.old.blocks.items self.new.blocks.items place (Some bytes.now)) }
        ensures err { OnErr result (AsStored self.old.blocks.items self.new.blocks.items) }
    {
        let block = self.block_with_room(alloc)?;
        let key = self.blocks[block].insert_reserved(*bytes);
        Ok(Place { block, key })
    }

    /// The page in a place. Takes no memory.
    pub(crate) fn page(&self, place: Place) -> &[u8; PAGE_BYTES]
        requires { IsSome (stored_in self.now.blocks.items place) }
        ensures { stored_in self.now.blocks.items place ≡ Some result.now }
    {
        &self.blocks[place.block][place.key]
    }

    /// Writes over the page in a place. Takes no memory.
    pub(crate) fn write(&mut self, place: Place, bytes: &[u8; PAGE_BYTES])
        requires { IsSome (stored_in self.old.blocks.items place) }
        ensures { Stores self.old.blocks.items self.new.blocks.items place (Some bytes.now) }
    {
        // An assignment would copy the page twice.
        self.blocks[place.block][place.key].copy_from_slice(bytes);
    }

    /// Makes a place free. Takes no memory.
    pub(crate) fn free(&mut self, place: Place)
        ensures { Stores self.old.blocks.items self.new.blocks.items place None }
    {
        if place.block < self.blocks.len() {
            self.blocks[place.block].try_remove(place.key);
        }
        self.first_open = self.first_open.min(place.block);
    }
}
