//! Pages in blocks, found by the names of their objects and their numbers.
ghost use Rattle.std.specs.Prelude.{◌≡◌, ◌↔◌, ◌≢◌, ℕ, nat_eq, Some, IsTrue, IsOk, OnOk, OnErr};
ghost use Rattle.std.specs.HashMap.{get};
ghost use Rattle.page_store.specs.Volumes.{no_pages, IsKept, with_page};
ghost use Rattle.page_store.specs.declared.blocks.Place.{Place as AnyPlace};
ghost use Rattle.page_store.specs.Stored.{stored_in};

use crate::blocks::Blocks;
use crate::pages::Pages;
use crate::places::{ObjectPlaces, Places};
use std::alloc::Global;
use std::marker::Model;
use uid_names::{NoMemory, PAGE_BYTES};

/// Pages in blocks of 32, each with a list of its free places. A page is found by a map from its object's counter to
/// a map from its number to its place.
pub struct BlockPages {
    alloc: Global,
    places: Places,
    blocks: Blocks,
}

// Of its own, so that what drops one calls this and does not take it apart in place.
impl Drop for BlockPages {
    fn drop(self) {
        let BlockPages {
            alloc: _,
            places: _,
            blocks: _,
        } = self;
    }
}

impl Model for BlockPages {
    ghost use Rattle.page_store.specs.Volumes.{Volume, volume_code};

    ghost Value = { Volume };

    ghost coded = { volume_code };

    ghost use Rattle.page_store.specs.Housed.{volume_of, IsHoused};

    ghost view = { λ s. volume_of s.places s.blocks.blocks.items };

    ghost invariant = { λ s. IsHoused s.places s.blocks.blocks.items };
}

// Makes these places free.
fn free_all(blocks: &mut Blocks, pages: &ObjectPlaces)
    ensures { (place : AnyPlace) → ((page : ℕ) → get nat_eq pages.now page ≢ Some place)
        → stored_in blocks.new.blocks.items place ≡ stored_in blocks.old.blocks.items place }
{
    for (_, place) in pages.iter() {
        blocks.free(*place);
    }
}

impl BlockPages {
    /// No page was put. Takes no memory.
    pub fn new(alloc: Global) -> BlockPages
        ensures { result ≡ no_pages }
    {
        BlockPages {
            alloc,
            places: Places::new(alloc),
            blocks: Blocks::new(alloc),
        }
    }

    /// Whether the page was put since its object was last dropped. Takes no memory.
    pub fn kept(&self, counter: u64, page: u32) -> bool
        ensures { IsTrue result ↔ IsKept self.now counter page }
    {
        self.places.of(counter, page).is_some()
    }
}

impl Pages for BlockPages {
    ghost volume = { λ pages. pages };

    fn find(&self, counter: u64, page: u32) -> Option<&[u8; PAGE_BYTES]> {
        match self.places.of(counter, page) {
            Some(place) => Some(self.blocks.page(place)),
            None => None,
        }
    }

    #[tactic(auto, unfolding(crate::specs::Volumes::zeros))]
    fn get(&self, counter: u64, page: u32, into: &mut [u8; PAGE_BYTES]) {
        match self.find(counter, page) {
            Some(bytes) => into.copy_from_slice(bytes),
            None => *into = [0; PAGE_BYTES],
        }
    }

    /// Puts a page in the place of what was there; without memory nothing changes. A page that is kept takes no memory.
    fn put(&mut self, counter: u64, page: u32, bytes: &[u8; PAGE_BYTES]) -> Result<(), NoMemory>
        ensures ok { OnOk result (self.new ≡ with_page self.old counter page bytes.now) }
        ensures err { OnErr result (self.new ≡ self.old) }
        ensures kept { IsKept self.old counter page → IsOk result }
    {
        if let Some(place) = self.places.of(counter, page) {
            self.blocks.write(place, bytes);
            return Ok(());
        }
        let place = self.blocks.store(self.alloc, bytes)?;
        match self.places.set(self.alloc, counter, page, place) {
            Ok(()) => Ok(()),
            Err(error) => {
                self.blocks.free(place);
                Err(error)
            }
        }
    }

    fn drop_object(&mut self, counter: u64) {
        if let Some(pages) = self.places.forget(counter) {
            free_all(&mut self.blocks, &pages);
        }
    }
}
