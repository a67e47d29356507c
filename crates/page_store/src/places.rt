//! Where the pages of objects lie: a map from an object's counter to a map from a page's number to its place.
ghost use Rattle.std.specs.Prelude.{◌≡◌, OnOk, OnErr, IfSome};
ghost use Rattle.std.specs.FinMap.{empty, get, insert, retain_keys};
ghost use Rattle.page_store.specs.Volumes.{is_other};
ghost use Rattle.page_store.specs.Placed.{ArePlacesOf};

use crate::blocks::Place;
use std::alloc::Global;
use std::collections::HashMap;
use std::marker::Model;
use uid_names::NoMemory;

/// The places of an object's pages, by their numbers.
pub(crate) type ObjectPlaces = HashMap<u32, Place>;

/// The places of all pages.
#[derive(Drop)]
pub(crate) struct Places {
    objects: HashMap<u64, ObjectPlaces>,
}

impl Model for Places {
    ghost use Rattle.std.specs.HashMap as hash;
    ghost use Rattle.std.specs.Prelude.{nat_eq};
    ghost use Rattle.page_store.specs.Placed.{Placed, placed_code, placed_of};

    ghost Value = { Placed };

    ghost coded = { placed_code };

    ghost view = { λ p. placed_of p.objects.entries };

    ghost invariant = { λ p. hash.IsUnique nat_eq p.objects };
}

impl Places {
    /// No page has a place. Takes no memory.
    pub(crate) fn new(alloc: Global) -> Places
        ensures { result ≡ empty }
    {
        Places {
            objects: HashMap::new(alloc),
        }
    }

    /// The place of a page, if it has one. Takes no memory.
    pub(crate) fn of(&self, counter: u64, page: u32) -> Option<Place>
        ensures { result ≡ get self.now (counter, page) }
    {
        self.objects.get(&counter)?.get(&page).copied()
    }

    /// Sets the place of a page; without memory nothing changes.
    pub(crate) fn set(
        &mut self,
        alloc: Global,
        counter: u64,
        page: u32,
        place: Place,
    ) -> Result<(), NoMemory>
        ensures ok { OnOk result (self.new ≡ insert self.old (counter, page) place) }
        ensures err { OnErr result (self.new ≡ self.old) }
    {
        if let Some(pages) = self.objects.get_mut(&counter) {
            pages.insert(page, place)?;
            return Ok(());
        }
        let mut pages = HashMap::new(alloc);
        pages.insert(page, place)?;
        self.objects.insert(counter, pages)?;
        Ok(())
    }

    /// Forgets the places of an object's pages and hands them out. Takes no memory.
    pub(crate) fn forget(&mut self, counter: u64) -> Option<ObjectPlaces>
        ensures others { self.new ≡ retain_keys self.old (is_other counter) }
        ensures own { IfSome result (λ pages. ArePlacesOf self.old counter pages) }
    {
        self.objects.remove(&counter)
    }
}
