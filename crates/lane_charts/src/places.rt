//! Places in a list, by keys.
ghost use Rattle.std.specs.Prelude.{◌≡◌, ◌<◌, [], Some, length, replicate, slice_get, IfSome, IfOk, OnOk};
ghost use Rattle.lane_charts.specs.Places.{with_place};

use std::alloc::Global;
use std::marker::Model;
use uid_names::{ItemList, NoMemory};

/// The places that were put for each of some keys, in order, so that who wants those of a key need not look through the whole list.
#[derive(Drop, Debug)]
pub struct KeyedPlaces {
    lists: Vec<ItemList<usize>>,
}

impl Model for KeyedPlaces {
    ghost use Rattle.std.specs.Prelude.{ℕ, List};

    ghost Value = { List (List ℕ) };

    ghost view = { λ p. p.lists.items };
}

impl KeyedPlaces {
    /// No place yet, for keys below this number.
    pub fn new(alloc: Global, keys: usize) -> Result<KeyedPlaces, NoMemory>
        ensures { IfOk result (λ places. places ≡ replicate keys []) }
    {
        let mut lists = Vec::with_capacity(alloc, keys)?;
        for _key in 0..keys {
            lists.push(ItemList::new(alloc))?;
        }
        Ok(KeyedPlaces { lists })
    }

    /// Puts a place last among those of its key, if it has one. Without memory nothing is said of the places any more.
    pub fn put(&mut self, key: Option<usize>, place: usize) -> Result<(), NoMemory>
        requires { IfSome key (λ key. key < length self.old) }
        ensures { OnOk result (self.new ≡ with_place key place self.old) }
    {
        match key {
            None => Ok(()),
            Some(key) => self.lists[key].push(place),
        }
    }

    /// The places of a key.
    pub fn of(&self, key: usize) -> &[usize]
        requires { key < length self.now }
        ensures { slice_get self.now key ≡ Some result.now }
    {
        self.lists[key].items()
    }
}
