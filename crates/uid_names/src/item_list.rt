//! Lists that are seen as what they hold.
ghost use Rattle.std.specs.Prelude.{◌≡◌, List, [], ◌∷◌, ◌++◌, length, IfOk, OnOk, OnErr};

use crate::no_memory::NoMemory;
use std::alloc::Global;
use std::marker::Model;

/// A list of items.
#[derive(Drop, Debug)]
pub struct ItemList<T> {
    items: Vec<T>,
}

impl<T> Model for ItemList<T> {
    ghost use Rattle.std.specs.Prelude.{List};

    ghost Value = { List T };

    ghost view = { λ l. l.items.items };
}

impl<T> ItemList<T> {
    /// The empty list. Takes no memory.
    pub fn new(alloc: Global) -> ItemList<T>
        ensures { result ≡ [] }
    {
        ItemList {
            items: Vec::new(alloc),
        }
    }

    /// The list of a vector's items. Takes no memory.
    pub fn from_vec(items: Vec<T>) -> ItemList<T>
        ensures { result ≡ items.items }
    {
        ItemList { items }
    }

    /// The items. Takes no memory.
    pub fn items(&self) -> &[T]
        ensures { result.now ≡ self.now }
    {
        self.items.as_slice()
    }
}

impl<T: Drop> ItemList<T> {
    /// Puts an item last; without memory the list stays as it was.
    pub fn push(&mut self, item: T) -> Result<(), NoMemory>
        ensures ok { OnOk result (self.new ≡ self.old ++ item ∷ []) }
        ensures err { OnErr result (self.new ≡ self.old) }
    {
        self.items.push(item)?;
        Ok(())
    }
}

impl<T: Copy> ItemList<T> {
    /// A copy.
    pub fn copy(&self, alloc: Global) -> Result<ItemList<T>, NoMemory>
        ensures { IfOk result (λ copy. copy ≡ self.now) }
    {
        let items = Vec::from_slice(alloc, self.items.as_slice())?;
        Ok(ItemList { items })
    }
}
