//! The lengths of the objects of the plain store.
ghost use Rattle.std.specs.Prelude.{◌≡◌, List, [], if◌then◌else◌, max, OnOk};
ghost use Rattle.uid_names.specs.Names.{ObjectName, same_uid};
ghost use Rattle.uid_names.specs.Openings.{Start};
ghost use Rattle.dom_history.specs.StoreEffects.{StoreEffect};
ghost use Rattle.dom_history.specs.Bytes.{length_of};

use std::alloc::Global;
use std::collections::HashMap;
use uid_names::{NoMemory, Uid};

/// The greatest end of the stores to each object, in bytes. An object that is missing has the length 0.
#[derive(Drop, Debug)]
pub struct Lengths {
    ends: HashMap<Uid, u64>,
}

impl Lengths {
    ghost use Rattle.plain_store.specs.KeptLengths.{length_in, HoldLengths, HasLengthRoom};

    /// Nothing was stored. Takes no memory.
    pub fn new(alloc: Global) -> Lengths
        ensures { (opening : Start) → HoldLengths result opening [] }
    {
        Lengths {
            ends: HashMap::new(alloc),
        }
    }

    /// The length of an object.
    pub fn of(&self, uid: Uid) -> u64
        ensures value { result ≡ length_in self.now uid }
        ensures held { (opening : Start) → (past : List StoreEffect) → HoldLengths self.now opening past → result ≡ length_of opening past uid }
    {
        self.ends.get(&uid).copied().unwrap_or(0)
    }

    /// Makes room for one change.
    pub fn reserve(&mut self) -> Result<(), NoMemory>
        ensures room { OnOk result (HasLengthRoom self.new) }
        ensures held { (opening : Start) → (past : List StoreEffect) → HoldLengths self.old opening past → HoldLengths self.new opening past }
    {
        self.ends.reserve(1)?;
        Ok(())
    }

    /// Takes in a store that ends there, for which there is room.
    pub fn extend(&mut self, uid: Uid, end: u64)
        requires { HasLengthRoom self.old }
        ensures { (v : ObjectName) → length_in self.new v ≡ (if same_uid uid v then max (length_in self.old v) end else length_in self.old v) }
    {
        let length = self.of(uid).max(end);
        if self.ends.insert(uid, length).is_err() {
            unreachable!();
        }
    }
}
