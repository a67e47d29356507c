//! Lists of bytes.
ghost use Rattle.std.specs.Prelude.{◌≡◌, ℕ, List, [], ◌∷◌, ◌++◌, ◌≤◌, length, IfOk, OnOk, OnErr};

use crate::no_memory::NoMemory;
use smallvec::SmallVec;
use std::alloc::Global;
use std::marker::Model;

/// How many bytes lie in a list itself.
const SHORT: usize = 16;

/// A list of bytes. A short one takes no memory.
#[derive(Debug)]
pub struct ByteList {
    items: SmallVec<u8, SHORT>,
}

// Of its own, so that what drops one calls this and does not take it apart in place.
impl Drop for ByteList {
    fn drop(self) {
        let ByteList { items: _ } = self;
    }
}

impl Model for ByteList {
    ghost use Rattle.std.specs.Prelude.{ℕ, List};

    ghost Value = { List ℕ };

    ghost view = { λ b. b.items.items };
}

impl ByteList {
    /// The empty list. Takes no memory.
    pub fn new(alloc: Global) -> ByteList
        ensures { result ≡ [] }
    {
        ByteList {
            items: SmallVec::new(alloc),
        }
    }

    /// The empty list, with room for so many bytes.
    pub fn with_capacity(alloc: Global, capacity: usize) -> Result<ByteList, NoMemory>
        ensures { IfOk result (λ list. list ≡ []) }
    {
        let items = SmallVec::with_capacity(alloc, capacity)?;
        Ok(ByteList { items })
    }

    /// These bytes.
    pub fn from_slice(alloc: Global, bytes: &[u8]) -> Result<ByteList, NoMemory>
        ensures { IfOk result (λ list. list ≡ bytes.now) }
    {
        let items = SmallVec::from_slice(alloc, bytes)?;
        Ok(ByteList { items })
    }

    /// Puts a byte last; without memory the list stays as it was.
    pub fn push(&mut self, byte: u8) -> Result<(), NoMemory>
        ensures ok { OnOk result (self.new ≡ self.old ++ byte ∷ []) }
        ensures err { OnErr result (self.new ≡ self.old) }
    {
        self.items.push(byte)?;
        Ok(())
    }

    /// A copy.
    pub fn copy(&self, alloc: Global) -> Result<ByteList, NoMemory>
        ensures { IfOk result (λ copy. copy ≡ self.now) }
    {
        let items = SmallVec::from_slice(alloc, self.items.as_slice())?;
        Ok(ByteList { items })
    }

    /// Puts bytes last; without memory the list stays as it was.
    pub fn extend(&mut self, bytes: &[u8]) -> Result<(), NoMemory>
        ensures ok { OnOk result (self.new ≡ self.old ++ bytes.now) }
        ensures err { OnErr result (self.new ≡ self.old) }
    {
        self.items.extend_from_slice(bytes)?;
        Ok(())
    }

    /// The bytes.
    pub fn bytes(&self) -> &[u8]
        ensures { result.now ≡ self.now }
    {
        self.items.as_slice()
    }
}

/// Room for bytes that may still come. A little takes no memory.
#[derive(Debug)]
pub struct ByteRoom {
    items: SmallVec<u8, SHORT>,
}

// Of its own, so that what drops one calls this and does not take it apart in place.
impl Drop for ByteRoom {
    fn drop(self) {
        let ByteRoom { items: _ } = self;
    }
}

impl Model for ByteRoom {
    ghost use Rattle.std.specs.Prelude.{◌≡◌, ℕ, []};

    ghost Value = { ℕ };

    ghost view = { λ r. r.items.capacity };

    ghost invariant = { λ r. r.items.items ≡ [] };
}

impl ByteRoom {
    /// Room for no byte that takes memory.
    pub fn none(alloc: Global) -> ByteRoom {
        ByteRoom {
            items: SmallVec::new(alloc),
        }
    }

    /// Room for so many bytes.
    pub fn new(alloc: Global, count: usize) -> Result<ByteRoom, NoMemory>
        ensures { IfOk result (λ room. count ≤ room) }
    {
        let items = SmallVec::with_capacity(alloc, count)?;
        Ok(ByteRoom { items })
    }

    /// The list of these bytes, for which there is room. Takes no memory.
    pub fn fill(self, bytes: &[u8]) -> ByteList
        requires { length bytes.now ≤ self }
        ensures { result ≡ bytes.now }
    {
        let ByteRoom { mut items } = self;
        match items.extend_from_slice(bytes) {
            Ok(()) => ByteList { items },
            // There is room for them.
            Err(_) => unreachable!(),
        }
    }
}
