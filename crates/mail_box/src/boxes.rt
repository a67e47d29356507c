//! Mailboxes as their bytes: two numbers, and a ring of messages.
ghost use Rattle.std.specs.Prelude.{◌≡◌, ◌≢◌, ◌≤◌, ◌-◌, ◌^◌, length, IfOk};
ghost use Rattle.mail_box.specs.Boxes.{extent_of, first_head, head_bytes, head_of, is_bad_head, is_empty as is_empty_head, is_full as is_full_head, message_bytes, one_put, one_taken, place_of, text_in as text_in_bytes, IsText};

use std::alloc::Global;
use uid_names::{ByteList, NoMemory};

/// The bytes of the two numbers, at the beginning of a mailbox.
pub const NUMBER_BYTES: u32 = 16;

/// Where the first message stands.
pub const FIRST_MESSAGE: u32 = 1024;

/// The bytes of a message.
pub const MESSAGE_BYTES: u32 = 128;

/// How many messages have a place.
pub const MESSAGES: u64 = 56;

/// The most bytes of a text.
pub const TEXT_BYTES: usize = 120;

/// What the length of a mailbox says.
#[derive(Clone, Copy, Debug, PartialEq, Eq)]
pub enum Extent {
    /// Nothing was put into it yet.
    New,
    /// Its first message is not whole.
    Torn,
    /// Its numbers can be read.
    Whole,
}

/// How many texts were put into a mailbox, and how many were taken.
#[derive(Clone, Copy, Debug, PartialEq, Eq)]
pub struct Head {
    pub put: u64,
    pub taken: u64,
}

impl Head {
    /// That of a mailbox without a byte.
    pub fn first() -> Head
        ensures { result ≡ first_head }
    {
        Head { put: 0, taken: 0 }
    }

    /// That of these bytes. Takes no memory.
    pub fn read(bytes: &[u8]) -> Head
        requires { length bytes.now ≡ 16 }
        ensures { result ≡ head_of bytes.now }
    {
        let mut put = [0; 8];
        put.copy_from_slice(&bytes[..8]);
        let mut taken = [0; 8];
        taken.copy_from_slice(&bytes[8..16]);
        Head {
            put: u64::from_be_bytes(put),
            taken: u64::from_be_bytes(taken),
        }
    }

    /// Its bytes.
    pub fn bytes(&self, alloc: Global) -> Result<ByteList, NoMemory>
        ensures { IfOk result (λ bytes. bytes ≡ head_bytes self.now) }
    {
        let mut bytes = ByteList::from_slice(alloc, &self.put.to_be_bytes())?;
        bytes.extend(&self.taken.to_be_bytes())?;
        Ok(bytes)
    }

    /// Whether no mailbox has it.
    pub fn is_bad(&self) -> bool
        ensures { result ≡ is_bad_head self.now }
    {
        if self.put < self.taken {
            return true;
        }
        self.put == u64::MAX || self.put - self.taken > MESSAGES
    }

    /// Whether no more has a place.
    pub fn is_full(&self) -> bool
        requires { self.now.taken ≤ self.now.put }
        ensures { result ≡ is_full_head self.now }
    {
        self.put - self.taken == MESSAGES
    }

    /// Whether none is between.
    pub fn is_empty(&self) -> bool
        ensures { result ≡ is_empty_head self.now }
    {
        self.put == self.taken
    }

    /// It, behind one more that was put.
    pub fn with_put(&self) -> Head
        requires { self.now.put ≢ 2 ^ 64 - 1 }
        ensures { result ≡ one_put self.now }
    {
        Head {
            put: self.put + 1,
            taken: self.taken,
        }
    }

    /// It, behind one more that was taken.
    pub fn with_taken(&self) -> Head
        requires below { self.now.taken ≤ self.now.put }
        requires room { self.now.put ≢ 2 ^ 64 - 1 }
        ensures { result ≡ one_taken self.now }
    {
        Head {
            put: self.put,
            taken: self.taken + 1,
        }
    }
}

/// What this length of a mailbox says. Takes no memory.
pub fn extent_at(length: u32) -> Extent
    ensures { result ≡ extent_of length }
{
    if length == 0 {
        Extent::New
    } else if length < FIRST_MESSAGE + MESSAGE_BYTES {
        Extent::Torn
    } else {
        Extent::Whole
    }
}

/// Where a message stands, by its number from 0. Takes no memory.
pub fn place(number: u64) -> u32
    ensures { result ≡ place_of number }
{
    FIRST_MESSAGE + MESSAGE_BYTES * (number % MESSAGES) as u32
}

/// A message of this text.
#[tactic(auto, using(crate::proofs::Bytes::zeros_cut))]
pub fn message(alloc: Global, text: &[u8]) -> Result<ByteList, NoMemory>
    requires { IsText text.now }
    ensures { IfOk result (λ bytes. bytes ≡ message_bytes text.now) }
{
    let zeros = [0; 126];
    let mut bytes = ByteList::from_slice(alloc, &(text.len() as u16).to_be_bytes())?;
    bytes.extend(text)?;
    bytes.extend(&zeros[..126 - text.len()])?;
    Ok(bytes)
}

/// The text of a message; None where its length is none.
pub fn text_in(alloc: Global, bytes: &[u8]) -> Result<Option<ByteList>, NoMemory>
    requires { length bytes.now ≡ 128 }
    ensures { IfOk result (λ found. found ≡ text_in_bytes bytes.now) }
{
    let mut length = [0; 2];
    length.copy_from_slice(&bytes[..2]);
    let length = u16::from_be_bytes(length) as usize;
    if length == 0 || length > TEXT_BYTES {
        return Ok(None);
    }
    Ok(Some(ByteList::from_slice(alloc, &bytes[2..2 + length])?))
}
