//! What is made of the bytes that are loaded.
ghost use Rattle.std.specs.Prelude.{◌≡◌, ◌+◌, ◌≤◌, ◌<◌, ◌*◌, ◌^◌, length, OnOk};
ghost use Rattle.mapped_streams.specs.Gathering.{lines as lines_of, gathered_with, come_to, IsGathered};

use crate::step::StreamResult;
use std::alloc::Global;
use std::mem;
use uid_names::{ByteList, NoMemory};

/// All bytes, or how many lines end in them.
#[derive(Drop)]
pub enum Gathered {
    All(ByteList),
    Lines(u64),
}

/// How many bytes are looked at before their lines are added to all.
const FEW: usize = 128;

/// How many lines end in a few bytes. They are counted in a byte, so that many bytes are compared at once.
fn few_lines(bytes: &[u8]) -> u8
    requires { length bytes.now ≤ FEW }
    ensures { result ≡ lines_of bytes.now }
{
    let mut count = 0;
    for byte in bytes {
        count += u8::from(*byte == b'\n');
    }
    count
}

/// How many lines end in a text.
fn lines(bytes: &[u8]) -> u64
    ensures value { result ≡ lines_of bytes.now }
    ensures few { result ≤ length bytes.now }
{
    let mut count = 0;
    let mut rest = bytes;
    while rest.len() > FEW {
        let (front, back) = rest.split_at(FEW);
        count += u64::from(few_lines(front));
        rest = back;
    }
    count + u64::from(few_lines(rest))
}

impl Gathered {
    /// Takes in the bytes of a page, behind so many pages.
    pub fn add(&mut self, page: u32, bytes: &[u8]) -> Result<(), NoMemory>
        requires lines { IsGathered page self.old }
        requires few { length bytes.now ≤ 1024 }
        ensures value { OnOk result (self.new ≡ gathered_with self.old bytes.now) }
        ensures lines { OnOk result (IsGathered (page + 1) self.new) }
    {
        match self {
            Gathered::All(all) => all.extend(bytes),
            Gathered::Lines(count) => {
                *count += lines(bytes);
                Ok(())
            }
        }
    }

    /// What it comes to; the bytes are handed out.
    pub fn take(&mut self, alloc: Global) -> StreamResult
        ensures { result ≡ come_to self.old }
    {
        match self {
            Gathered::All(all) => StreamResult::Bytes(mem::replace(all, ByteList::new(alloc))),
            Gathered::Lines(count) => StreamResult::Count(*count),
        }
    }
}
