//! The sources of copies. No function takes memory.
ghost use Rattle.std.specs.Prelude.{◌≡◌, ◌<◌, ◌≤◌, ◌%◌, ◌*◌, None, Some};
ghost use Rattle.uid_names.specs.Names.{IsName};
ghost use Rattle.uid_names.specs.Rooms.{IsLength, IsRoom};
ghost use Rattle.uid_names.specs.declared.segment.TheConstants.{SEGMENT_SIZE, SEGMENTS};
ghost use Rattle.dom_history.specs.Ranges.{IsOp};
ghost use Rattle.mapped_streams.specs.States.{streaming_of};
ghost use Rattle.mapped_streams.specs.declared.work.Work.TheVariants.{Copy as CopyWork};
ghost use Rattle.command_talks.specs.Files.{room_for};
ghost use Rattle.command_talks.specs.Sources.{source_of, measured as measured_so, mapped as mapped_so, unmapped as unmapped_so, close_op as closing_op};

use dom_history::Op;
use mapped_streams::Stream;
use std::marker::Model;
use uid_names::{PAGE_BYTES, Uid};

/// The source of a copy: its object, its length once that is known, and where it is mapped once it is. `fresh` where
/// this copy mapped it.
#[derive(Drop)]
pub struct Source {
    uid: Uid,
    address: u32,
    length: u32,
    fresh: bool,
}

impl Model for Source {
    ghost use Rattle.mapped_streams.specs.Pages.{IsMapped};
    ghost use Rattle.command_talks.specs.Sources.{Sourced, mapped_at};

    ghost Value = { Sourced };

    ghost view = { λ s. record { uid = s.uid; at = mapped_at s.address s.length; fresh = s.fresh } };

    ghost invariant = { λ s. IsMapped (mapped_at s.address s.length) };
}

impl Source {
    /// One of which nothing is known.
    pub fn new(uid: Uid) -> Source
        ensures { result ≡ source_of uid }
    {
        Source {
            uid,
            address: 0,
            length: 0,
            fresh: false,
        }
    }

    /// Its object.
    pub fn uid(&self) -> Uid
        ensures value { result ≡ self.now.uid }
        ensures range { IsName result }
    {
        let _number = self.uid.number();
        self.uid
    }

    /// A copy of it.
    pub fn again(&self) -> Source
        ensures { result ≡ self.now }
    {
        Source {
            uid: self.uid,
            address: self.address,
            length: self.length,
            fresh: self.fresh,
        }
    }

    /// Its length is known.
    pub fn measured(self, length: u32) -> Source
        requires { IsLength length }
        ensures { result ≡ measured_so self length }
    {
        Source {
            uid: self.uid,
            address: 0,
            length,
            fresh: false,
        }
    }

    /// It is mapped at this address.
    pub fn mapped(self, address: u32, fresh: bool) -> Source
        requires at { address % SEGMENT_SIZE ≡ 0 }
        requires below { address < SEGMENTS * SEGMENT_SIZE }
        ensures { result ≡ mapped_so self address fresh }
    {
        Source {
            uid: self.uid,
            address,
            length: self.length,
            fresh,
        }
    }

    /// Its mapping was undone.
    pub fn unmapped(self) -> Source
        ensures { result ≡ unmapped_so self }
    {
        Source {
            uid: self.uid,
            address: self.address,
            length: self.length,
            fresh: false,
        }
    }

    /// Whether its mapping is to be undone.
    pub fn is_fresh(&self) -> bool
        ensures { result ≡ self.now.fresh }
    {
        self.fresh
    }

    /// The room of its copy: a page at least.
    pub fn room(&self) -> u32
        ensures value { result ≡ room_for self.now.at.length }
        ensures range { IsRoom result }
    {
        self.length.div_ceil(PAGE_BYTES as u32).max(1)
    }

    /// The stream that puts its bytes into another object.
    pub fn copy_to(&self, to: Uid) -> Stream
        ensures { result ≡ Some (streaming_of to (CopyWork self.now.at 0 None)) }
    {
        Stream::copy(self.address, self.length, to)
    }

    /// The first operation that closes it.
    pub fn close_op(&self) -> Op
        ensures value { result ≡ closing_op self.now }
        ensures range { IsOp result }
    {
        let uid = self.uid();
        if self.fresh {
            Op::Unmap { uid }
        } else {
            Op::Unlock { uid }
        }
    }
}
