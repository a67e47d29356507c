//! How far lists of directories have come.
ghost use Rattle.std.specs.Prelude.{◌≡◌, Some, IfOk, IfNone};
ghost use Rattle.std.specs.Option.{option_copied};
ghost use Rattle.dom_history.specs.Ranges.{IsOp};
ghost use Rattle.naming_tree.specs.Turns.{turn_of, FitsAsked};
ghost use Rattle.naming_tree.specs.ListsAt.{listing_of, listing_asks, listing_after, IsListing, IsOn};

use crate::reading::Reading;
use crate::step::NameResult;
use crate::task::listed;
use dom_history::{Op, Reply};
use std::alloc::Global;
use uid_names::{NoMemory, Uid};

/// How far the list of a directory has come. `begun` once its reading was asked for.
#[derive(Drop)]
pub struct Listing {
    pub begun: bool,
    pub reading: Reading,
}

impl Listing {
    /// The list of a directory, before it begins. Takes no memory.
    pub fn new(alloc: Global, dir: Uid) -> Listing
        ensures value { result ≡ listing_of dir }
        ensures range { IsListing result }
    {
        Listing {
            begun: false,
            reading: Reading::new(alloc, dir),
        }
    }

    /// Takes in the reply to its operation.
    #[tactic(auto, using(crate::proofs::ListsAt::begun_fits, crate::proofs::ListsAt::has_begun))]
    fn hear(&mut self, alloc: Global, reply: &Reply) -> Result<Option<NameResult>, NoMemory>
        requires range { IsListing self.old }
        requires fits { FitsAsked (listing_asks self.old) (Some reply.now) }
        ensures turn { IfOk result (λ r. turn_of r self.new ≡ listing_after self.old (Some reply.now)) }
        ensures on { IfOk result (λ r. IfNone r (IsOn self.new)) }
    {
        self.reading.hear(alloc, reply)?;
        if !self.reading.is_done() {
            return Ok(None);
        }
        match self.reading.closing.refused.take() {
            Some(reply) => Ok(Some(NameResult::Store(reply))),
            None => Ok(Some(listed(alloc, self.reading.bytes.bytes())?)),
        }
    }

    /// Takes in the reply to its operation; at first it is told nothing.
    pub fn turn(
        &mut self,
        alloc: Global,
        last: Option<&Reply>,
    ) -> Result<Option<NameResult>, NoMemory>
        requires range { IsListing self.old }
        requires fits { FitsAsked (listing_asks self.old) (option_copied last) }
        ensures turn { IfOk result (λ r. turn_of r self.new ≡ listing_after self.old (option_copied last.entry)) }
        ensures on { IfOk result (λ r. IfNone r (IsOn self.new)) }
    {
        match last {
            Some(reply) => self.hear(alloc, reply),
            None => {
                self.begun = true;
                Ok(None)
            }
        }
    }

    /// Its operation.
    pub fn op(&self) -> Op
        requires { IsOn self.now }
        ensures value { listing_asks self.now ≡ Some result }
        ensures range { IsOp result }
    {
        self.reading.op()
    }
}
