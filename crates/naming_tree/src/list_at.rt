//! Directories that are listed by their objects.
ghost use Rattle.std.specs.Prelude.{◌≡◌, Some, None, IfOk, OnOk, OnErr, IsSome};
ghost use Rattle.std.specs.Option.{option_copied};
ghost use Rattle.naming_tree.specs.Turns.{FitsStood, stood_after, stood_says};
ghost use Rattle.naming_tree.specs.Dialogues.{IsStep};

use crate::listing::Listing;
use crate::step::NameStep;
use dom_history::Reply;
use std::alloc::Global;
use std::marker::Model;
use uid_names::{NoMemory, Uid};

/// Lists a directory by its object. It comes to the rows by their names.
///
/// It is seen as how far it has come; as None once it is over or found no memory, and is then not called again.
#[derive(Drop)]
pub struct ListAt {
    listing: Listing,
    over: bool,
}

impl Model for ListAt {
    ghost use Rattle.std.specs.Prelude.{Option};
    ghost use Rattle.naming_tree.specs.declared.listing.Listing.{Listing};
    ghost use Rattle.naming_tree.specs.Turns.{unless, IfStill};
    ghost use Rattle.naming_tree.specs.ListsAt.{IsListing};

    ghost Value = { Option Listing };

    ghost view = { λ m. unless m.over m.listing };

    ghost invariant = { λ m. IfStill m.over (IsListing m.listing) };
}

impl ListAt {
    ghost use Rattle.naming_tree.specs.ListsAt.{listing_of, listing_asks, listing_after};

    /// The list of a directory. Takes no memory.
    pub fn new(alloc: Global, dir: Uid) -> ListAt
        ensures { result ≡ Some (listing_of dir) }
    {
        ListAt {
            listing: Listing::new(alloc, dir),
            over: false,
        }
    }

    /// Tells it the reply to its operation; nothing at the first call.
    pub fn next(&mut self, alloc: Global, last: Option<&Reply>) -> Result<NameStep, NoMemory>
        requires still { IsSome self.old }
        requires fits { FitsStood listing_asks self.old (option_copied last) }
        ensures after { OnOk result (self.new ≡ stood_after listing_after self.old (option_copied last.entry)) }
        ensures step { IfOk result (λ step. Some step ≡ stood_says listing_asks listing_after self.old (option_copied last.entry)) }
        ensures range { IfOk result IsStep }
        ensures memory { OnErr result (self.new ≡ None) }
    {
        self.over = true;
        match self.listing.turn(alloc, last)? {
            Some(result) => Ok(NameStep::Over(result)),
            None => {
                let op = self.listing.op();
                self.over = false;
                Ok(NameStep::Do(op))
            }
        }
    }
}
