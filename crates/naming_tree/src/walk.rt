//! Walks along paths.
ghost use Rattle.std.specs.Prelude.{◌≡◌, Some, None, IfOk, OnOk, OnErr, IsSome};
ghost use Rattle.std.specs.Option.{option_copied};
ghost use Rattle.naming_tree.specs.Turns.{FitsStood, stood_after, stood_says};
ghost use Rattle.naming_tree.specs.Dialogues.{IsStep};

use crate::site::Site;
use crate::step::NameStep;
use crate::walking::Walking;
use dir_records::Route;
use dom_history::Reply;
use std::alloc::Global;
use std::marker::Model;
use uid_names::{NoMemory, Uid};

/// A walk along a path. It comes to what the path leads to.
///
/// It is seen as how far it has come; as None once it is over or found no memory, and is then not called again.
#[derive(Drop)]
pub struct Walk {
    walking: Walking,
    over: bool,
}

impl Model for Walk {
    ghost use Rattle.std.specs.Prelude.{Option};
    ghost use Rattle.naming_tree.specs.declared.walking.Walking.{Walking};
    ghost use Rattle.naming_tree.specs.Turns.{unless, IfStill};
    ghost use Rattle.naming_tree.specs.Walking.{IsWalking};

    ghost Value = { Option Walking };

    ghost view = { λ w. unless w.over w.walking };

    ghost invariant = { λ w. IfStill w.over (IsWalking w.walking) };
}

impl Walk {
    ghost use Rattle.dir_records.specs.Paths.{route_of};
    ghost use Rattle.naming_tree.specs.Walking.{walk_of, walking_asks, walking_after};

    /// A walk along a path from a working directory. `last` tells whether a link at the end is followed.
    pub fn new(
        alloc: Global,
        site: Site,
        path: &[u8],
        working: Uid,
        last: bool,
    ) -> Result<Walk, NoMemory>
        requires { IsSome (route_of path.now) }
        ensures { IfOk result (λ walk. walk ≡ walk_of site last (route_of path.now) working) }
    {
        let Some(route) = Route::read(alloc, path)? else {
            unreachable!()
        };
        Ok(Walk {
            walking: Walking::new(alloc, site, last, route, working),
            over: false,
        })
    }

    /// Tells it the reply to its operation; nothing at the first call.
    pub fn next(&mut self, alloc: Global, last: Option<&Reply>) -> Result<NameStep, NoMemory>
        requires still { IsSome self.old }
        requires fits { FitsStood walking_asks self.old (option_copied last) }
        ensures after { OnOk result (self.new ≡ stood_after walking_after self.old (option_copied last.entry)) }
        ensures step { IfOk result (λ step. Some step ≡ stood_says walking_asks walking_after self.old (option_copied last.entry)) }
        ensures range { IfOk result IsStep }
        ensures memory { OnErr result (self.new ≡ None) }
    {
        self.over = true;
        match self.walking.turn(alloc, last)? {
            Some(result) => Ok(NameStep::Over(result)),
            None => {
                let op = self.walking.op();
                self.over = false;
                Ok(NameStep::Do(op))
            }
        }
    }
}
