//! Walks to the directories of last names.
ghost use Rattle.std.specs.Prelude.{◌≡◌, Some, None, IfOk, OnOk, OnErr, IsSome};
ghost use Rattle.std.specs.Option.{option_copied};
ghost use Rattle.naming_tree.specs.Turns.{FitsStood, stood_after, stood_says};
ghost use Rattle.naming_tree.specs.Dialogues.{IsStep};

use crate::by_path::ByPath;
use crate::purpose::Purpose;
use crate::site::Site;
use crate::step::NameStep;
use dir_records::Route;
use dom_history::Reply;
use std::alloc::Global;
use std::marker::Model;
use uid_names::{NoMemory, Uid};

/// Walks along a path to the directory of its last name; a link at the end of that way is followed, the last name itself is
/// not looked up. It comes to the directory and the name.
///
/// It is seen as how far it has come; as None once it is over or found no memory, and is then not called again.
#[derive(Drop)]
pub struct ToParent {
    by_path: ByPath,
    over: bool,
}

impl Model for ToParent {
    ghost use Rattle.std.specs.Prelude.{Option};
    ghost use Rattle.naming_tree.specs.declared.by_path.ByPath.{ByPath};
    ghost use Rattle.naming_tree.specs.Turns.{unless, IfStill};
    ghost use Rattle.naming_tree.specs.ByPaths.{IsByPath};

    ghost Value = { Option ByPath };

    ghost view = { λ m. unless m.over m.by_path };

    ghost invariant = { λ m. IfStill m.over (IsByPath m.by_path) };
}

impl ToParent {
    ghost use Rattle.dir_records.specs.Paths.{route_of};
    ghost use Rattle.naming_tree.specs.ByPaths.{to_parent_of, by_path_after, by_path_asks};

    /// The walk along a path to the directory of its last name, from a working directory. A path without a last name comes
    /// to what it comes to for this purpose.
    pub fn new(
        alloc: Global,
        site: Site,
        path: &[u8],
        working: Uid,
        purpose: Purpose,
    ) -> Result<ToParent, NoMemory>
        requires path { IsSome (route_of path.now) }
        ensures { IfOk result (λ m. m ≡ to_parent_of site (route_of path.now) working purpose) }
    {
        let Some(route) = Route::read(alloc, path)? else {
            unreachable!()
        };
        Ok(ToParent {
            by_path: ByPath::reach(alloc, site, route, working, purpose),
            over: false,
        })
    }

    /// Tells it the reply to its operation; nothing at the first call.
    pub fn next(&mut self, alloc: Global, last: Option<&Reply>) -> Result<NameStep, NoMemory>
        requires still { IsSome self.old }
        requires fits { FitsStood by_path_asks self.old (option_copied last) }
        ensures after { OnOk result (self.new ≡ stood_after by_path_after self.old (option_copied last.entry)) }
        ensures step { IfOk result (λ step. Some step ≡ stood_says by_path_asks by_path_after self.old (option_copied last.entry)) }
        ensures range { IfOk result IsStep }
        ensures memory { OnErr result (self.new ≡ None) }
    {
        self.over = true;
        let step = self.by_path.step(alloc, last)?;
        if let NameStep::Do(_) = &step {
            self.over = false;
        }
        Ok(step)
    }
}
