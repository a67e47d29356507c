//! A walk to the directory of a path's last name that lies apart.
ghost use Rattle.std.specs.Prelude.{◌≡◌, Some, None, IfOk, OnOk, OnErr, IsSome};
ghost use Rattle.std.specs.Option.{option_copied};
ghost use Rattle.naming_tree.specs.Dialogues.{IsStep};
ghost use Rattle.naming_tree.specs.Turns.{FitsStood, stood_after, stood_says};

use dom_history::Reply;
use naming_tree::{NameStep, Purpose, Site, ToParent};
use std::alloc::{AllocError, Global};
use std::marker::Model;
use uid_names::{NoMemory, Uid};

/// A walk to the directory of a path's last name. It is the largest that a command drives, and lies apart, so that what holds a
/// command is moved cheaply.
#[derive(Drop)]
pub struct Reach {
    walk: Box<ToParent>,
}

impl Model for Reach {
    ghost use Rattle.std.specs.Prelude.{Option};
    ghost use Rattle.naming_tree.specs.declared.by_path.ByPath.{ByPath};

    ghost Value = { Option ByPath };

    ghost view = { λ r. r.walk.value };
}

impl Reach {
    ghost use Rattle.naming_tree.specs.ByPaths.{by_path_after, by_path_asks, to_parent_of};
    ghost use Rattle.dir_records.specs.Paths.{route_of};

    /// The walk along a path to the directory of its last name, from a working directory.
    pub fn new(
        alloc: Global,
        site: Site,
        path: &[u8],
        working: Uid,
        purpose: Purpose,
    ) -> Result<Reach, NoMemory>
        requires { IsSome (route_of path.now) }
        ensures { IfOk result (λ reach. reach ≡ to_parent_of site (route_of path.now) working purpose) }
    {
        let walk = ToParent::new(alloc, site, path, working, purpose)?;
        let walk = Box::new(alloc, walk).map_err(AllocError::from)?;
        Ok(Reach { walk })
    }

    /// Tells it the reply to its operation; nothing at the first call.
    pub fn next(&mut self, alloc: Global, last: Option<&Reply>) -> Result<NameStep, NoMemory>
        requires still { IsSome self.old }
        requires fits { FitsStood by_path_asks self.old (option_copied last) }
        ensures after { OnOk result (self.new ≡ stood_after by_path_after self.old (option_copied last.entry)) }
        ensures step { IfOk result (λ step. Some step ≡ stood_says by_path_asks by_path_after self.old (option_copied last.entry)) }
        ensures range { IfOk result IsStep }
        ensures memory { OnErr result (self.new ≡ None) }
    {
        self.walk.next(alloc, last)
    }
}
