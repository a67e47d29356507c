//! Changes of directories: names that are added or removed.
ghost use Rattle.std.specs.Prelude.{◌≡◌, Some, None, IfOk, OnOk, OnErr, IsSome};
ghost use Rattle.std.specs.Option.{option_copied};
ghost use Rattle.naming_tree.specs.Turns.{FitsStood, stood_after, stood_says};
ghost use Rattle.naming_tree.specs.Dialogues.{IsStep};

use crate::addition::Addition;
use crate::changing::{Change, Changing};
use crate::step::NameStep;
use dir_records::Component;
use dom_history::Reply;
use std::alloc::Global;
use std::marker::Model;
use uid_names::{NoMemory, Uid};

/// Adds a name to a directory, with a new object, or removes one, with its object. An addition comes to the object.
///
/// It is seen as how far it has come; as None once it is over or found no memory, and is then not called again.
#[derive(Drop)]
pub struct ChangeAt {
    changing: Changing,
    over: bool,
}

impl Model for ChangeAt {
    ghost use Rattle.std.specs.Prelude.{Option};
    ghost use Rattle.naming_tree.specs.declared.changing.Changing.{Changing};
    ghost use Rattle.naming_tree.specs.Turns.{unless, IfStill};
    ghost use Rattle.naming_tree.specs.Changing.{IsChanging};

    ghost Value = { Option Changing };

    ghost view = { λ c. unless c.over c.changing };

    ghost invariant = { λ c. IfStill c.over (IsChanging c.changing) };
}

impl ChangeAt {
    ghost use Rattle.naming_tree.specs.declared.changing.Change.TheVariants.{Add as AddChange, Remove as RemoveChange};
    ghost use Rattle.naming_tree.specs.Additions.{IsAddition};
    ghost use Rattle.naming_tree.specs.Changing.{changing_of, changing_asks, changing_after};

    /// An addition to a directory. Takes no memory.
    pub fn add(alloc: Global, parent: Uid, what: Addition) -> ChangeAt
        requires { IsAddition what }
        ensures { result ≡ Some (changing_of parent (AddChange what)) }
    {
        ChangeAt {
            changing: Changing::new(alloc, parent, Change::Add(what)),
            over: false,
        }
    }

    /// A removal from a directory. Takes no memory.
    pub fn remove(alloc: Global, parent: Uid, name: Component) -> ChangeAt
        ensures { result ≡ Some (changing_of parent (RemoveChange name)) }
    {
        ChangeAt {
            changing: Changing::new(alloc, parent, Change::Remove(name)),
            over: false,
        }
    }

    /// Tells it the reply to its operation; nothing at the first call.
    pub fn next(&mut self, alloc: Global, last: Option<&Reply>) -> Result<NameStep, NoMemory>
        requires still { IsSome self.old }
        requires fits { FitsStood changing_asks self.old (option_copied last) }
        ensures after { OnOk result (self.new ≡ stood_after changing_after self.old (option_copied last.entry)) }
        ensures step { IfOk result (λ step. Some step ≡ stood_says changing_asks changing_after self.old (option_copied last.entry)) }
        ensures range { IfOk result IsStep }
        ensures memory { OnErr result (self.new ≡ None) }
    {
        self.over = true;
        let come = match last {
            Some(reply) => self.changing.hear(alloc, reply)?,
            None => {
                self.changing.begin();
                None
            }
        };
        match come {
            Some(result) => Ok(NameStep::Over(result)),
            None => {
                let op = self.changing.op(alloc)?;
                self.over = false;
                Ok(NameStep::Do(op))
            }
        }
    }
}
