//! Names that are looked up one after the other.
ghost use Rattle.std.specs.Prelude.{◌≡◌, ◌++◌, ◌∷◌, [], drop, List, ℕ, Some, None, MatchOption, OnOk, OnErr};
ghost use Rattle.dir_records.specs.LastNames.{last_of};

use crate::component::Component;
use std::alloc::Global;
use std::marker::Model;
use uid_names::NoMemory;

/// The names of a path that are not looked up yet.
#[derive(Drop)]
pub struct Names {
    items: Vec<Component>,
    passed: usize,
}

impl Model for Names {
    ghost use Rattle.std.specs.Prelude.{ℕ, ◌≤◌, List, length, drop};

    ghost Value = { List (List ℕ) };

    ghost view = { λ n. drop n.passed n.items.items };

    ghost invariant = { λ n. n.passed ≤ length n.items.items };
}

impl Names {
    /// No name. Takes no memory.
    pub fn new(alloc: Global) -> Names
        ensures { result ≡ [] }
    {
        Names {
            items: Vec::new(alloc),
            passed: 0,
        }
    }

    /// Puts a name last; without memory the names stay as they were.
    pub fn push(&mut self, name: Component) -> Result<(), NoMemory>
        ensures ok { OnOk result (self.new ≡ self.old ++ name ∷ []) }
        ensures err { OnErr result (self.new ≡ self.old) }
    {
        self.items.push(name)?;
        Ok(())
    }

    /// The first name. Takes no memory.
    pub fn first(&self) -> Option<Component>
        ensures { MatchOption result (self.now ≡ []) (λ name. self.now ≡ name ∷ drop 1 self.now) }
    {
        if self.passed < self.items.len() {
            Some(self.items[self.passed])
        } else {
            None
        }
    }

    /// Goes past the first name. Takes no memory.
    #[tactic(auto, using(crate::proofs::Dropping::passed_one))]
    pub fn pass(&mut self)
        ensures { self.new ≡ drop 1 self.old }
    {
        if self.passed < self.items.len() {
            self.passed += 1;
        }
    }

    /// Takes the last name away. Takes no memory.
    #[tactic(auto, using(crate::proofs::LastNames::popped, crate::proofs::LastNames::none_left))]
    pub fn pop(&mut self) -> Option<Component>
        ensures { MatchOption result (last_of self.old ≡ None) (λ name. last_of self.old ≡ Some (self.new, name)) }
    {
        if self.passed == self.items.len() {
            return None;
        }
        let Some(name) = self.items.pop() else {
            unreachable!()
        };
        Some(name)
    }

    /// The names, in order. Takes no memory.
    pub fn items(&self) -> &[Component]
        ensures { result.now ≡ self.now }
    {
        &self.items[self.passed..]
    }

    /// Puts names last; without memory the names stay as they were.
    pub fn extend(&mut self, more: &Names) -> Result<(), NoMemory>
        ensures ok { OnOk result (self.new ≡ self.old ++ more.now) }
        ensures err { OnErr result (self.new ≡ self.old) }
    {
        self.items.extend_from_slice(more.items())?;
        Ok(())
    }
}
