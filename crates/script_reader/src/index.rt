//! Which variables were declared and named, and where a process's commands stand: look-ups that go over no rows.
ghost use Rattle.std.specs.Prelude.{◌≡◌, ◌≢◌, ◌<◌, ◌≤◌, slice_index_or, ◌↔◌, ℕ, List, [], ◌∷◌, ◌++◌, Contains, IsTrue, OnOk, OnErr, IfOk, None, length};
ghost use Rattle.uid_names.specs.Names.{place_of_process};
ghost use Rattle.script_reader.specs.Variables.{declared_object};
ghost use Rattle.script_reader.specs.Walk.Index.{DeclaresAlso, HasAlso, list_of as list_of_var, listed_object};
ghost use Rattle.script_reader.specs.Walk.Placed.{HoldsPlaces};
ghost use Rattle.dom_history.specs.Ranges.{IsProcName};

use crate::script::{CommandRow, VarRow};
use std::alloc::Global;
use std::collections::BTreeSet;
use std::marker::Model;
use uid_names::{ByteList, ItemList, NoMemory, PROCESSES, ProcId, Uid};

/// How many lists the variables of declared objects stand in.
const LISTS: usize = 64;

/// The variables of declared objects, each once, with their objects: in lists by their last bytes, so that few are compared.
#[derive(Drop)]
pub(crate) struct DeclaredVars {
    lists: Vec<ItemList<VarRow>>,
}

impl Model for DeclaredVars {
    ghost use Rattle.std.specs.Prelude.{◌≡◌, List, length};
    ghost use Rattle.script_reader.specs.declared.script.VarRow.{VarRow};

    ghost Value = { List (List VarRow) };

    ghost view = { λ v. v.lists.items };

    ghost invariant = { λ v. length v.lists.items ≡ 64 };
}

impl DeclaredVars {
    /// No variable.
    pub(crate) fn new(alloc: Global) -> Result<DeclaredVars, NoMemory>
        ensures { IfOk result (λ lists. (place : ℕ) → slice_index_or lists place [] ≡ []) }
    {
        let mut lists = Vec::with_capacity(alloc, LISTS)?;
        while lists.len() < LISTS {
            lists.push(ItemList::new(alloc))?;
        }
        Ok(DeclaredVars { lists })
    }

    /// The object of a declared variable. Takes no memory.
    pub(crate) fn object(&self, var: &[u8]) -> Option<Uid>
        ensures { result ≡ listed_object self.now var.now }
    {
        object_among(self.lists[list_of(var)].items(), var)
    }

    /// Puts a variable with its object there; without memory nothing changes.
    pub(crate) fn add(&mut self, alloc: Global, var: &[u8], uid: Uid) -> Result<(), NoMemory>
        requires new { listed_object self.old var.now ≡ None }
        ensures ok { OnOk result (DeclaresAlso self.old self.new var.now uid) }
        ensures err { OnErr result (self.new ≡ self.old) }
    {
        let name = ByteList::from_slice(alloc, var)?;
        let list = &mut self.lists[list_of(var)];
        list.push(VarRow { var: name, uid })
    }
}

/// The list that a variable stands in, if it is declared.
fn list_of(var: &[u8]) -> usize
    ensures value { result ≡ list_of_var var.now }
    ensures bound { result < LISTS }
{
    if var.is_empty() {
        return 0;
    }
    let last = var[var.len() - 1] as usize;
    let before = var[var.len().saturating_sub(2)] as usize;
    (last + 10 * before) % LISTS
}

/// The object of a variable among these.
fn object_among(rows: &[VarRow], var: &[u8]) -> Option<Uid>
    ensures { result ≡ declared_object rows.now var.now }
{
    for row in rows {
        if row.var.bytes() == var {
            return Some(row.uid);
        }
    }
    None
}

/// Variables, each once.
#[derive(Drop)]
pub(crate) struct VarSet {
    names: BTreeSet<Vec<u8>>,
}

impl Model for VarSet {
    ghost use Rattle.std.specs.Prelude.{ℕ, List, map};

    ghost Value = { List (List ℕ) };

    ghost view = { λ v. map (λ name. name.items) v.names.keys };
}

impl VarSet {
    /// No variable. Takes no memory.
    pub(crate) fn new(alloc: Global) -> VarSet
        ensures { result ≡ [] }
    {
        VarSet {
            names: BTreeSet::new(alloc),
        }
    }

    /// Whether the variable is there.
    pub(crate) fn has(&self, var: &[u8]) -> bool
        ensures { IsTrue result ↔ Contains self.now var.now }
    {
        self.names.contains(var)
    }

    /// Puts the variable there; without memory nothing changes.
    pub(crate) fn add(&mut self, alloc: Global, var: &[u8]) -> Result<(), NoMemory>
        ensures ok { OnOk result (HasAlso self.old self.new var.now) }
        ensures err { OnErr result (self.new ≡ self.old) }
    {
        let name = Vec::from_slice(alloc, var)?;
        self.names.insert(name)?;
        Ok(())
    }
}

/// The variables that each process named by a `new`.
#[derive(Drop)]
pub(crate) struct NamedVars {
    sets: Vec<VarSet>,
}

impl Model for NamedVars {
    ghost use Rattle.std.specs.Prelude.{◌≡◌, ℕ, List, length};
    ghost use Rattle.uid_names.specs.declared.limits.TheConstants.{PROCESSES};

    ghost Value = { List (List (List ℕ)) };

    ghost view = { λ v. v.sets.items };

    ghost invariant = { λ v. length v.sets.items ≡ PROCESSES };
}

impl NamedVars {
    /// No process named a variable.
    pub(crate) fn new(alloc: Global) -> Result<NamedVars, NoMemory>
        ensures { IfOk result (λ sets. (place : ℕ) → slice_index_or sets place [] ≡ []) }
    {
        let mut sets = Vec::with_capacity(alloc, PROCESSES)?;
        while sets.len() < PROCESSES {
            sets.push(VarSet::new(alloc))?;
        }
        Ok(NamedVars { sets })
    }

    /// Whether the process named the variable.
    pub(crate) fn has(&self, proc: ProcId, var: &[u8]) -> bool
        ensures { IsTrue result ↔ Contains (slice_index_or self.now (place_of_process proc) []) var.now }
    {
        self.sets[proc.place()].has(var)
    }

    /// Puts a variable that the process names; without memory nothing changes.
    pub(crate) fn add(&mut self, alloc: Global, proc: ProcId, var: &[u8]) -> Result<(), NoMemory>
        ensures own { OnOk result (HasAlso (slice_index_or self.old (place_of_process proc) []) (slice_index_or self.new (place_of_process proc) []) var.now) }
        ensures others { (place : ℕ) → place ≢ place_of_process proc → slice_index_or self.new place [] ≡ slice_index_or self.old place [] }
        ensures proc { IsProcName proc }
        ensures err { OnErr result (self.new ≡ self.old) }
    {
        let _range = (proc.node().number(), proc.number());
        let set = &mut self.sets[proc.place()];
        set.add(alloc, var)
    }
}

/// The places of each process's commands among the commands of a script, rising.
#[derive(Drop)]
pub(crate) struct Places {
    lists: Vec<ItemList<u32>>,
}

impl Model for Places {
    ghost use Rattle.std.specs.Prelude.{◌≡◌, ℕ, List, length};
    ghost use Rattle.uid_names.specs.declared.limits.TheConstants.{PROCESSES};

    ghost Value = { List (List ℕ) };

    ghost view = { λ p. p.lists.items };

    ghost invariant = { λ p. length p.lists.items ≡ PROCESSES };
}

impl Places {
    /// No process has a command.
    fn new(alloc: Global) -> Result<Places, NoMemory>
        ensures { IfOk result (λ places. (slot : ℕ) → slice_index_or places slot [] ≡ []) }
    {
        let mut lists = Vec::with_capacity(alloc, PROCESSES)?;
        while lists.len() < PROCESSES {
            lists.push(ItemList::new(alloc))?;
        }
        Ok(Places { lists })
    }

    /// The places of these commands.
    pub(crate) fn of_commands(alloc: Global, commands: &[CommandRow]) -> Result<Places, NoMemory>
        requires { length commands.now ≤ 20000 }
        ensures { IfOk result (λ places. HoldsPlaces places commands.now) }
    {
        let mut places = Places::new(alloc)?;
        for (at, row) in commands.iter().enumerate() {
            places.add(row.proc, at as u32)?;
        }
        Ok(places)
    }

    /// The places of a process's commands. Takes no memory.
    pub(crate) fn of(&self, proc: ProcId) -> &[u32]
        ensures { result.now ≡ slice_index_or self.now (place_of_process proc) [] }
    {
        self.lists[proc.place()].items()
    }

    /// Puts a place behind those of the process.
    fn add(&mut self, proc: ProcId, place: u32) -> Result<(), NoMemory>
        ensures own { OnOk result (slice_index_or self.new (place_of_process proc) [] ≡ slice_index_or self.old (place_of_process proc) [] ++ place ∷ []) }
        ensures others { (slot : ℕ) → slot ≢ place_of_process proc → slice_index_or self.new slot [] ≡ slice_index_or self.old slot [] }
        ensures proc { IsProcName proc }
    {
        let _range = (proc.node().number(), proc.number());
        let places = &mut self.lists[proc.place()];
        places.push(place)
    }
}
