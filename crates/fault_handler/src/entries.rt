//! What a process knows of its locks.
ghost use Rattle.std.specs.Prelude.{◌≡◌, ◌⊎◌, ◌≤◌, ◌<◌, true, length, IfOk, IsSome, []};
ghost use Rattle.dom_history.specs.Locks.{is_free};
ghost use Rattle.fault_handler.specs.Entries.{entry_of, state_in, grant_in, keeps, keeps_writing, keeps_all, entries_without, entries_with, entries_after, entries_noted};

use dom_history::LockState;
use std::alloc::Global;
use std::marker::Model;
use uid_names::{NoMemory, PROCESS_LOCKS, Uid};

/// An object on which a process is not Free.
#[derive(Clone, Copy, Debug, PartialEq, Eq)]
pub struct LockEntry {
    pub uid: Uid,
    pub state: LockState,
    /// The number of the grant, where the state is Held.
    pub grant: u64,
    /// The release or the removal was sent.
    pub released: bool,
}

/// The entry of an object.
fn entry_of(entries: &[LockEntry], uid: Uid) -> Option<LockEntry>
    ensures { result ≡ entry_of uid entries.now }
{
    for entry in entries {
        if uid.is(entry.uid) {
            return Some(*entry);
        }
    }
    None
}

/// The release or the removal of an object was sent.
fn note(entries: &mut [LockEntry], uid: Uid)
    ensures { entries.new ≡ entries_noted uid entries.old }
{
    for entry in entries.iter_mut() {
        if uid.is(entry.uid) {
            entry.released = true;
        }
    }
}

/// The objects on which a process is not Free, in the order in which their states were set.
#[derive(Drop, Debug)]
pub struct EntryTable {
    items: Vec<LockEntry>,
}

impl Model for EntryTable {
    ghost use Rattle.std.specs.Prelude.{◌≤◌, List, length, vec_capacity};
    ghost use Rattle.fault_handler.specs.declared.entries.LockEntry.{LockEntry};
    ghost use Rattle.uid_names.specs.declared.limits.TheConstants.{PROCESS_LOCKS};

    ghost Value = { List LockEntry };

    ghost view = { λ t. t.items.items };

    ghost invariant = { λ t. (length t.items.items ≤ PROCESS_LOCKS) × (PROCESS_LOCKS ≤ vec_capacity t.items) };
}

impl EntryTable {
    /// The process is Free on all objects. Makes room for eight entries.
    pub fn new(alloc: Global) -> Result<EntryTable, NoMemory>
        ensures { IfOk result (λ table. table ≡ []) }
    {
        let items = Vec::with_capacity(alloc, PROCESS_LOCKS)?;
        Ok(EntryTable { items })
    }

    /// The entry of an object; None where the process is Free on it. Takes no memory.
    pub fn find(&self, uid: Uid) -> Option<LockEntry>
        ensures { result ≡ entry_of uid self.now }
    {
        entry_of(self.items.as_slice(), uid)
    }

    /// The state on an object. Takes no memory.
    pub fn state(&self, uid: Uid) -> LockState
        ensures { result ≡ state_in (entry_of uid self.now) }
    {
        match self.find(uid) {
            Some(entry) => entry.state,
            None => LockState::Free,
        }
    }

    /// The number of the grant on an object, which is there where the state is Held; 0 without an entry. Takes no
    /// memory.
    pub fn grant(&self, uid: Uid) -> u64
        ensures { result ≡ grant_in (entry_of uid self.now) }
    {
        match self.find(uid) {
            Some(entry) => entry.grant,
            None => 0,
        }
    }

    /// Whether the process keeps an object. Takes no memory.
    pub fn keeps(&self, uid: Uid) -> bool
        ensures { result ≡ keeps (entry_of uid self.now) }
    {
        match self.find(uid) {
            Some(entry) => entry.state.is_held() && !entry.released,
            None => false,
        }
    }

    /// Whether it keeps an object in a mode that writes. Takes no memory.
    pub fn keeps_writing(&self, uid: Uid) -> bool
        ensures { result ≡ keeps_writing (entry_of uid self.now) }
    {
        match self.find(uid) {
            Some(entry) => entry.state.may_write() && !entry.released,
            None => false,
        }
    }

    /// Whether the process keeps each object on which it is Held. Takes no memory.
    pub fn keeps_all(&self) -> bool
        ensures { result ≡ keeps_all self.now }
    {
        self.items
            .iter()
            .all(|entry| !(entry.state.is_held() && entry.released))
    }

    /// On how many objects the process is not Free, at most eight. Takes no memory.
    pub fn count(&self) -> u8
        ensures count { result ≡ length self.now }
        ensures few { result ≤ PROCESS_LOCKS }
    {
        self.items.len() as u8
    }

    /// Sets the entry of an object. Takes no memory.
    pub fn set(&mut self, entry: LockEntry)
        requires { IsSome (entry_of entry.uid self.old) ⊎ (length self.old < PROCESS_LOCKS) }
        ensures { self.new ≡ entries_with entry self.old }
    {
        self.remove(entry.uid);
        match self.items.push(entry) {
            Ok(()) => {}
            // There is room for eight.
            Err(_) => unreachable!(),
        }
    }

    /// The process is Free on an object. Takes no memory.
    pub fn remove(&mut self, uid: Uid)
        ensures others { self.new ≡ entries_without uid self.old }
        ensures few { length self.old ≤ PROCESS_LOCKS }
    {
        self.items.retain(|other| !uid.is(other.uid));
    }

    /// Sets the state on an object, with the grant where it is Held. Takes no memory.
    pub fn set_state(&mut self, uid: Uid, state: LockState, grant: u64)
        requires { (is_free state ≡ true) ⊎ IsSome (entry_of uid self.old) ⊎ (length self.old < PROCESS_LOCKS) }
        ensures { self.new ≡ entries_after uid state grant self.old }
    {
        match state {
            LockState::Free => self.remove(uid),
            LockState::Held(_)
            | LockState::Taking(_)
            | LockState::Releasing(_)
            | LockState::Deleting => self.set(LockEntry {
                uid,
                state,
                grant,
                released: false,
            }),
        }
    }

    /// The release or the removal of an object was sent. Takes no memory.
    pub fn note(&mut self, uid: Uid)
        ensures { self.new ≡ entries_noted uid self.old }
    {
        note(self.items.as_mut_slice(), uid);
    }
}
