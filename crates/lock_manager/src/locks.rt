//! The lock table of a home.
ghost use Rattle.std.specs.Prelude.{◌≡◌, ◌+◌, ◌-◌, ◌^◌, ◌<◌, ◌≤◌, ◌↔◌, [], Some, None, take, length, nat_lt, is_some, IfOk, OnOk, OnErr};
ghost use Rattle.std.specs.List.{list_any};
ghost use Rattle.uid_names.specs.Names.{ProcName};
ghost use Rattle.uid_names.specs.declared.mode.Mode.{Mode};
ghost use Rattle.uid_names.specs.Rows.{rows_after};
ghost use Rattle.lock_manager.specs.Grants.{rows_of, grant_of, held_in, is_writing, conflict_of};
ghost use Rattle.lock_manager.specs.Tables.{with_grant, without_grant, without_grants_on};

use crate::grants::{Grant, any_writes, behind, conflict, on_object, put, search};
use std::alloc::Global;
use std::marker::Model;
use thiserror::Error;
use uid_names::{
    LISTED_ROWS, LockRow, LockRows, Mode, NoMemory, NodeId, PROCESS_LOCKS, PROCESSES, ProcId, Uid,
};

/// How many rows there is room for from the start: those of all processes.
pub const ROOM: usize = PROCESSES * PROCESS_LOCKS;

/// Why a lock is not granted.
#[derive(Clone, Copy, Debug, PartialEq, Eq, Error)]
pub enum AskRefusal {
    /// Another process holds the object in a mode that conflicts: the first such one, and its mode.
    #[error("another process holds the object")]
    Conflict(ProcId, Mode),
    /// There was no memory.
    #[error("no memory")]
    NoMemory,
}

/// The locks of a home: its grants by rising object and process, and the number that the last one got.
#[derive(Drop, Debug)]
pub struct Locks {
    grants: Vec<Grant>,
    last: u64,
}

impl Model for Locks {
    ghost use Rattle.std.specs.Prelude.{◌≤◌, vec_capacity};
    ghost use Rattle.lock_manager.specs.declared.locks.TheConstants.{ROOM};
    ghost use Rattle.lock_manager.specs.Tables.{Table, IsTable};

    ghost Value = { Table };

    ghost view = { λ l. record { grants = l.grants.items; last = l.last } };

    ghost invariant = { λ l. IsTable (record { grants = l.grants.items; last = l.last }) × (ROOM ≤ vec_capacity l.grants) };
}

impl Locks {
    /// No lock is held, and no number was given. Makes room for `ROOM` rows.
    pub fn new(alloc: Global) -> Result<Locks, NoMemory>
        ensures { IfOk result (λ locks. locks ≡ record { grants = []; last = 0 }) }
    {
        let grants = Vec::with_capacity(alloc, ROOM)?;
        Ok(Locks { grants, last: 0 })
    }

    /// Grants a lock under the next number, in place of what the process holds on the object.
    /// Conflict where another process holds the object in conflict; NoMemory only where `ROOM` rows stand.
    /// Where it is refused, nothing changes.
    pub fn ask(&mut self, proc: ProcId, uid: Uid, mode: Mode) -> Result<u64, AskRefusal>
        requires { self.old.last < 2 ^ 64 - 1 }
        ensures conflict { (holder : ProcName) (held : Mode) →
            (result ≡ Err (AskRefusal.Conflict holder held))
            ↔ (conflict_of proc uid mode self.old.grants ≡ Some (holder, held)) }
        ensures free { OnOk result (conflict_of proc uid mode self.old.grants ≡ None) }
        ensures number { IfOk result (λ grant. grant ≡ self.old.last + 1) }
        ensures granted { OnOk result (self.new
            ≡ with_grant (record { uid = uid; proc = proc; mode = mode }) self.old) }
        ensures memory { result ≡ Err AskRefusal.NoMemory → ROOM ≤ length self.old.grants }
        ensures refused { OnErr result (self.new ≡ self.old) }
    {
        if let Some((holder, held)) = conflict(&self.grants, proc, uid, mode) {
            return Err(AskRefusal::Conflict(holder, held));
        }
        let number = self.last + 1;
        let grant = Grant {
            row: LockRow { uid, proc, mode },
            number,
        };
        match put(&mut self.grants, grant) {
            Ok(()) => {
                self.last = number;
                Ok(number)
            }
            Err(NoMemory) => Err(AskRefusal::NoMemory),
        }
    }

    /// Ends what a process holds on an object, and tells whether it held it. Takes no memory.
    pub fn release(&mut self, proc: ProcId, uid: Uid) -> bool
        ensures held { result ≡ is_some (grant_of proc uid self.old.grants) }
        ensures released { self.new ≡ without_grant proc uid self.old }
    {
        match search(&self.grants, proc, uid) {
            Ok(at) => {
                self.grants.remove(at);
                true
            }
            Err(_) => false,
        }
    }

    /// Ends all that is held on an object. Takes no memory.
    pub fn drop_object(&mut self, uid: Uid)
        ensures { self.new ≡ without_grants_on uid self.old }
    {
        self.grants.retain(|grant| !uid.is(grant.row.uid));
    }

    /// The mode in which a process holds an object, and the number of its grant. Takes no memory.
    pub fn held_by(&self, proc: ProcId, uid: Uid) -> Option<(Mode, u64)>
        ensures { result ≡ held_in (grant_of proc uid self.now.grants) }
    {
        match search(&self.grants, proc, uid) {
            Ok(at) => {
                let grant = &self.grants[at];
                Some((grant.row.mode, grant.number))
            }
            Err(_) => None,
        }
    }

    /// Whether a process of a node holds an object in a mode that writes, under a grant of this number.
    /// Takes no memory.
    pub fn writes(&self, grant: u64, uid: Uid, node: NodeId) -> bool
        ensures { result ≡ list_any (is_writing grant uid node) self.now.grants }
    {
        any_writes(on_object(&self.grants, uid), grant, node)
    }

    /// The first rows, or the first behind one, as many as an answer lists, and whether more follow.
    pub fn list(
        &self,
        alloc: Global,
        after: Option<(Uid, ProcId)>,
    ) -> Result<(LockRows, bool), NoMemory>
        ensures rows { IfOk result (λ listed.
            listed.0 ≡ take LISTED_ROWS (rows_after after (rows_of self.now.grants))) }
        ensures more { IfOk result (λ listed.
            listed.1 ≡ nat_lt LISTED_ROWS (length (rows_after after (rows_of self.now.grants)))) }
    {
        let grants = behind(&self.grants, after);
        let rows = first_rows(alloc, grants)?;
        Ok((rows, grants.len() > LISTED_ROWS))
    }
}

/// The rows of the first grants, as many as an answer lists.
fn first_rows(alloc: Global, grants: &[Grant]) -> Result<LockRows, NoMemory>
    ensures { IfOk result (λ rows. rows ≡ take LISTED_ROWS (rows_of grants.now)) }
{
    let count = LISTED_ROWS.min(grants.len());
    let mut rows = LockRows::new(alloc);
    for grant in &grants[..count] {
        rows.push(grant.row)?;
    }
    Ok(rows)
}
