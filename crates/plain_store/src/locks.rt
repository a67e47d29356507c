//! The locks of the plain store.
ghost use Rattle.std.specs.Prelude.{◌≡◌, ◌<◌, ◌≤◌, ◌++◌, ◌∷◌, List, [], IfOk, OnOk, nat_lt, length, take, filter, find, insert, vec_len, vec_capacity};
ghost use Rattle.uid_names.specs.Rows.{is_in_conflict, is_after, rows_after};
ghost use Rattle.dom_history.specs.declared.deed.Deed.{Deed};
ghost use Rattle.dom_history.specs.StoreEffects.{store_effects, own};
ghost use Rattle.dom_history.specs.Locks.{state, state_in, not_free, rows as rows_of_home, rows_with, rows_without};
ghost use Rattle.plain_store.specs.KeptLocks.{lines_of, rows_of, held_state, Changes, AreListed};
ghost use Rattle.dom_history.specs.Runs.{IsFaultless};

use dom_history::{Deed, Op, Reply};
use std::alloc::Global;
use uid_names::{LISTED_ROWS, LockRow, LockRows, Mode, NoMemory, NodeId, ProcId, Uid};

/// The mode in which a process holds an object.
fn held_mode(held: &[LockRow], p: ProcId, uid: Uid) -> Option<Mode>
    ensures { state_in uid (lines_of p held.now) ≡ held_state result }
{
    for row in held {
        if row.is_of(p, uid) {
            return Some(row.mode);
        }
    }
    None
}

/// How many objects a process holds.
fn count_held(held: &[LockRow], p: ProcId) -> usize
    ensures { result ≡ length (lines_of p held.now) }
{
    let mut count = 0;
    for row in held {
        if p.is(row.proc) {
            count += 1;
        }
    }
    count
}

/// The first row that is in conflict with a lock.
fn conflict_in(rows: &[LockRow], p: ProcId, uid: Uid, mode: Mode) -> Option<LockRow>
    ensures { result ≡ find (is_in_conflict p uid mode) rows.now }
{
    for row in rows {
        if uid.is(row.uid) && row.conflicts(p, mode) {
            return Some(*row);
        }
    }
    None
}

fn is_behind(after: &Option<(Uid, ProcId)>, row: &LockRow) -> bool
    ensures { result ≡ is_after after.now row.now }
{
    match after {
        Some((uid, proc)) => row.is_after(*uid, *proc),
        None => true,
    }
}

/// The rows of a home that stand behind one.
fn rows_behind(
    alloc: Global,
    rows: &[LockRow],
    home: NodeId,
    after: &Option<(Uid, ProcId)>,
) -> Result<Vec<LockRow>, NoMemory>
    ensures { IfOk result (λ listed. listed.items ≡ rows_after after.now (rows_of home rows.now)) }
{
    let mut listed = Vec::new(alloc);
    for row in rows {
        if row.uid.home().number() == home.number() && is_behind(after, row) {
            listed.push(*row)?;
        }
    }
    Ok(listed)
}

/// The first rows.
fn first_rows(alloc: Global, rows: &[LockRow]) -> Result<LockRows, NoMemory>
    ensures rows { IfOk result (λ first. first ≡ take LISTED_ROWS rows.now) }
    ensures few { IfOk result (λ first. length first ≤ LISTED_ROWS) }
{
    let head = &rows[..rows.len().min(LISTED_ROWS)];
    let mut first = LockRows::new(alloc);
    for row in head {
        first.push(*row)?;
    }
    Ok(first)
}

/// Where a row comes among rows in order.
fn place_of(rows: &[LockRow], new: &LockRow) -> usize
    ensures within { result ≤ length rows.now }
    ensures place { insert rows.now result new.now ≡ rows_with new.now rows.now }
{
    for (i, row) in rows.iter().enumerate() {
        if !row.is_before(new.uid, new.proc) {
            return i;
        }
    }
    rows.len()
}

fn remove_row(p: ProcId, uid: Uid, rows: &mut Vec<LockRow>)
    ensures rows { rows.new.items ≡ rows_without p uid rows.old.items }
    ensures room { vec_len rows.old < vec_capacity rows.old → vec_len rows.new < vec_capacity rows.new }
{
    rows.retain(|row| !row.is_of(p, uid));
}

fn set_row(new: &LockRow, rows: &mut Vec<LockRow>)
    requires { vec_len rows.old < vec_capacity rows.old }
    ensures { rows.new.items ≡ rows_with new.now (rows_without new.now.proc new.now.uid rows.old.items) }
{
    remove_row(new.proc, new.uid, rows);
    let place = place_of(rows.as_slice(), new);
    if rows.insert(place, *new).is_err() {
        unreachable!();
    }
}

fn set_last(new: &LockRow, held: &mut Vec<LockRow>)
    requires { vec_len held.old < vec_capacity held.old }
    ensures { held.new.items ≡ rows_without new.now.proc new.now.uid held.old.items ++ new.now ∷ [] }
{
    remove_row(new.proc, new.uid, held);
    if held.push(*new).is_err() {
        unreachable!();
    }
}

/// What a deed does to the locks that are held.
#[derive(Clone, Copy, Debug)]
enum Change {
    Taken(LockRow),
    Freed(ProcId, Uid),
    Same,
}

/// What a deed does, whose reply no link fault gave.
fn change_of(deed: &Deed) -> Change
    requires { IsFaultless deed.now.reply }
    ensures { Changes result deed.now }
{
    match &deed.op {
        Op::Lock { uid, mode } => match &deed.reply {
            Reply::Fine => Change::Taken(LockRow {
                uid: *uid,
                proc: deed.proc,
                mode: *mode,
            }),
            _ => Change::Same,
        },
        Op::Unlock { uid } | Op::Delete { uid } => match &deed.reply {
            Reply::Fine => Change::Freed(deed.proc, *uid),
            _ => Change::Same,
        },
        _ => Change::Same,
    }
}

/// The locks that are held, in the order in which they were taken, and in the order of objects and processes.
#[derive(Drop, Debug)]
pub struct LockTable {
    held: Vec<LockRow>,
    rows: Vec<LockRow>,
}

impl LockTable {
    ghost use Rattle.plain_store.specs.KeptLocks.{HoldLocks, HaveRoom};

    /// No lock is held. Takes no memory.
    pub fn new(alloc: Global) -> LockTable
        ensures { HoldLocks result [] }
    {
        LockTable {
            held: Vec::new(alloc),
            rows: Vec::new(alloc),
        }
    }

    /// The mode in which a process holds an object; None where it is free on it.
    pub fn mode_of(&self, p: ProcId, uid: Uid) -> Option<Mode>
        ensures { (deeds : List Deed) → HoldLocks self.now deeds → state uid (own p deeds) ≡ held_state result }
    {
        held_mode(&self.held, p, uid)
    }

    /// How many objects a process holds.
    pub fn count_of(&self, p: ProcId) -> usize
        ensures { (deeds : List Deed) → HoldLocks self.now deeds → result ≡ length (not_free (own p deeds)) }
    {
        count_held(&self.held, p)
    }

    /// The first lock of another process that is in conflict with one on an object.
    pub fn conflict(&self, p: ProcId, uid: Uid, mode: Mode) -> Option<LockRow>
        ensures { (deeds : List Deed) → HoldLocks self.now deeds → result ≡ find (is_in_conflict p uid mode) (rows_of_home uid.home (store_effects deeds)) }
    {
        conflict_in(&self.rows, p, uid, mode)
    }

    /// The first locks on objects of a home behind one, in order, as many as are listed, and whether further ones follow.
    pub fn list(
        &self,
        alloc: Global,
        home: NodeId,
        after: Option<(Uid, ProcId)>,
    ) -> Result<(LockRows, bool), NoMemory>
        ensures few { IfOk result (λ list. length list.0 ≤ LISTED_ROWS) }
        ensures rows { IfOk result (λ list. (deeds : List Deed) → HoldLocks self.now deeds → AreListed (rows_after after (rows_of_home home (store_effects deeds))) list) }
    {
        let listed = rows_behind(alloc, &self.rows, home, &after)?;
        let first = first_rows(alloc, &listed)?;
        Ok((first, listed.len() > LISTED_ROWS))
    }

    /// Makes room for one change.
    pub fn reserve(&mut self) -> Result<(), NoMemory>
        ensures room { OnOk result (HaveRoom self.new) }
        ensures held { (deeds : List Deed) → HoldLocks self.old deeds → HoldLocks self.new deeds }
    {
        self.held.reserve(1)?;
        self.rows.reserve(1)?;
        Ok(())
    }

    /// Takes in what a deed does, for which there is room.
    pub fn change(&mut self, deed: &Deed)
        requires room { HaveRoom self.old }
        requires faultless { IsFaultless deed.now.reply }
        ensures { (deeds : List Deed) → HoldLocks self.old deeds → HoldLocks self.new (deed.now ∷ deeds) }
    {
        match change_of(deed) {
            Change::Taken(row) => {
                set_last(&row, &mut self.held);
                set_row(&row, &mut self.rows);
            }
            Change::Freed(p, uid) => {
                remove_row(p, uid, &mut self.held);
                remove_row(p, uid, &mut self.rows);
            }
            Change::Same => {}
        }
    }
}
