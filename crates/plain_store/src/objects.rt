//! The objects of the plain store, and what they take of the volumes.
ghost use Rattle.std.specs.Prelude.{◌≡◌, ◌+◌, ◌^◌, ◌<◌, ◌≤◌, ◌==◌, ◌++◌, ◌||◌, ℕ, List, [], if◌then◌else◌, not, max, sum_by, fold, filter, find, option_to_list, vec_len, vec_capacity, IfOk, OnOk};
ghost use Rattle.std.specs.HashSet.{contains, spare};
ghost use Rattle.uid_names.specs.Names.{ProcName, ObjectName, same_uid};
ghost use Rattle.uid_names.specs.Openings.{Start, IsStart};
ghost use Rattle.uid_names.specs.Beginnings.{at_home};
ghost use Rattle.dom_history.specs.StoreEffects.{StoreEffect, store_effect};
ghost use Rattle.plain_store.specs.KeptObjects.{AreDeleted, with_deed};
ghost use Rattle.dom_history.specs.Objects.{is_named, is_deleted, is_present, made, room_of, room_taken, greatest_counter};

use dom_history::{Deed, Op, Reply};
use std::alloc::Global;
use std::collections::HashSet;
use uid_names::{NoMemory, NodeId, Object, Opening, Uid};

/// The object that a deed made.
fn made_by(op: &Op, reply: &Reply) -> Option<Object>
    ensures { (p : ProcName) → (opening : Start) → (past : List StoreEffect) → made opening (store_effect p op.now reply.now ++ past) ≡ made opening past ++ option_to_list result }
{
    match op {
        Op::New {
            home: _,
            kind,
            room,
        } => match reply {
            Reply::Made(uid) => Some(Object {
                uid: *uid,
                kind: *kind,
                room: *room,
            }),
            _ => None,
        },
        _ => None,
    }
}

/// The name of the object that a deed deleted.
fn deleted_by(op: &Op, reply: &Reply) -> Option<Uid>
    ensures { (p : ProcName) → (past : List StoreEffect) → (u : ObjectName) → is_deleted u (store_effect p op.now reply.now ++ past) ≡ (is_named result u || is_deleted u past) }
{
    match op {
        Op::Delete { uid } => match reply {
            Reply::Fine => Some(*uid),
            _ => None,
        },
        _ => None,
    }
}

/// What the objects of a home take, in pages, and the greatest counter that one of them has or had.
#[derive(Clone, Copy, Debug)]
pub struct Volume {
    pub taken: u128,
    pub greatest: u64,
}

impl Volume {
    /// With one object more, which is there or was deleted.
    fn with(self, home: NodeId, object: &Object, deleted: bool) -> Volume
        requires { self.taken < 2 ^ 120 }
        ensures taken { result.taken ≡ (if deleted then self.taken else (if object.now.uid.home == home then self.taken + object.now.room else self.taken)) }
        ensures bound { result.taken ≤ self.taken + 2 ^ 32 }
        ensures greatest { result.greatest ≡ (if object.now.uid.home == home then max self.greatest object.now.uid.counter else self.greatest) }
    {
        if object.uid.home().number() != home.number() {
            return self;
        }
        let taken = if deleted {
            self.taken
        } else {
            self.taken + object.room as u128
        };
        Volume {
            taken,
            greatest: self.greatest.max(object.uid.counter()),
        }
    }
}

/// The volume of a home, of which some objects were deleted.
fn volume_in(objects: &[Object], deleted: &HashSet<Uid>, home: NodeId) -> Volume
    ensures taken { result.taken ≡ sum_by (λ o. o.room) (at_home home (filter (λ o. not (contains same_uid deleted.now o.uid)) objects.now)) }
    ensures bound { result.taken ≤ 2 ^ 100 }
    ensures greatest { result.greatest ≡ fold (λ a o. max a o.uid.counter) 0 (at_home home objects.now) }
{
    let mut volume = Volume {
        taken: 0,
        greatest: 0,
    };
    for object in objects {
        volume = volume.with(home, object, deleted.contains(&object.uid));
    }
    volume
}

/// The first object of this name.
fn object_in(objects: &[Object], uid: Uid) -> Option<Object>
    ensures { result ≡ find (λ o. same_uid o.uid uid) objects.now }
{
    for object in objects {
        if object.uid.is(uid) {
            return Some(*object);
        }
    }
    None
}

/// Puts the object that a deed made last, for which there is room.
fn add_made(objects: &mut Vec<Object>, deed: &Deed)
    requires { vec_len objects.old < vec_capacity objects.old }
    ensures { (opening : Start) → (past : List StoreEffect) → objects.old.items ≡ made opening past → objects.new.items ≡ made opening (with_deed deed.now past) }
{
    if let Some(object) = made_by(&deed.op, &deed.reply) {
        if objects.push(object).is_err() {
            unreachable!();
        }
    }
}

/// Puts in the name of the object that a deed deleted, for which there is room.
fn add_deleted(names: &mut HashSet<Uid>, deed: &Deed)
    requires { 0 < spare names.old }
    ensures { (past : List StoreEffect) → AreDeleted names.old past → AreDeleted names.new (with_deed deed.now past) }
{
    if let Some(uid) = deleted_by(&deed.op, &deed.reply) {
        if names.insert(uid).is_err() {
            unreachable!();
        }
    }
}

/// The objects that were made, the oldest first, and the names of those that were deleted.
#[derive(Drop, Debug)]
pub struct ObjectTable {
    made: Vec<Object>,
    deleted: HashSet<Uid>,
}

impl ObjectTable {
    ghost use Rattle.plain_store.specs.KeptObjects.{HoldObjects, HaveRoom, HaveSmallCounters};

    /// The objects that are there from the start.
    pub fn new(alloc: Global, opening: &Opening) -> Result<ObjectTable, NoMemory>
        ensures held { IfOk result (λ table. HoldObjects table opening.now []) }
        ensures start { IfOk result (λ _. IsStart opening.now) }
    {
        let mut made = Vec::new(alloc);
        for i in 0..opening.nodes() {
            match NodeId::new(i + 1) {
                Some(node) => made.push(Object::entry_directory(node))?,
                None => unreachable!(),
            }
        }
        made.extend_from_slice(opening.objects())?;
        Ok(ObjectTable {
            made,
            deleted: HashSet::new(alloc),
        })
    }

    /// The object of this name, deleted or not.
    pub fn find(&self, uid: Uid) -> Option<Object>
        ensures { (opening : Start) → (past : List StoreEffect) → HoldObjects self.now opening past → result ≡ find (λ o. same_uid o.uid uid) (made opening past) }
    {
        object_in(&self.made, uid)
    }

    /// The room that the object of this name was made with; 0 where none was.
    pub fn room_of(&self, uid: Uid) -> u32
        ensures { (opening : Start) → (past : List StoreEffect) → HoldObjects self.now opening past → result ≡ room_of opening past uid }
    {
        match self.find(uid) {
            Some(object) => object.room,
            None => 0,
        }
    }

    /// Whether an object of this name is there.
    pub fn is_present(&self, uid: Uid) -> bool
        ensures { (opening : Start) → (past : List StoreEffect) → HoldObjects self.now opening past → result ≡ is_present opening past uid }
    {
        match self.find(uid) {
            Some(_) => !self.deleted.contains(&uid),
            None => false,
        }
    }

    /// The volume of a node.
    pub fn volume_of(&self, home: NodeId) -> Volume
        ensures taken { (opening : Start) → (past : List StoreEffect) → HoldObjects self.now opening past → result.taken ≡ room_taken opening past home }
        ensures bound { result.taken ≤ 2 ^ 100 }
        ensures small { HaveSmallCounters self.now → result.greatest < 2 ^ 41 }
        ensures greatest { (opening : Start) → (past : List StoreEffect) → HoldObjects self.now opening past → result.greatest ≡ greatest_counter opening past home }
    {
        volume_in(&self.made, &self.deleted, home)
    }

    /// Makes room for one change.
    pub fn reserve(&mut self) -> Result<(), NoMemory>
        ensures room { OnOk result (HaveRoom self.new) }
        ensures held { (opening : Start) → (past : List StoreEffect) → HoldObjects self.old opening past → HoldObjects self.new opening past }
    {
        self.made.reserve(1)?;
        self.deleted.reserve(1)?;
        Ok(())
    }

    /// Takes in what a deed does, for which there is room.
    pub fn change(&mut self, deed: &Deed)
        requires { HaveRoom self.old }
        ensures { (opening : Start) → (past : List StoreEffect) → HoldObjects self.old opening past → HoldObjects self.new opening (with_deed deed.now past) }
    {
        add_made(&mut self.made, deed);
        add_deleted(&mut self.deleted, deed);
    }
}
