//! The home side of a node: its objects and their pages.
ghost use Rattle.std.specs.Prelude.{◌≡◌, ◌↔◌, ℕ, ◌+◌, ◌-◌, ◌^◌, ◌<◌, ◌≤◌, IfOk, IfErr, OnOk, OnErr, MatchOption, is_ok, is_some, unwrap_or, Some, None, option_copied};
ghost use Rattle.std.specs.Option.{ForSome};
ghost use Rattle.std.specs.Result.{result_ok};
ghost use Rattle.page_store.specs.Volumes.{no_pages, page_of, zeros};
ghost use Rattle.object_store.specs.HomeStates.{attr_of, after_make, after_remove, after_page, after_length};
ghost use Rattle.object_store.specs.Objects.{rooms};
ghost use Rattle.object_store.specs.Rules.{page_stamp, page_write, length_write, IsAnswerBy, TellsStamp};
ghost use Rattle.object_store.specs.Kept.{IsAttr, IsHome};
ghost use Rattle.uid_names.specs.Beginnings.{CanHomeBegin, at_home};
ghost use Rattle.object_store.specs.Beginnings.{first_home};
ghost use Rattle.object_store.specs.Places.{StandsAt};

use crate::attributes::{Attr, ObjectRow};
use crate::refusals::{MakeFault, NoObject, WriteRefusal};
use crate::rows::{first_rows, position, sum_of_rooms};
use page_store::Pages;
use std::alloc::Global;
use std::marker::Model;
use uid_names::{MAX_ROOM, NoMemory, NodeId, ObjKind, Opening, PAGE_BYTES, Uid, VOLUME_ROOM};

/// The objects of a node and their pages.
pub struct Home<P: Pages> {
    node: NodeId,
    objects: Vec<ObjectRow>,
    // The greatest counter that was ever given.
    greatest: u64,
    // The sum of the rooms.
    taken: u32,
    pages: P,
}

// Of its own, so that what drops one calls this and does not take it apart in place.
impl<P: Pages> Drop for Home<P> {
    fn drop(self) {
        let Home {
            node: _,
            objects: _,
            greatest: _,
            taken: _,
            pages: _,
        } = self;
    }
}

impl<P: Pages> Model for Home<P> {
    ghost use Rattle.std.specs.Prelude.{◌≡◌};
    ghost use Rattle.object_store.specs.Objects.{rooms};
    ghost use Rattle.object_store.specs.HomeStates.{HomeState, home_code};
    ghost use Rattle.object_store.specs.Kept.{IsHome};

    ghost Value = { HomeState };

    ghost coded = { home_code };

    ghost view = { λ h. record { node = h.node; objects = h.objects.items; greatest = h.greatest; pages = P.volume h.pages } };

    ghost invariant = { λ h. IsHome (record { node = h.node; objects = h.objects.items; greatest = h.greatest; pages = P.volume h.pages }) × (h.taken ≡ rooms h.objects.items) };
}

impl<P: Pages> Home<P> {
    /// The home of a node at the start: its entry directory and the opening's objects there.
    pub fn new(
        alloc: Global,
        node: NodeId,
        pages: P,
        opening: &Opening,
    ) -> Result<Home<P>, NoMemory>
        requires empty { P.volume pages ≡ no_pages }
        requires begins { CanHomeBegin (at_home node opening.now.objects) }
        ensures first { IfOk result (λ home. home ≡ first_home node (at_home node opening.now.objects)) }
        ensures few { IfOk result (λ home. home.greatest ≤ VOLUME_ROOM) }
        ensures kept { IfOk result IsHome }
    {
        // What each opening keeps.
        let _nodes = opening.nodes();
        let objects = first_rows(alloc, node, opening.objects())?;
        let taken = sum_of_rooms(objects.as_slice());
        let greatest = objects.len() as u64;
        Ok(Home {
            node,
            objects,
            greatest,
            taken,
            pages,
        })
    }

    /// The node. Takes no memory.
    pub fn node(&self) -> NodeId
        ensures value { result ≡ self.now.node }
        ensures kept { IsHome self.now }
    {
        self.node
    }

    /// Makes an object of this room, in pages, by a counter that was never given.
    pub fn make(&mut self, kind: ObjKind, room: u32) -> Result<Uid, MakeFault>
        requires room { (1 ≤ room) × (room ≤ MAX_ROOM) }
        requires counter { self.old.greatest < 2 ^ 44 - 1 }

        ensures no_space { (result ≡ Err MakeFault.NoSpace) ↔ (VOLUME_ROOM < rooms self.old.objects + room) }
        ensures made { IfOk result
            (λ uid. uid ≡ record { counter = self.old.greatest + 1; home = self.old.node }) }
        ensures blank { IfOk result (λ uid. (page : ℕ) → page_of self.new.pages uid.counter page ≡ zeros) }
        ensures ok { OnOk result (self.new ≡ after_make self.old kind room) }
        ensures err { OnErr result (self.new ≡ self.old) }
        ensures kept { IsHome self.new }
    {
        if self.taken + room > VOLUME_ROOM {
            return Err(MakeFault::NoSpace);
        }
        let counter = self.greatest + 1;
        let row = ObjectRow {
            counter,
            attr: Attr::fresh(kind, room),
        };
        if self.objects.push(row).is_err() {
            return Err(MakeFault::NoMemory);
        }
        self.greatest = counter;
        self.taken += room;
        Ok(Uid::from_parts(counter, self.node))
    }

    /// Where the object's row stands.
    fn place(&self, uid: Uid) -> Option<usize>
        ensures { MatchOption result (attr_of self.now uid ≡ None) (StandsAt self.now uid) }
    {
        if uid.home() == self.node {
            position(self.objects.as_slice(), uid.counter())
        } else {
            None
        }
    }

    /// Removes an object and its pages. Takes no memory.
    pub fn remove(&mut self, uid: Uid) -> Result<(), NoObject>
        ensures there { is_ok result ≡ is_some (attr_of self.old uid) }
        ensures ok { OnOk result (self.new ≡ after_remove self.old uid.counter) }
        ensures err { OnErr result (self.new ≡ self.old) }
        ensures kept { IsHome self.new }
    {
        let Some(at) = self.place(uid) else {
            return Err(NoObject);
        };
        let row = self.objects.remove(at);
        self.taken -= row.attr.room;
        self.pages.drop_object(uid.counter());
        Ok(())
    }

    /// The attributes of an object. Takes no memory.
    pub fn look(&self, uid: Uid) -> Result<Attr, NoObject>
        ensures value { result_ok result ≡ attr_of self.now uid }
        ensures ranges { IfOk result IsAttr }
        ensures kept { IsHome self.now }
    {
        match self.place(uid) {
            Some(at) => Ok(self.objects[at].attr),
            None => Err(NoObject),
        }
    }

    /// Copies a page of an object, and gives the object's stamp. A page that was never written is zeros.
    /// Takes no memory.
    pub fn read_page(
        &self,
        uid: Uid,
        page: u32,
        into: &mut [u8; PAGE_BYTES],
    ) -> Result<u64, NoObject>
        ensures stamp { result_ok result ≡ page_stamp (attr_of self.now uid) page }
        ensures least { IfOk result (λ stamp. 1 ≤ stamp) }
        ensures page { OnOk result (into.new ≡ page_of self.now.pages uid.counter page) }
        ensures untouched { OnErr result (into.new ≡ into.old) }
        ensures kept { IsHome self.now }
    {
        let attr = self.look(uid)?;
        if page >= attr.room {
            return Err(NoObject);
        }
        self.pages.get(uid.counter(), page, into);
        Ok(attr.stamp)
    }

    /// The stamp of an object, and a page of it; None in place of one that was never written, which is zeros. Takes no memory.
    pub fn page(&self, uid: Uid, page: u32) -> Result<(u64, Option<&[u8; PAGE_BYTES]>), NoObject>
        ensures stamp { IfOk result (λ found. page_stamp (attr_of self.now uid) page ≡ Some found.0) }
        ensures absent { IfErr result (λ e. page_stamp (attr_of self.now uid) page ≡ None) }
        ensures least { IfOk result (λ found. 1 ≤ found.0) }
        ensures page { IfOk result (λ found. page_of self.now.pages uid.counter page ≡ unwrap_or (option_copied found.1) zeros) }
    {
        let attr = self.look(uid)?;
        if page >= attr.room {
            return Err(NoObject);
        }
        Ok((attr.stamp, self.pages.find(uid.counter(), page)))
    }

    /// Writes a page of an object where the base is the object's stamp, and gives the new stamp.
    pub fn write_page(
        &mut self,
        uid: Uid,
        page: u32,
        base: u64,
        bytes: &[u8; PAGE_BYTES],
    ) -> Result<u64, WriteRefusal>
        requires { ForSome (attr_of self.old uid) (λ attr. attr.stamp < 2 ^ 64 - 1) }

        ensures answer { IsAnswerBy (page_write (attr_of self.old uid) page base) result }
        ensures stamp { TellsStamp result }
        ensures ok { OnOk result (self.new ≡ after_page self.old uid.counter page bytes.now) }
        ensures err { OnErr result (self.new ≡ self.old) }
        ensures kept { IsHome self.new }
    {
        let Some(at) = self.place(uid) else {
            return Err(WriteRefusal::NoObject);
        };
        let stamp = self.objects[at].attr.page_write(page, base)?;
        if self.pages.put(uid.counter(), page, bytes).is_err() {
            return Err(WriteRefusal::NoMemory);
        }
        self.objects[at].attr.stamp = stamp;
        Ok(stamp)
    }

    /// Writes the length of an object, in bytes, where the base is the object's stamp, and gives the new
    /// stamp. Takes no memory.
    pub fn write_length(&mut self, uid: Uid, length: u32, base: u64) -> Result<u64, WriteRefusal>
        requires { ForSome (attr_of self.old uid) (λ attr. attr.stamp < 2 ^ 64 - 1) }

        ensures answer { result ≡ length_write (attr_of self.old uid) length base }
        ensures stamp { TellsStamp result }
        ensures ok { OnOk result (self.new ≡ after_length self.old uid.counter length) }
        ensures err { OnErr result (self.new ≡ self.old) }
        ensures kept { IsHome self.new }
    {
        let Some(at) = self.place(uid) else {
            return Err(WriteRefusal::NoObject);
        };
        let stamp = self.objects[at].attr.length_write(length, base)?;
        let attr = &mut self.objects[at].attr;
        attr.length = length;
        attr.stamp = stamp;
        Ok(stamp)
    }
}
