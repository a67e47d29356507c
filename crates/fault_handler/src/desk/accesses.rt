//! Loads, stores, lengths and mappings.
ghost use Rattle.std.specs.Prelude.{◌≡◌, ◌⊎◌, ◌+◌, ◌%◌, ◌≤◌, ◌<◌, true, false, is_some, length, Some, None, IsSome, IfOk, IfSome, OnOk, OnErr, []};
ghost use Rattle.std.specs.Option.{ForSome, option_map};
ghost use Rattle.dom_history.specs.Locks.{is_held};
ghost use Rattle.dom_history.specs.Ranges.{IsOp};
ghost use Rattle.page_cache.specs.Caches.{IsResident, page_at, free_count};
ghost use Rattle.uid_names.specs.Segments.{segments};
ghost use Rattle.address_map.specs.Mappings.{mapping_of};
ghost use Rattle.address_map.specs.Runs.{lowest_run};
ghost use Rattle.address_map.specs.Maps.{is_full, map_answer, with_mapping};
ghost use Rattle.ring_messages.specs.Bodies.{body_of_ask};
ghost use Rattle.fault_handler.specs.Tasks.{page_of};
ghost use Rattle.fault_handler.specs.Unseen.{ComesTo, GivesTo, IsLocal, MayMiss};
ghost use Rattle.fault_handler.specs.Desks.{state_of, maps_of, others_fetch, is_in_transit_there};
ghost use Rattle.fault_handler.specs.Invariant.{IsAllowed, is_dirty};
ghost use Rattle.fault_handler.specs.Outcomes.{as_access, seen_access, Gives};
ghost use Rattle.fault_handler.specs.Victims.{Victim, named_page};
ghost use Rattle.fault_handler.specs.Accesses.{Accessed, DeskOp, Comes, desk_op, page_by, load_at, store_at, length_by, map_by, unmap_by, access_of, target_of, page_out, fetched, room_made};
ghost use Rattle.fault_handler.specs.Changes.{with_maps};
ghost use Rattle.fault_handler.specs.Conditions.{IsOf, IsIdle, MayWant};
ghost use Rattle.fault_handler.specs.Ready.{IsReady};
ghost use Rattle.fault_handler.specs.Next.{FitsTurn, IsAsked, IsNext, IsAtOnce};

use super::Desk;
use crate::access::{Access, Local};
use crate::four::{index_of, others_fetch, writing_grant};
use crate::spare::{PageRoom, page_room};
use crate::tasks::{Task, Work};
use address_map::{MapRefusal, NotMapped};
use dom_history::{Dropped, Op, Reply, Spot};
use ring_messages::{Body, PageBytes};
use std::alloc::Global;
use uid_names::{ByteList, ByteRoom, MAX_ROOM, NoMemory, PAGE_BYTES, ProcId, Uid};

impl Desk {
    /// Begins a load, a store, or a call on a length or a mapping, or goes on with one that waited. Only
    /// loads and stores want memory, and without it nothing changes.
    pub fn access(&mut self, alloc: Global, proc: ProcId, op: &Op) -> Result<Access, NoMemory>
        requires own { IsOf self.old proc }
        requires idle { IsIdle self.old proc.number }
        requires access { IsSome (desk_op op.now) }
        requires range { IsOp op.now }
        ensures outcome { IfOk result (λ access. ForSome (desk_op op.now) (λ o.
            Comes proc.number (λ m. Gives as_access self.new m access) (access_of self.old proc.number o))) }
        ensures fits { IfOk result (λ access. ForSome (seen_access access) (λ o. FitsTurn op.now o.turn)) }
        ensures asks { IfOk result (λ access. ForSome (seen_access access) (λ o. IsAsked self.new.nodes o.turn)) }
        ensures next { IfOk result (λ access. ForSome (seen_access access) (λ o. IsNext self.new proc.number op.now o.turn)) }
        ensures ready { OnOk result (IsReady self.new proc.number) }
        ensures now { IfOk result (λ access. ForSome (seen_access access) (λ o. IsAtOnce op.now o.turn)) }
        ensures unchanged { OnErr result (self.new ≡ self.old) }
        ensures memory { OnErr result (ForSome (desk_op op.now) MayWant) }
        ensures node { self.new.node ≡ self.old.node }
        ensures nodes { self.new.nodes ≡ self.old.nodes }
    {
        self.kept(proc);
        self.begun(alloc, proc, op)
    }

    /// Begins an access, or goes on with one: what comes of it is what the definition says, and no more.
    fn begun(&mut self, alloc: Global, proc: ProcId, op: &Op) -> Result<Access, NoMemory>
        requires idle { IsIdle self.old proc.number }
        requires access { IsSome (desk_op op.now) }
        requires range { IsOp op.now }
        ensures outcome { IfOk result (λ access. IfSome (desk_op op.now) (λ o. ComesTo proc.number self.new (access_of self.old proc.number o) access)) }
        ensures unchanged { OnErr result (self.new ≡ self.old) }
        ensures memory { OnErr result (IfSome (desk_op op.now) MayWant) }
    {
        match self.local(alloc, proc, op)? {
            Local::Done(reply) => Ok(Access::done(alloc, reply)),
            Local::Refused(reply) => Ok(Access::refused(alloc, reply)),
            Local::Misses(task) => self.miss(alloc, proc, task),
        }
    }

    /// What the tests and the resident pages of a desk alone come to.
    fn local(&mut self, alloc: Global, proc: ProcId, op: &Op) -> Result<Local, NoMemory>
        requires idle { IsIdle self.old proc.number }
        requires access { IsSome (desk_op op.now) }
        requires range { IsOp op.now }
        ensures outcome { IfOk result (λ local. IfSome (desk_op op.now) (λ o. IsLocal proc.number self.old self.new (access_of self.old proc.number o) local)) }
        ensures misses { IfOk result (λ local. IfSome (desk_op op.now) (λ o. MayMiss o local)) }
        ensures unchanged { OnErr result (self.new ≡ self.old) }
        ensures memory { OnErr result (IfSome (desk_op op.now) MayWant) }
    {
        match op {
            Op::Load { spot, count } => match self.target(proc, *spot) {
                Some((uid, offset)) => self.load(alloc, proc, uid, offset, *count),
                None => Ok(Local::Refused(Reply::NotMapped)),
            },
            Op::Store { spot, bytes } => match self.target(proc, *spot) {
                Some((uid, offset)) => self.store(alloc, proc, uid, offset, bytes),
                None => Ok(Local::Refused(Reply::NotMapped)),
            },
            Op::Length { uid } => Ok(self.length(proc, *uid)),
            Op::Map { uid } => Ok(self.map(proc, *uid)),
            Op::Unmap { uid } => Ok(self.unmap(proc, *uid)),
            Op::New { .. }
            | Op::Lock { .. }
            | Op::Unlock { .. }
            | Op::Delete { .. }
            | Op::List { .. } => unreachable!(),
        }
    }

    /// The object and the offset that a spot names; None where it is not mapped.
    fn target(&self, proc: ProcId, spot: Spot) -> Option<(Uid, u32)>
        ensures { result ≡ target_of self.now proc.number spot }
    {
        match spot {
            Spot::Of(uid, offset) => Some((uid, offset)),
            Spot::Addr(address) => match self.maps[index_of(proc)].find(address) {
                Ok(target) => Some(target),
                Err(NotMapped) => None,
            },
        }
    }

    fn load(
        &mut self,
        alloc: Global,
        proc: ProcId,
        uid: Uid,
        offset: u32,
        count: u32,
    ) -> Result<Local, NoMemory>
        requires idle { IsIdle self.old proc.number }
        requires some { 1 ≤ count }
        requires within { offset % PAGE_BYTES + count ≤ PAGE_BYTES }
        ensures outcome { IfOk result (IsLocal proc.number self.old self.new (load_at self.old proc.number count (Some (uid, offset)))) }
        ensures unchanged { OnErr result (self.new ≡ self.old) }
    {
        self.kept(proc);
        if !self.lock_state(proc, uid).is_held() {
            return Ok(Local::Refused(Reply::NoLock));
        }
        if self.ends_past(uid, offset, count) {
            return Ok(Local::Refused(Reply::PastEnd));
        }
        let page = offset / PAGE_BYTES as u32;
        // What wants memory comes first.
        let room = ByteRoom::new(alloc, count as usize)?;
        match self.load_page(room, uid, page, offset % PAGE_BYTES as u32, count) {
            Some(bytes) => Ok(Local::Done(Reply::Bytes(bytes))),
            None => {
                let work = Work::Load(count);
                Ok(Local::Misses(Task { uid, offset, work }))
            }
        }
    }

    fn store(
        &mut self,
        alloc: Global,
        proc: ProcId,
        uid: Uid,
        offset: u32,
        bytes: &ByteList,
    ) -> Result<Local, NoMemory>
        requires idle { IsIdle self.old proc.number }
        requires some { 1 ≤ length bytes.now }
        requires within { offset % PAGE_BYTES + length bytes.now ≤ PAGE_BYTES }
        ensures outcome { IfOk result (IsLocal proc.number self.old self.new (store_at self.old proc.number bytes.now (Some (uid, offset)))) }
        ensures unchanged { OnErr result (self.new ≡ self.old) }
    {
        self.kept(proc);
        let state = self.lock_state(proc, uid);
        if !state.is_held() {
            return Ok(Local::Refused(Reply::NoLock));
        }
        if !state.may_write() {
            return Ok(Local::Refused(Reply::WrongMode));
        }
        if self.ends_past_room(uid, offset, bytes) {
            return Ok(Local::Refused(Reply::PastRoom));
        }
        // A store in a resident page takes no memory.
        if self.store_page(proc, uid, offset, bytes.bytes()) {
            return Ok(Local::Done(Reply::Fine));
        }
        let copy = bytes.copy(alloc)?;
        let work = Work::Store(copy);
        Ok(Local::Misses(Task { uid, offset, work }))
    }

    /// A load or store whose page is not resident. Not inlined, nor are those below it that hold a page: else each
    /// call that is answered at once would blank the room of theirs.
    #[inline(never)]
    fn miss(&mut self, alloc: Global, proc: ProcId, task: Task) -> Result<Access, NoMemory>
        requires idle { IsIdle self.old proc.number }
        requires absent { page_at self.old.cache.pages task.uid (page_of task) ≡ None }
        requires allowed { IsAllowed self.old.entries proc.number task }
        ensures outcome { IfOk result (ComesTo proc.number self.new (page_by self.old proc.number task None)) }
        ensures unchanged { OnErr result (self.new ≡ self.old) }
    {
        let spare = self.spare(alloc)?;
        Ok(self.missed(alloc, proc, task, spare))
    }

    /// What making room for a page may want, where no frame is free: room for the bytes of one that is sent home.
    pub(super) fn spare(&mut self, alloc: Global) -> Result<Option<PageRoom>, NoMemory>
        ensures spare { IfOk result (λ spare. (0 < free_count self.new.cache) ⊎ IsSome spare) }
        ensures unchanged { self.new ≡ self.old }
    {
        if self.pages.free() > 0 {
            return Ok(None);
        }
        match self.take_spare() {
            Some(bytes) => Ok(Some(bytes)),
            None => Ok(Some(page_room(alloc)?)),
        }
    }

    /// The room that an earlier miss left.
    fn take_spare(&mut self) -> Option<PageRoom>
        ensures { self.new ≡ self.old }
    {
        self.spare.take()
    }

    /// Leaves room for a later miss.
    fn keep_spare(&mut self, bytes: PageRoom)
        ensures { self.new ≡ self.old }
    {
        self.spare = Some(bytes);
    }

    /// A load or store whose page is not resident, with what making room for it may want. Takes no memory.
    pub(super) fn missed(
        &mut self,
        alloc: Global,
        proc: ProcId,
        task: Task,
        spare: Option<PageRoom>,
    ) -> Access
        requires idle { IsIdle self.old proc.number }
        requires absent { page_at self.old.cache.pages task.uid (page_of task) ≡ None }
        requires allowed { IsAllowed self.old.entries proc.number task }
        requires room { (0 < free_count self.old.cache) ⊎ IsSome spare }
        ensures outcome { ComesTo proc.number self.new (page_by self.old proc.number task None) result }
    {
        let uid = task.uid;
        let page = task.page();
        if others_fetch(self.pages.moving(), proc.number(), uid, page) {
            return Access::Wait(uid, page, Dropped::new(alloc));
        }
        if self.pages.free() > 0 {
            return self.fetch_page(proc, task, Dropped::new(alloc));
        }
        match spare {
            Some(place) => self.make_room(alloc, proc, task, place),
            // No frame is free.
            None => unreachable!(),
        }
    }

    /// Asks for the page of a load or store, into a frame that is free.
    fn fetch_page(&mut self, proc: ProcId, task: Task, dropped: Dropped) -> Access
        requires idle { IsIdle self.old proc.number }
        requires free { 0 < free_count self.old.cache }
        requires absent { page_at self.old.cache.pages task.uid (page_of task) ≡ None }
        requires alone { others_fetch self.old.moving proc.number task.uid (page_of task) ≡ false }
        requires allowed { IsAllowed self.old.entries proc.number task }
        ensures outcome { GivesTo self.new (fetched self.old proc.number task dropped) result }
    {
        let uid = task.uid;
        let page = task.page();
        self.fetch(proc, task);
        Access::Need(uid.home(), Body::PageIn { uid, page }, dropped)
    }

    /// Makes room for the page of a load or store: a clean page is dropped, or a dirty one sent home, in this place for its bytes.
    #[inline(never)]
    fn make_room(&mut self, alloc: Global, proc: ProcId, task: Task, place: PageRoom) -> Access
        requires idle { IsIdle self.old proc.number }
        requires full { free_count self.old.cache ≡ 0 }
        requires limit { length self.old.cache.pages + self.old.cache.reserved ≤ self.old.cache.frames }
        requires absent { page_at self.old.cache.pages task.uid (page_of task) ≡ None }
        requires alone { others_fetch self.old.moving proc.number task.uid (page_of task) ≡ false }
        requires allowed { IsAllowed self.old.entries proc.number task }
        ensures outcome { ComesTo proc.number self.new (Accessed.NeedsRoom self.old task) result }
    {
        let (uid, page, dirty) = self.chosen(proc);
        if dirty {
            return self.evict_page(alloc, proc, task, uid, page, place);
        }
        self.drop_page(uid, page);
        let access = self.fetch_page(proc, task, Dropped::one(alloc, uid, page));
        self.keep_spare(place);
        access
    }

    /// The page that is chosen to make room, and whether it is dirty.
    fn chosen(&self, proc: ProcId) -> (Uid, u32, bool)
        requires idle { IsIdle self.now proc.number }
        requires full { free_count self.now.cache ≡ 0 }
        ensures chosen { page_at self.now.cache.pages result.0 result.1 ≡ named_page self.now.moving self.now.cache.pages }
        ensures resident { IsResident self.now.cache.pages result.0 result.1 }
        ensures dirty { is_dirty (page_at self.now.cache.pages result.0 result.1) ≡ result.2 }
        ensures still { is_in_transit_there self.now.moving result.0 result.1 ≡ false }
    {
        self.kept(proc);
        match self.pages.victim() {
            Some(name) => match self.pages.is_dirty(name.0, name.1) {
                Some(dirty) => (name.0, name.1, dirty),
                None => unreachable!(),
            },
            None => unreachable!(),
        }
    }

    /// Sends a dirty page home, in this place for its bytes, to make room for that of a load or store.
    #[inline(never)]
    fn evict_page(
        &mut self,
        alloc: Global,
        proc: ProcId,
        task: Task,
        uid: Uid,
        page: u32,
        place: PageRoom,
    ) -> Access
        requires idle { IsIdle self.old proc.number }
        requires dirty { is_dirty (page_at self.old.cache.pages uid page) ≡ true }
        requires still { is_in_transit_there self.old.moving uid page ≡ false }
        requires allowed { IsAllowed self.old.entries proc.number task }
        ensures outcome { IfSome (page_at self.old.cache.pages uid page) (λ r. GivesTo self.new (room_made self.old proc.number task (Victim.SendsHome r)) result) }
    {
        let body = self.page_out(uid, page, place);
        self.evict(proc, task, uid, page);
        Access::Need(uid.home(), body, Dropped::new(alloc))
    }

    /// The request that sends a resident page home, in this place for its bytes, under the grant under which its node
    /// writes the object.
    pub(super) fn page_out(&self, uid: Uid, page: u32, mut place: PageRoom) -> Body
        requires { IsResident self.now.cache.pages uid page }
        ensures { option_map (λ r. body_of_ask (page_out self.now uid page r.bytes)) (page_at self.now.cache.pages uid page) ≡ Some result }
    {
        *place = *self.pages.bytes(uid, page);
        Body::PageOut {
            uid,
            page,
            grant: writing_grant(&self.entries, uid),
            base: self.seen.of(uid).unwrap_or(0),
            bytes: PageBytes::from_box(place),
        }
    }

    fn length(&self, proc: ProcId, uid: Uid) -> Local
        ensures outcome { IsLocal proc.number self.now self.now (length_by self.now uid (is_held (state_of self.now proc.number uid))) result }
        ensures replied { MayMiss (DeskOp.Measures uid) result }
    {
        if self.entries[index_of(proc)].state(uid).is_held() {
            Local::Done(Reply::Size(self.length_of(uid)))
        } else {
            Local::Refused(Reply::NoLock)
        }
    }

    fn map(&mut self, proc: ProcId, uid: Uid) -> Local
        requires idle { IsIdle self.old proc.number }
        ensures outcome { IsLocal proc.number self.old self.new (map_by self.old proc.number uid (is_held (state_of self.old proc.number uid))) result }
        ensures replied { MayMiss (DeskOp.Maps uid) result }
    {
        self.kept(proc);
        if !self.lock_state(proc, uid).is_held() {
            return Local::Refused(Reply::NoLock);
        }
        let room = self.room_of(uid);
        match self.map_room(proc, uid, room) {
            Ok((address, fresh)) => Local::Done(Reply::At { address, fresh }),
            Err(MapRefusal::TooManyMaps) => Local::Refused(Reply::TooManyMaps),
            Err(MapRefusal::NoSegment) => Local::Refused(Reply::NoSegment),
        }
    }

    /// Maps an object of this room, in pages, for a process.
    fn map_room(&mut self, proc: ProcId, uid: Uid, room: u32) -> Result<(u32, bool), MapRefusal>
        requires least { 1 ≤ room }
        requires greatest { room ≤ MAX_ROOM }
        ensures mapped { self.new ≡ with_maps self.old proc.number (with_mapping uid (segments room) (maps_of self.old proc.number)) }
        ensures answer { result
            ≡ map_answer (mapping_of uid (maps_of self.old proc.number)) (is_full (maps_of self.old proc.number)) (lowest_run (segments room) (maps_of self.old proc.number)) }
    {
        let map = &mut self.maps[index_of(proc)];
        map.map(uid, room)
    }

    fn unmap(&mut self, proc: ProcId, uid: Uid) -> Local
        ensures outcome { IsLocal proc.number self.old self.new (unmap_by self.old proc.number uid (is_some (mapping_of uid (maps_of self.old proc.number)))) result }
        ensures replied { MayMiss (DeskOp.Unmaps uid) result }
    {
        let map = &mut self.maps[index_of(proc)];
        match map.unmap(uid) {
            Ok(()) => Local::Done(Reply::Fine),
            Err(NotMapped) => Local::Refused(Reply::NotMapped),
        }
    }
}
