//! What changes in a desk. Each change leaves a desk that keeps what each desk keeps.
ghost use Rattle.std.specs.Prelude.{◌≡◌, ◌+◌, ◌/◌, ◌%◌, ◌<◌, ◌≤◌, true, false, is_some, length, take, drop, Some, None, IsSome, IfOk, IfSome, IfNone, OnOk, OnErr, slice_index_or, slice_set, []};
ghost use Rattle.std.specs.Bool.{OnTrue, OnFalse};
ghost use Rattle.std.specs.Option.{option_map};
ghost use Rattle.uid_names.specs.Rooms.{IsLength, IsPageNumber};
ghost use Rattle.page_cache.specs.Caches.{IsResident, page_at, free_count};
ghost use Rattle.version_stamps.specs.Stamps.{stamp_of};
ghost use Rattle.fault_handler.specs.Entries.{keeps_writing};
ghost use Rattle.fault_handler.specs.Tasks.{page_of};
ghost use Rattle.fault_handler.specs.Transits.{coming, going};
ghost use Rattle.fault_handler.specs.Desks.{entry_at, open_call_of, task_of, moving_of, others_fetch, is_in_transit_there};
ghost use Rattle.fault_handler.specs.Invariant.{IsAllowed, is_dirty};
ghost use Rattle.fault_handler.specs.Conditions.{IsIdle};
ghost use Rattle.fault_handler.specs.Changes.{with_used, with_stored, with_dropped, with_end, with_raised, with_fetch, with_eviction, with_sent_again, with_arrival, with_loss, with_room_settled};

use super::Desk;
use crate::four::index_of;
use crate::open_call::OpenCall;
use crate::tasks::Task;
use std::mem;
use uid_names::{ByteList, ByteRoom, NODE_PROCESSES, NoMemory, PAGE_BYTES, ProcId, Uid};

impl Desk {
    /// So many bytes of a page, from one on, where there is room for them, which uses the page; None where it is not resident.
    #[inline(always)]
    pub(super) fn load_page(
        &mut self,
        room: ByteRoom,
        uid: Uid,
        page: u32,
        start: u32,
        count: u32,
    ) -> Option<ByteList>
        requires within { start + count ≤ PAGE_BYTES }
        requires room { count ≤ room }
        ensures bytes { result ≡ option_map (λ r. take count (drop start r.bytes)) (page_at self.old.cache.pages uid page) }
        ensures used { IfSome result (λ _. self.new ≡ with_used self.old uid page) }
        ensures absent { IfNone result (page_at self.old.cache.pages uid page ≡ None) }
        ensures left { IfNone result (self.new ≡ self.old) }
    {
        self.pages.load(room, uid, page, start, count)
    }

    /// Stores bytes at an offset of an object, in a page that is resident: tells whether it is. The known
    /// length of the object is that of the end at least.
    pub(super) fn store_page(&mut self, proc: ProcId, uid: Uid, offset: u32, bytes: &[u8]) -> bool
        requires within { offset % PAGE_BYTES + length bytes.now ≤ PAGE_BYTES }
        requires page { IsPageNumber (offset / PAGE_BYTES) }
        requires writes { keeps_writing (entry_at self.old.entries proc.number uid) ≡ true }
        ensures resident { result ≡ is_some (page_at self.old.cache.pages uid (offset / PAGE_BYTES)) }
        ensures stored { OnTrue result (self.new
            ≡ with_end (with_stored self.old uid (offset / PAGE_BYTES) (offset % PAGE_BYTES) bytes.now) uid (offset + length bytes.now)) }
        ensures absent { OnFalse result (page_at self.old.cache.pages uid (offset / PAGE_BYTES) ≡ None) }
        ensures left { OnFalse result (self.new ≡ self.old) }
    {
        if !self.store_bytes(
            proc,
            uid,
            offset / PAGE_BYTES as u32,
            offset % PAGE_BYTES as u32,
            bytes,
        ) {
            return false;
        }
        self.grow(proc, uid, offset + bytes.len() as u32);
        true
    }

    /// Stores bytes in a page, if it is resident: tells whether it is.
    fn store_bytes(&mut self, proc: ProcId, uid: Uid, page: u32, start: u32, bytes: &[u8]) -> bool
        requires within { start + length bytes.now ≤ PAGE_BYTES }
        requires writes { keeps_writing (entry_at self.old.entries proc.number uid) ≡ true }
        ensures resident { result ≡ is_some (page_at self.old.cache.pages uid page) }
        ensures stored { OnTrue result (self.new ≡ with_stored self.old uid page start bytes.now) }
        ensures absent { OnFalse result (page_at self.old.cache.pages uid page ≡ None) }
        ensures left { OnFalse result (self.new ≡ self.old) }
    {
        self.kept(proc);
        self.pages.store(uid, page, start, bytes)
    }

    /// Stores bytes at an offset of an object, in its page, which was used last. The known length of the object is that of
    /// the end at least.
    pub(super) fn store_last(&mut self, proc: ProcId, uid: Uid, offset: u32, bytes: &[u8])
        requires within { offset % PAGE_BYTES + length bytes.now ≤ PAGE_BYTES }
        requires page { IsPageNumber (offset / PAGE_BYTES) }
        requires writes { keeps_writing (entry_at self.old.entries proc.number uid) ≡ true }
        requires resident { IsResident self.old.cache.pages uid (offset / PAGE_BYTES) }
        requires last { with_used self.old uid (offset / PAGE_BYTES) ≡ self.old }
        ensures { self.new
            ≡ with_end (with_stored self.old uid (offset / PAGE_BYTES) (offset % PAGE_BYTES) bytes.now) uid (offset + length bytes.now) }
    {
        self.store_in_place(
            proc,
            uid,
            offset / PAGE_BYTES as u32,
            offset % PAGE_BYTES as u32,
            bytes,
        );
        self.grow(proc, uid, offset + bytes.len() as u32);
    }

    /// Stores bytes in a page, which was used last.
    fn store_in_place(&mut self, proc: ProcId, uid: Uid, page: u32, start: u32, bytes: &[u8])
        requires within { start + length bytes.now ≤ PAGE_BYTES }
        requires writes { keeps_writing (entry_at self.old.entries proc.number uid) ≡ true }
        requires resident { IsResident self.old.cache.pages uid page }
        requires last { with_used self.old uid page ≡ self.old }
        ensures { self.new ≡ with_stored self.old uid page start bytes.now }
    {
        self.kept(proc);
        self.pages.store_in_place(uid, page, start, bytes);
    }

    /// A store ended there, of a process that keeps the object in a mode that writes: the object's known
    /// length is that at least.
    fn grow(&mut self, proc: ProcId, uid: Uid, end: u32)
        requires within { IsLength end }
        requires writes { keeps_writing (entry_at self.old.entries proc.number uid) ≡ true }
        ensures { self.new ≡ with_end self.old uid end }
    {
        self.kept(proc);
        if let Some(known) = self.known.of(uid) {
            self.known.replace(known.grown(end));
        }
    }

    /// Drops a page that is not on its way home.
    pub(super) fn drop_page(&mut self, uid: Uid, page: u32)
        requires { is_in_transit_there self.old.moving uid page ≡ false }
        ensures { self.new ≡ with_dropped self.old uid page }
    {
        self.pages.remove(uid, page);
    }

    /// The seen stamp of an object becomes the greater of both.
    pub(super) fn raise(&mut self, uid: Uid, stamp: u64)
        requires known { IsSome (stamp_of uid self.old.seen) }
        requires stamp { 1 ≤ stamp }
        ensures { self.new ≡ with_raised self.old uid stamp }
    {
        self.seen.raise(uid, stamp);
    }

    /// The page of a load or store comes from its home, into a frame that is reserved now.
    pub(super) fn fetch(&mut self, proc: ProcId, task: Task)
        requires idle { IsIdle self.old proc.number }
        requires free { 0 < free_count self.old.cache }
        requires absent { page_at self.old.cache.pages task.uid (page_of task) ≡ None }
        requires alone { others_fetch self.old.moving proc.number task.uid (page_of task) ≡ false }
        requires allowed { IsAllowed self.old.entries proc.number task }
        ensures { self.new ≡ with_fetch self.old proc.number task }
    {
        let at = index_of(proc);
        let uid = task.uid;
        let page = task.page();
        self.pages.fetch(proc, uid, page);
        self.calls[at] = Some(OpenCall::Access);
        self.tasks[at] = Some(task);
    }

    /// A dirty page goes home, to make room for that of a load or store.
    pub(super) fn evict(&mut self, proc: ProcId, task: Task, uid: Uid, page: u32)
        requires idle { IsIdle self.old proc.number }
        requires dirty { is_dirty (page_at self.old.cache.pages uid page) ≡ true }
        requires still { is_in_transit_there self.old.moving uid page ≡ false }
        requires allowed { IsAllowed self.old.entries proc.number task }
        ensures { self.new ≡ with_eviction self.old proc.number task uid page }
    {
        let at = index_of(proc);
        self.pages.send(proc, uid, page);
        self.calls[at] = Some(OpenCall::Access);
        self.tasks[at] = Some(task);
    }

    /// A page that a process sent home is sent again.
    pub(super) fn send_again(&mut self, proc: ProcId, uid: Uid, page: u32)
        requires { moving_of self.old proc.number ≡ going uid page }
        ensures { self.new ≡ with_sent_again self.old uid page }
    {
        self.kept(proc);
        self.pages.send(proc, uid, page);
    }

    /// The page came that the load or store of a process asked for, which is open no more: gives it back.
    pub(super) fn arrive(
        &mut self,
        proc: ProcId,
        uid: Uid,
        page: u32,
        bytes: &[u8; PAGE_BYTES],
    ) -> Result<Task, NoMemory>
        requires { moving_of self.old proc.number ≡ coming uid page }
        ensures arrived { OnOk result (self.new ≡ with_arrival self.old proc.number uid page bytes.now) }
        ensures task { IfOk result (λ task. task_of self.old proc.number ≡ Some task) }
        ensures idle { OnOk result (IsIdle self.new proc.number) }
        ensures allowed { IfOk result (IsAllowed self.old.entries proc.number) }
        ensures unchanged { OnErr result (self.new ≡ self.old) }
    {
        let at = index_of(proc);
        self.pages.arrive(proc, uid, page, bytes)?;
        self.calls[at] = None;
        Ok(ended(&mut self.tasks, at))
    }

    /// The page that makes room for the load or store of a process is on its way no more; gives the
    /// load or store back, which is open no more.
    pub(super) fn settle_room(&mut self, proc: ProcId, uid: Uid, page: u32, taken: bool) -> Task
        requires access { open_call_of self.old proc.number ≡ Some OpenCall.Access }
        requires sent { moving_of self.old proc.number ≡ going uid page }
        ensures settled { self.new ≡ with_room_settled self.old proc.number uid page taken }
        ensures task { task_of self.old proc.number ≡ Some result }
        ensures idle { IsIdle self.new proc.number }
        ensures allowed { IsAllowed self.old.entries proc.number result }
        ensures seen { IsSome (stamp_of uid self.old.seen) }
    {
        let at = index_of(proc);
        self.pages.settle(proc, uid, page, taken);
        self.calls[at] = None;
        ended(&mut self.tasks, at)
    }

    /// The page that the load or store of a process asked for will not come.
    pub(super) fn lose(&mut self, proc: ProcId, uid: Uid, page: u32)
        requires { moving_of self.old proc.number ≡ coming uid page }
        ensures { self.new ≡ with_loss self.old proc.number }
    {
        let at = index_of(proc);
        self.pages.lose(proc, uid, page);
        self.calls[at] = None;
        self.tasks[at] = None;
    }
}

/// Takes the load or store at a place.
fn ended(tasks: &mut [Option<Task>; NODE_PROCESSES], at: usize) -> Task
    requires bound { at < NODE_PROCESSES }
    requires there { IsSome (slice_index_or tasks.old at None) }
    ensures task { slice_index_or tasks.old at None ≡ Some result }
    ensures others { tasks.new ≡ slice_set tasks.old at None }
{
    match mem::replace(&mut tasks[at], None) {
        Some(task) => task,
        None => unreachable!(),
    }
}
