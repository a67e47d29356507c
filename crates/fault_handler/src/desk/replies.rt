//! How a load or store goes on where a home answers, or where a link fault ends its call.
ghost use Rattle.std.specs.Prelude.{◌≡◌, ◌⊎◌, ◌≤◌, ◌<◌, true, false, length, nat_lt, Some, None, IsSome, IfOk, IfSome, OnOk, OnErr, []};
ghost use Rattle.std.specs.Option.{ForSome};
ghost use Rattle.ring_messages.specs.Bodies.{answer_of};
ghost use Rattle.ring_messages.specs.Ranges.{IsBody};
ghost use Rattle.dom_history.specs.declared.op.Op.{Op};
ghost use Rattle.page_cache.specs.Caches.{IsResident, page_at, free_count};
ghost use Rattle.fault_handler.specs.Tasks.{page_of, start_of};
ghost use Rattle.fault_handler.specs.Unseen.{loaded_from, loaded_size, said_to, fits_way, ComesTo, GivesTo, ComesOfPage, ComesOfRoom};
ghost use Rattle.fault_handler.specs.Transits.{coming, going};
ghost use Rattle.fault_handler.specs.Desks.{task_of, moving_of, base_of};
ghost use Rattle.fault_handler.specs.Changes.{with_used, with_raised};
ghost use Rattle.fault_handler.specs.Invariant.{IsAllowed};
ghost use Rattle.fault_handler.specs.Outcomes.{seen_access, IsNoRefusal};
ghost use Rattle.fault_handler.specs.Accesses.{performed, page_access};
ghost use Rattle.fault_handler.specs.PageReplies.{page_answer, page_came_of, room_sent_again, access_failed_of, GoesOn};
ghost use Rattle.fault_handler.specs.LockCalls.{answers};
ghost use Rattle.fault_handler.specs.Conditions.{IsOf, IsIdle, IsAccessing, MayWantAt};
ghost use Rattle.fault_handler.specs.Ready.{IsReady};
ghost use Rattle.fault_handler.specs.Next.{FitsTurn, IsAsked, IsOpen, IsNext};

use super::Desk;
use crate::access::Access;
use crate::four::{index_of, transit_of};
use crate::spare::{PageRoom, page_room};
use crate::tasks::{Task, Work};
use crate::transits::Transit;
use dom_history::{Dropped, Reply};
use ring_messages::Body;
use std::alloc::Global;
use uid_names::{ByteList, ByteRoom, NoMemory, PAGE_BYTES, ProcId, Uid};

impl Desk {
    /// Goes on with a load or store at the answer to its open call. It is never refused. Wants memory
    /// only at a page that is not an old one, or at an answer to the page that makes room, and without it
    /// nothing changes.
    pub fn page_came(
        &mut self,
        alloc: Global,
        proc: ProcId,
        body: &Body,
    ) -> Result<Access, NoMemory>
        requires own { IsOf self.old proc }
        requires access { IsAccessing self.old proc.number }
        requires fits { answers self.old proc.number body.now ≡ true }
        requires range { IsBody proc.node body.now }
        ensures outcome { IfOk result (GoesOn self.old self.new proc.number (answer_of body.now)) }
        ensures never { IfOk result IsNoRefusal }
        ensures fits { IfOk result (λ access. ForSome (seen_access access) (λ o. (op : Op) → IsOpen self.old proc.number op → FitsTurn op o.turn)) }
        ensures asks { IfOk result (λ access. ForSome (seen_access access) (λ o. IsAsked self.new.nodes o.turn)) }
        ensures next { IfOk result (λ access. ForSome (seen_access access) (λ o.
            (op : Op) → IsOpen self.old proc.number op → IsNext self.new proc.number op o.turn)) }
        ensures ready { OnOk result (IsReady self.new proc.number) }
        ensures unchanged { OnErr result (self.new ≡ self.old) }
        ensures memory { OnErr result (ForSome (answer_of body.now) (λ answer. ForSome (page_answer self.old proc.number answer) (MayWantAt self.old))) }
        ensures node { self.new.node ≡ self.old.node }
        ensures nodes { self.new.nodes ≡ self.old.nodes }
    {
        self.kept(proc);
        self.answered(alloc, proc, body)
    }

    /// A home answers an access: what comes of it is what the definition says, and no more.
    fn answered(&mut self, alloc: Global, proc: ProcId, body: &Body) -> Result<Access, NoMemory>
        requires access { IsAccessing self.old proc.number }
        requires fits { answers self.old proc.number body.now ≡ true }
        requires range { IsBody proc.node body.now }
        ensures outcome { IfOk result (λ access. IfSome (said_to self.old proc.number (answer_of body.now)) (λ a. ComesTo proc.number self.new (page_came_of self.old proc.number a) access)) }
        ensures unchanged { OnErr result (self.new ≡ self.old) }
        ensures memory { OnErr result (IfSome (said_to self.old proc.number (answer_of body.now)) (MayWantAt self.old)) }
    {
        self.kept(proc);
        let transit = self.moved(proc, body);
        match body {
            Body::Page { stamp, bytes } => {
                self.page_in_came(
                    alloc,
                    proc,
                    transit.uid,
                    transit.page,
                    *stamp,
                    bytes.bytes(),
                )
            }
            Body::Stored { stamp } => self.page_taken(alloc, proc, transit, *stamp),
            Body::Stale { stamp } => self.page_stale(alloc, proc, transit, *stamp),
            _ => unreachable!(),
        }
    }

    /// The page that a process moves, whose answer this body is.
    fn moved(&self, proc: ProcId, body: &Body) -> Transit
        requires access { IsAccessing self.now proc.number }
        requires fits { answers self.now proc.number body.now ≡ true }
        ensures moves { moving_of self.now proc.number ≡ Some result }
        ensures fits { fits_way result.inward body.now ≡ true }
    {
        self.kept(proc);
        match transit_of(self.pages.moving(), proc) {
            Some(transit) => transit,
            None => unreachable!(),
        }
    }

    /// The bytes that the open load of a process takes from this page; None of a store.
    fn loaded(
        &self,
        alloc: Global,
        proc: ProcId,
        page: &[u8; PAGE_BYTES],
    ) -> Result<Option<ByteList>, NoMemory>
        requires { IsAccessing self.now proc.number }
        ensures { IfOk result (λ loaded. IfSome (task_of self.now proc.number) (λ task. loaded ≡ loaded_from page.now (start_of task) task.work)) }
    {
        self.kept(proc);
        match &self.tasks[index_of(proc)] {
            Some(task) => task.loaded(alloc, page),
            None => unreachable!(),
        }
    }

    /// Room for the bytes that the open load of a process takes from its page.
    fn room_for_bytes(&self, alloc: Global, proc: ProcId) -> Result<ByteRoom, NoMemory>
        requires { IsAccessing self.now proc.number }
        ensures { IfOk result (λ room. IfSome (task_of self.now proc.number) (λ task. loaded_size task.work ≤ room)) }
    {
        self.kept(proc);
        match &self.tasks[index_of(proc)] {
            Some(task) => task.room(alloc),
            None => unreachable!(),
        }
    }

    /// The page of a load or store came, or an old one, which is asked for again.
    fn page_in_came(
        &mut self,
        alloc: Global,
        proc: ProcId,
        uid: Uid,
        page: u32,
        stamp: u64,
        bytes: &[u8; PAGE_BYTES],
    ) -> Result<Access, NoMemory>
        requires access { IsAccessing self.old proc.number }
        requires coming { moving_of self.old proc.number ≡ coming uid page }
        requires stamp { 1 ≤ stamp }
        ensures outcome { IfOk result (ComesOfPage self.old self.new proc.number stamp bytes.now) }
        ensures unchanged { OnErr result (self.new ≡ self.old) }
        ensures memory { OnErr result (nat_lt stamp (base_of self.old.seen uid) ≡ false) }
    {
        self.kept(proc);
        if stamp < self.seen.of(uid).unwrap_or(0) {
            return Ok(asked_again(alloc, uid, page));
        }
        // What wants memory comes first.
        let loaded = self.loaded(alloc, proc, bytes)?;
        let task = self.arrive(proc, uid, page, bytes)?;
        self.raise(uid, stamp);
        let reply = self.perform(proc, task, loaded);
        Ok(Access::done(alloc, reply))
    }

    /// The reply to a load or store at its page, which was used last, with the bytes that a load takes from it.
    /// Takes no memory.
    fn perform(&mut self, proc: ProcId, task: Task, loaded: Option<ByteList>) -> Reply
        requires resident { IsResident self.old.cache.pages task.uid (page_of task) }
        requires last { with_used self.old task.uid (page_of task) ≡ self.old }
        requires loaded { IfSome (page_at self.old.cache.pages task.uid (page_of task)) (λ r. loaded ≡ loaded_from r.bytes (start_of task) task.work) }
        requires allowed { IsAllowed self.old.entries proc.number task }
        ensures { IfSome (page_at self.old.cache.pages task.uid (page_of task)) (λ r. GivesTo self.new (performed self.old task task.work r) (Access.Hit result [])) }
    {
        match loaded {
            Some(bytes) => Reply::Bytes(bytes),
            None => match &task.work {
                Work::Store(bytes) => {
                    self.store_last(proc, task.uid, task.offset, bytes.bytes());
                    Reply::Fine
                }
                Work::Load(_) => unreachable!(),
            },
        }
    }

    /// The home took the page that makes room: the access is made anew. Not inlined, so that a page that comes
    /// costs no room for another.
    #[inline(never)]
    fn page_taken(
        &mut self,
        alloc: Global,
        proc: ProcId,
        transit: Transit,
        stamp: u64,
    ) -> Result<Access, NoMemory>
        requires access { IsAccessing self.old proc.number }
        requires going { moving_of self.old proc.number ≡ going transit.uid transit.page }
        requires stamp { 1 ≤ stamp }
        ensures outcome { IfOk result (ComesOfRoom self.old self.new proc.number transit stamp) }
        ensures unchanged { OnErr result (self.new ≡ self.old) }
    {
        self.kept(proc);
        // What wants memory comes first.
        let room = self.room_for_bytes(alloc, proc)?;
        let spare = self.spare(alloc)?;
        let task = self.settle_room(proc, transit.uid, transit.page, true);
        self.raise(transit.uid, stamp);
        Ok(self.access_anew(alloc, proc, task, room, spare))
    }

    /// A load or store that passed its local tests, with room for the bytes that a load takes from its page and what
    /// making room may want. Takes no memory.
    fn access_anew(
        &mut self,
        alloc: Global,
        proc: ProcId,
        task: Task,
        room: ByteRoom,
        spare: Option<PageRoom>,
    ) -> Access
        requires idle { IsIdle self.old proc.number }
        requires allowed { IsAllowed self.old.entries proc.number task }
        requires bytes { loaded_size task.work ≤ room }
        requires room { (0 < free_count self.old.cache) ⊎ IsSome spare }
        ensures outcome { ComesTo proc.number self.new (page_access self.old proc.number task) result }
    {
        match &task.work {
            Work::Load(count) => {
                match self.load_page(room, task.uid, task.page(), task.start(), *count) {
                    Some(bytes) => Access::done(alloc, Reply::Bytes(bytes)),
                    None => self.missed(alloc, proc, task, spare),
                }
            }
            Work::Store(bytes) => {
                if self.store_page(proc, task.uid, task.offset, bytes.bytes()) {
                    Access::done(alloc, Reply::Fine)
                } else {
                    self.missed(alloc, proc, task, spare)
                }
            }
        }
    }

    /// The home did not take it, since its base was another stamp: it is sent again.
    #[inline(never)]
    fn page_stale(
        &mut self,
        alloc: Global,
        proc: ProcId,
        transit: Transit,
        stamp: u64,
    ) -> Result<Access, NoMemory>
        requires access { IsAccessing self.old proc.number }
        requires going { moving_of self.old proc.number ≡ going transit.uid transit.page }
        requires stamp { 1 ≤ stamp }
        ensures outcome { IfOk result (λ access. IfSome (page_at self.old.cache.pages transit.uid transit.page) (λ r. GivesTo self.new (room_sent_again (with_raised self.old r.uid stamp) r) access)) }
        ensures unchanged { OnErr result (self.new ≡ self.old) }
    {
        self.kept(proc);
        // What wants memory comes first.
        let place = page_room(alloc)?;
        self.raise(transit.uid, stamp);
        let body = self.page_out(transit.uid, transit.page, place);
        self.send_again(proc, transit.uid, transit.page);
        Ok(Access::Need(transit.uid.home(), body, Dropped::new(alloc)))
    }

    /// A link fault ended the call of a process's load or store: what it moved is in transit no more.
    /// Takes no memory.
    pub fn access_failed(&mut self, proc: ProcId) -> Reply
        requires own { IsOf self.old proc }
        requires access { IsAccessing self.old proc.number }
        ensures reply { result ≡ Reply.LinkFault }
        ensures desk { ForSome (moving_of self.old proc.number) (λ t. self.new ≡ access_failed_of self.old proc.number t) }
        ensures next { IsIdle self.new proc.number }
        ensures node { self.new.node ≡ self.old.node }
        ensures nodes { self.new.nodes ≡ self.old.nodes }
    {
        self.failed(proc);
        Reply::LinkFault
    }

    /// What a process's load or store moved is in transit no more, as the definition says.
    fn failed(&mut self, proc: ProcId)
        requires access { IsAccessing self.old proc.number }
        ensures desk { IfSome (moving_of self.old proc.number) (λ t. self.new ≡ access_failed_of self.old proc.number t) }
        ensures next { IsIdle self.new proc.number }
        ensures node { self.new.node ≡ self.old.node }
        ensures nodes { self.new.nodes ≡ self.old.nodes }
    {
        let Some(transit) = transit_of(self.pages.moving(), proc) else {
            unreachable!()
        };
        if transit.inward {
            self.lose(proc, transit.uid, transit.page);
        } else {
            let _task = self.settle_room(proc, transit.uid, transit.page, false);
        }
    }
}

/// A page is asked for again, since an old one came.
#[inline(never)]
fn asked_again(alloc: Global, uid: Uid, page: u32) -> Access
    ensures { result ≡ Access.Need uid.home (Body.PageIn uid page) [] }
{
    Access::Need(uid.home(), Body::PageIn { uid, page }, Dropped::new(alloc))
}
