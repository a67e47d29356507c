//! The further calls by which locking and unlocking read and change a desk.
ghost use Rattle.std.specs.Prelude.{◌≡◌, ◌⊎◌, ◌≤◌, ◌<◌, ◌*◌, ℕ, true, false, length, Some, None, IsSome, is_some, IfOk, IfSome, OnOk, OnErr};
ghost use Rattle.uid_names.specs.Rooms.{IsRoom, IsLength};
ghost use Rattle.dom_history.specs.Locks.{is_free, is_held};
ghost use Rattle.page_cache.specs.Caches.{IsResident, page_at};
ghost use Rattle.page_cache.specs.Numbers.{resident_pages};
ghost use Rattle.version_stamps.specs.Stamps.{stamp_of};
ghost use Rattle.ring_messages.specs.Bodies.{body_of_ask};
ghost use Rattle.fault_handler.specs.Entries.{keeps};
ghost use Rattle.fault_handler.specs.Lengths.{known_of, is_changed};
ghost use Rattle.fault_handler.specs.Transits.{going};
ghost use Rattle.fault_handler.specs.Desks.{IsNode, entries_of, entry_at, state_of, moving_of, any_keeps, others_write, is_in_transit_there};
ghost use Rattle.fault_handler.specs.Invariant.{is_dirty, IsCallAtNode};
ghost use Rattle.fault_handler.specs.Changes.{with_state, with_note, with_raised, with_forgotten, with_page_done, with_length_done, with_call, with_sent_page, with_known_row, with_seen, with_no_page};
ghost use Rattle.fault_handler.specs.Accesses.{own_page_out};
ghost use Rattle.fault_handler.specs.Conditions.{IsOf, IsNotAccessing, IsOther};

use super::Desk;
use crate::four::{index_of, transit_of};
use crate::lengths::Known;
use crate::open_call::OpenCall;
use dom_history::LockState;
use page_cache::PageList;
use ring_messages::{Body, PageBytes};
use std::alloc::Global;
use uid_names::{NoMemory, PROCESS_LOCKS, ProcId, Uid};

impl Desk {
    /// Sets a process's state on an object, with the grant where it is Held. Takes no memory.
    pub fn set_state(&mut self, proc: ProcId, uid: Uid, state: LockState, grant: u64)
        requires own { IsOf self.old proc }
        requires room { (is_free state ≡ true) ⊎ IsSome (entry_at self.old.entries proc.number uid)
            ⊎ (length (entries_of self.old proc.number) < PROCESS_LOCKS) }
        // A process that is Held has noted its release or removal before.
        requires given_up { keeps (entry_at self.old.entries proc.number uid) ≡ false }
        requires seen { is_held state ≡ true → IsSome (stamp_of uid self.old.seen) }
        requires grant { is_held state ≡ true → 1 ≤ grant }
        requires home { is_free state ≡ false → IsNode self.old.nodes uid.home }
        ensures { self.new ≡ with_state self.old proc.number uid state grant }
    {
        let table = &mut self.entries[index_of(proc)];
        table.set_state(uid, state, grant);
    }

    /// Notes that a process's release or removal was sent, which counts until the process is Held on
    /// the object anew. Takes no memory.
    pub fn note_release(&mut self, proc: ProcId, uid: Uid)
        requires own { IsOf self.old proc }
        requires held { is_held (state_of self.old proc.number uid) ≡ true }
        requires other { IsNotAccessing self.old proc.number }
        // What is dirty, and a length that was changed, another process still answers for; a page that goes
        // home, the process that sent it.
        requires dirty { (page : ℕ) → is_dirty (page_at self.old.cache.pages uid page) ≡ true
            → others_write self.old.entries proc.number uid ≡ true }
        requires changed { is_changed (known_of uid self.old.known) ≡ true → others_write self.old.entries proc.number uid ≡ true }
        requires still { moving_of self.old proc.number ≡ None }
        ensures { self.new ≡ with_note self.old proc.number uid }
    {
        let table = &mut self.entries[index_of(proc)];
        table.note(uid);
    }

    /// The seen stamp of an object becomes the greater of both. Takes no memory.
    pub fn raise_seen(&mut self, uid: Uid, stamp: u64)
        requires known { IsSome (stamp_of uid self.old.seen) }
        requires stamp { 1 ≤ stamp }
        ensures { self.new ≡ with_raised self.old uid stamp }
    {
        self.raise(uid, stamp);
    }

    /// The seen stamp of an object is forgotten. Takes no memory.
    pub fn forget_seen(&mut self, uid: Uid)
        requires { any_keeps self.old.entries uid ≡ false }
        ensures { self.new ≡ with_forgotten self.old uid }
    {
        self.seen.forget(uid);
    }

    /// Ends the transit of the page that a process sent home, which is clean now where the home took it
    /// and it was not changed since the sending. Takes no memory.
    pub fn page_done(&mut self, proc: ProcId, taken: bool)
        requires own { IsOf self.old proc }
        requires other { IsNotAccessing self.old proc.number }
        ensures done { self.new ≡ with_page_done self.old proc.number taken }
        ensures node { self.new.node ≡ self.old.node }
    {
        if let Some(transit) = transit_of(self.pages.moving(), proc) {
            self.pages.settle(proc, transit.uid, transit.page, taken);
        }
    }

    /// Settles a length that was sent: where the home took it, and the known length of the object is still
    /// this one, it counts as unchanged. Takes no memory.
    pub fn length_done(&mut self, uid: Uid, length: u32, taken: bool)
        ensures done { self.new ≡ with_length_done self.old uid length taken }
        ensures node { self.new.node ≡ self.old.node }
    {
        if taken {
            self.length_taken(uid, length);
        }
    }

    /// The known length of an object counts as unchanged where it is this one, which the home took.
    fn length_taken(&mut self, uid: Uid, length: u32)
        ensures { self.new ≡ with_length_done self.old uid length true }
    {
        if let Some(known) = self.known.of(uid) {
            self.known.replace(known.sent(length));
        }
    }

    /// Sets a process's open call, which neither is nor was that of a load or store. Takes no memory.
    pub fn set_open_call(&mut self, proc: ProcId, call: Option<OpenCall>)
        requires own { IsOf self.old proc }
        requires other { IsNotAccessing self.old proc.number }
        requires call { IsOther call }
        requires home { IfSome call (IsCallAtNode self.old.nodes) }
        ensures { self.new ≡ with_call self.old proc.number call }
    {
        self.calls[index_of(proc)] = call;
    }

    /// Sends a page home under the process's own grant, with the seen stamp as base: the page is in
    /// transit and counts as sent. Without memory nothing changes.
    pub fn send_page(
        &mut self,
        alloc: Global,
        proc: ProcId,
        uid: Uid,
        page: u32,
    ) -> Result<Body, NoMemory>
        requires own { IsOf self.old proc }
        requires keeps { keeps (entry_at self.old.entries proc.number uid) ≡ true }
        requires other { IsNotAccessing self.old proc.number }
        requires alone { (moving_of self.old proc.number ≡ None) ⊎ (moving_of self.old proc.number ≡ going uid page) }
        requires resident { IsResident self.old.cache.pages uid page }
        requires still { (moving_of self.old proc.number ≡ None) → is_in_transit_there self.old.moving uid page ≡ false }
        ensures unchanged { OnErr result (self.new ≡ self.old) }
        ensures desk { OnOk result (self.new ≡ with_sent_page self.old proc.number uid page) }
        ensures body { IfOk result (λ body. IfSome (page_at self.old.cache.pages uid page) (λ r. body ≡ body_of_ask (own_page_out self.old proc.number uid page r.bytes))) }
    {
        let at = index_of(proc);
        let body = Body::PageOut {
            uid,
            page,
            grant: self.entries[at].grant(uid),
            base: self.seen.of(uid).unwrap_or(0),
            bytes: PageBytes::new(alloc, self.pages.bytes(uid, page))?,
        };
        self.pages.send(proc, uid, page);
        Ok(body)
    }

    /// Sets the seen stamp, the room and the known length of an object; the length counts as unchanged.
    /// Wants memory only where no stamp of the object was seen, and without it nothing changes.
    pub fn know(&mut self, uid: Uid, stamp: u64, room: u32, length: u32) -> Result<(), NoMemory>
        requires stamp { 1 ≤ stamp }
        requires room { IsRoom room }
        requires length { IsLength length }
        ensures known { OnOk result (self.new ≡ with_seen (with_known_row self.old (record { uid = uid; room = room; length = length; changed = false })) uid stamp) }
        ensures unchanged { OnErr result (self.new ≡ self.old) }
        ensures memory { OnErr result (is_some (stamp_of uid self.old.seen) ≡ false) }
    {
        self.seen.set(uid, stamp)?;
        let row = Known {
            uid,
            room,
            length,
            changed: false,
        };
        match self.known.set(row) {
            Ok(()) => Ok(()),
            // Nothing was known of the object, so there was no stamp.
            Err(NoMemory) => {
                self.seen.forget(uid);
                Err(NoMemory)
            }
        }
    }

    /// Drops all pages of an object, and tells which they were, rising. Without memory nothing changes.
    pub fn drop_pages(&mut self, alloc: Global, uid: Uid) -> Result<PageList, NoMemory>
        requires clean { (page : ℕ) → is_dirty (page_at self.old.cache.pages uid page) ≡ false }
        requires still { (page : ℕ) → is_in_transit_there self.old.moving uid page ≡ false }
        ensures dropped { IfOk result (λ pages. pages ≡ resident_pages self.old.cache.pages uid) }
        ensures desk { OnOk result (self.new ≡ with_no_page self.old uid) }
        ensures unchanged { OnErr result (self.new ≡ self.old) }
    {
        let pages = self.pages.pages_of(alloc, uid)?;
        self.pages.drop_object(uid);
        Ok(pages)
    }
}
