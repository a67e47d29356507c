//! The desk of a node.
ghost use Rattle.std.specs.Prelude.{◌≡◌, ◌+◌, ◌*◌, ◌≤◌, [], ◌∷◌, nat_lt, length, Some, None, IfOk, IfSome, is_some};
ghost use Rattle.std.specs.Bool.{OnTrue};
ghost use Rattle.dom_history.specs.Locks.{is_held};
ghost use Rattle.page_cache.specs.Caches.{IsResident};
ghost use Rattle.page_cache.specs.Numbers.{dirty_page};
ghost use Rattle.version_stamps.specs.Stamps.{stamp_of};
ghost use Rattle.fault_handler.specs.Lengths.{known_of, changed_length, length_of, room_of};
ghost use Rattle.fault_handler.specs.Entries.{grant_in};
ghost use Rattle.fault_handler.specs.Desks.{entries_of, state_of, entry_at, open_call_of, others_keep, other_transit, is_in_transit_there};
ghost use Rattle.fault_handler.specs.LockCalls.{answers};
ghost use Rattle.fault_handler.specs.Invariant.{IsProc, IsDesk};
ghost use Rattle.fault_handler.specs.Conditions.{IsOf, IsIdle, is_idle, empty_desk, held_grant};

mod accesses;
mod calls;
mod changes;
mod replies;

use crate::entries::EntryTable;
use crate::four::{in_transit, index_of, other_transit, others_keep, transit_of};
use crate::lengths::Known;
use crate::open_call::OpenCall;
use crate::pages::ResidentPages;
use crate::spare::PageRoom;
use crate::tasks::Task;
use address_map::AddressMap;
use dom_history::LockState;
use page_frames::{FEWEST_FRAMES, MOST_FRAMES};
use ring_messages::Body;
use std::alloc::Global;
use std::marker::Model;
use uid_names::{
    ByteList, MAX_NODES, NODE_PROCESSES, NoMemory, NodeId, PAGE_BYTES, PROCESS_LOCKS, ProcId, Uid,
    UidTable,
};
use version_stamps::Seen;

/// The desk of a node: its cached pages, the stamps that it has seen, what it knows of objects, and
/// for each of its four processes the locks, the mappings, the open call, the load or store that is
/// open, and the page that it moves.
pub struct Desk {
    node: NodeId,
    nodes: u8,
    pages: ResidentPages,
    seen: Seen,
    known: UidTable<Known>,
    entries: [EntryTable; NODE_PROCESSES],
    maps: [AddressMap; NODE_PROCESSES],
    calls: [Option<OpenCall>; NODE_PROCESSES],
    tasks: [Option<Task>; NODE_PROCESSES],
    // Room for the bytes of a page, from a miss that sent none home.
    spare: Option<PageRoom>,
}

// Of its own, so that what drops one calls this and does not take it apart in place.
impl Drop for Desk {
    fn drop(self) {
        let Desk {
            node: _,
            nodes: _,
            pages: _,
            seen: _,
            known: _,
            entries: _,
            maps: _,
            calls: _,
            tasks: _,
            spare: _,
        } = self;
    }
}

impl Model for Desk {
    ghost use Rattle.fault_handler.specs.Desks.{DeskState};

    ghost Value = { DeskState };

    ghost use Rattle.fault_handler.specs.Insides.{desk_of};
    ghost use Rattle.fault_handler.specs.Invariant.{IsDesk};

    ghost view = { desk_of };

    ghost invariant = { λ d. IsDesk (desk_of d) };
}

/// What four processes know of their locks, which are none.
fn no_locks(alloc: Global) -> Result<[EntryTable; NODE_PROCESSES], NoMemory>
    ensures { IfOk result (λ tables. tables ≡ [] ∷ [] ∷ [] ∷ [] ∷ []) }
{
    Ok([
        EntryTable::new(alloc)?,
        EntryTable::new(alloc)?,
        EntryTable::new(alloc)?,
        EntryTable::new(alloc)?,
    ])
}

/// The mappings of four processes, which are none.
fn no_mappings(alloc: Global) -> Result<[AddressMap; NODE_PROCESSES], NoMemory>
    ensures { IfOk result (λ maps. maps ≡ [] ∷ [] ∷ [] ∷ [] ∷ []) }
{
    Ok([
        AddressMap::new(alloc)?,
        AddressMap::new(alloc)?,
        AddressMap::new(alloc)?,
        AddressMap::new(alloc)?,
    ])
}

impl Desk {
    /// The desk of a node, of so many nodes, with so many page frames: no page, no lock, no mapping.
    pub fn new(alloc: Global, node: NodeId, nodes: u8, frames: u16) -> Result<Desk, NoMemory>
        requires nodes_low { 1 ≤ nodes }
        requires nodes_high { nodes ≤ MAX_NODES }
        requires frames_low { FEWEST_FRAMES ≤ frames }
        requires frames_high { frames ≤ MOST_FRAMES }
        ensures { IfOk result (λ desk. desk ≡ empty_desk node nodes frames) }
    {
        // What may find no memory comes first, so that little is given back there.
        let entries = no_locks(alloc)?;
        let maps = no_mappings(alloc)?;
        let pages = ResidentPages::new(alloc, frames)?;
        Ok(Desk {
            node,
            nodes,
            pages,
            seen: Seen::new(alloc),
            known: UidTable::new(alloc),
            entries,
            maps,
            calls: [None; NODE_PROCESSES],
            tasks: [None, None, None, None],
            spare: None,
        })
    }

    /// Whether a process may begin an operation or go on with one: no call of it is open, it moves no
    /// page, and it keeps each object on which it is Held. Takes no memory.
    pub fn is_idle(&self, proc: ProcId) -> bool
        requires { IsOf self.now proc }
        ensures value { result ≡ is_idle self.now proc.number }
        ensures idle { OnTrue result (IsIdle self.now proc.number) }
    {
        self.may_go_on(proc)
    }

    /// Whether a process of that number may begin or go on.
    fn may_go_on(&self, proc: ProcId) -> bool
        ensures { result ≡ is_idle self.now proc.number }
    {
        let at = index_of(proc);
        self.calls[at].is_none()
            && self.pages.moving()[at].is_none()
            && self.entries[at].keeps_all()
    }

    /// The node. Takes no memory.
    pub fn node(&self) -> NodeId
        ensures { result ≡ self.now.node }
    {
        self.node
    }

    /// How many nodes there are. Takes no memory.
    pub fn nodes(&self) -> u8
        ensures { result ≡ self.now.nodes }
    {
        self.nodes
    }

    /// A process's state on an object. Takes no memory.
    pub fn state(&self, proc: ProcId, uid: Uid) -> LockState
        requires { IsOf self.now proc }
        ensures value { result ≡ state_of self.now proc.number uid }
        ensures kept { IsDesk self.now }
    {
        self.entries[index_of(proc)].state(uid)
    }

    /// On how many objects a process is not Free. Takes no memory.
    pub fn not_free(&self, proc: ProcId) -> u8
        requires { IsOf self.now proc }
        ensures count { result ≡ length (entries_of self.now proc.number) }
        ensures few { result ≤ PROCESS_LOCKS }
    {
        self.entries[index_of(proc)].count()
    }

    /// A process's grant on an object; None exactly where it is not Held. Takes no memory.
    pub fn grant(&self, proc: ProcId, uid: Uid) -> Option<u64>
        requires { IsOf self.now proc }
        ensures { result ≡ held_grant (is_held (state_of self.now proc.number uid)) (grant_in (entry_at self.now.entries proc.number uid)) }
    {
        let table = &self.entries[index_of(proc)];
        if table.state(uid).is_held() {
            Some(table.grant(uid))
        } else {
            None
        }
    }

    /// Whether another process of the node keeps an object. Takes no memory.
    pub fn others_keep(&self, proc: ProcId, uid: Uid) -> bool
        requires { IsOf self.now proc }
        ensures { result ≡ others_keep self.now.entries proc.number uid }
    {
        others_keep(&self.entries, proc.number(), uid)
    }

    /// The lowest page of an object that another process has in transit, either way. Takes no memory.
    pub fn other_transit(&self, proc: ProcId, uid: Uid) -> Option<u32>
        requires { IsOf self.now proc }
        ensures value { result ≡ other_transit self.now.moving proc.number uid }
        ensures kept { IsDesk self.now }
    {
        other_transit(self.pages.moving(), proc.number(), uid)
    }

    /// Whether a process of the node has a page in transit, either way. Takes no memory.
    pub fn in_transit(&self, uid: Uid, page: u32) -> bool
        ensures { result ≡ is_in_transit_there self.now.moving uid page }
    {
        in_transit(self.pages.moving(), uid, page)
    }

    /// Whether a body is an answer to the open call of a process. Takes no memory.
    pub fn answers(&self, proc: ProcId, body: &Body) -> bool
        requires { IsOf self.now proc }
        ensures { result ≡ answers self.now proc.number body.now }
    {
        match self.calls[index_of(proc)] {
            Some(call) => self.is_answered(proc, call, body),
            None => false,
        }
    }

    /// Whether it is an answer to this open call.
    fn is_answered(&self, proc: ProcId, call: OpenCall, body: &Body) -> bool
        requires { open_call_of self.now proc.number ≡ Some call }
        ensures { result ≡ answers self.now proc.number body.now }
    {
        self.kept(proc);
        if !call.is_access() {
            return call.takes(body);
        }
        match transit_of(self.pages.moving(), proc) {
            Some(transit) => transit.takes(body),
            None => unreachable!(),
        }
    }

    /// The lowest dirty page of an object. Takes no memory.
    pub fn dirty_page(&self, uid: Uid) -> Option<u32>
        ensures lowest { result ≡ dirty_page self.now.cache.pages uid }
        ensures resident { IfSome result (IsResident self.now.cache.pages uid) }
    {
        self.pages.dirty_of(uid)
    }

    /// An object's known length, where it was changed at this node. Takes no memory.
    pub fn changed_length(&self, uid: Uid) -> Option<u32>
        ensures { result ≡ changed_length (known_of uid self.now.known) }
    {
        match self.known.of(uid) {
            Some(known) if known.changed => Some(known.length),
            _ => None,
        }
    }

    /// The stamp that was seen of an object. Takes no memory.
    pub fn seen(&self, uid: Uid) -> Option<u64>
        ensures { result ≡ stamp_of uid self.now.seen }
    {
        self.seen.of(uid)
    }

    /// A process's open call. Takes no memory.
    pub fn open_call(&self, proc: ProcId) -> Option<OpenCall>
        requires { IsOf self.now proc }
        ensures value { result ≡ open_call_of self.now proc.number }
        ensures kept { IsDesk self.now }
    {
        self.calls[index_of(proc)]
    }

    /// What each desk keeps, and which numbers processes have: for the check alone.
    fn kept(&self, proc: ProcId)
        ensures desk { IsDesk self.now }
        ensures process { IsProc proc.number }
    {
        let _node = self.node;
        let _number = proc.number();
    }

    /// A process's state on an object.
    fn lock_state(&self, proc: ProcId, uid: Uid) -> LockState
        ensures { result ≡ state_of self.now proc.number uid }
    {
        self.entries[index_of(proc)].state(uid)
    }

    /// Whether so many bytes of an object, from an offset on, end past its known length.
    fn ends_past(&self, uid: Uid, offset: u32, count: u32) -> bool
        ensures { result ≡ nat_lt (length_of (known_of uid self.now.known)) (offset + count) }
    {
        u64::from(self.length_of(uid)) < u64::from(offset) + u64::from(count)
    }

    /// Whether these bytes, at an offset of an object, end past its known room.
    fn ends_past_room(&self, uid: Uid, offset: u32, bytes: &ByteList) -> bool
        requires { length bytes.now ≤ PAGE_BYTES }
        ensures { result ≡ nat_lt (PAGE_BYTES * room_of (known_of uid self.now.known)) (offset + length bytes.now) }
    {
        let end = u64::from(offset) + bytes.bytes().len() as u64;
        PAGE_BYTES as u64 * u64::from(self.room_of(uid)) < end
    }

    /// The known length of an object; 0 without one.
    fn length_of(&self, uid: Uid) -> u32
        ensures { result ≡ length_of (known_of uid self.now.known) }
    {
        match self.known.of(uid) {
            Some(known) => known.length,
            None => 0,
        }
    }

    /// The known room of an object; 0 without one.
    fn room_of(&self, uid: Uid) -> u32
        ensures { result ≡ room_of (known_of uid self.now.known) }
    {
        match self.known.of(uid) {
            Some(known) => known.room,
            None => 0,
        }
    }
}
