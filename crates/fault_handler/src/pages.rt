//! A node's resident pages by their names, and the pages that its processes move. Which frame a page is in stays in here.
ghost use Rattle.std.specs.Prelude.{◌≡◌, ◌⊎◌, ℕ, ◌+◌, ◌-◌, ◌<◌, ◌≤◌, List, [], ◌∷◌, length, take, drop, false, not, ◌&&◌, is_some, Some, None, IfOk, IfSome, IfNone, OnOk, OnErr};
ghost use Rattle.std.specs.Bool.{OnTrue, OnFalse};
ghost use Rattle.std.specs.Option.{option_map};
ghost use Rattle.page_cache.specs.Caches.{IsCache, IsResident, IsFrame, page_at, page_in, free_count};
ghost use Rattle.page_cache.specs.Changes.{changed_in, used, without_page, without_object};
ghost use Rattle.page_cache.specs.Victims.{name_of};
ghost use Rattle.page_cache.specs.Numbers.{dirty_page, resident_pages};
ghost use Rattle.fault_handler.specs.ShownPages.{changed_page, stored, written, as_sent, settled};
ghost use Rattle.fault_handler.specs.Transits.{coming, going};
ghost use Rattle.fault_handler.specs.Desks.{at, put_at};
ghost use Rattle.fault_handler.specs.Victims.{named_page};
ghost use Rattle.fault_handler.specs.Invariant.{AreApart};
ghost use Rattle.fault_handler.specs.Unseen.{repaged, arrived};

use crate::four::index_of;
use crate::tasks::copied;
use crate::transits::Transit;
use page_cache::{Cache, PageList};
use page_frames::{FEWEST_FRAMES, Flags, FrameNo, MOST_FRAMES};
use std::alloc::Global;
use std::marker::Model;
use uid_names::{ByteList, ByteRoom, NODE_PROCESSES, NoMemory, PAGE_BYTES, ProcId, Uid};

/// The frame of a resident page.
fn frame_of(cache: &Cache, uid: Uid, page: u32) -> FrameNo
    requires { IsResident cache.now.pages uid page }
    ensures in_it { page_in cache.now.pages result ≡ page_at cache.now.pages uid page }
    ensures is_frame { IsFrame cache.now.pages result }
    ensures cache { IsCache cache.now }
{
    match cache.find(uid, page) {
        Some(frame) => frame,
        None => unreachable!(),
    }
}

/// The flags of a page that is on its way home no more: clean where its home took it and it was not
/// changed since it was sent.
fn settled_flags(flags: Flags, taken: bool) -> Flags
    ensures { result
        ≡ record { dirty = flags.dirty && not (taken && flags.sent); sent = flags.sent; transit = false } }
{
    Flags {
        dirty: flags.dirty && !(taken && flags.sent),
        sent: flags.sent,
        transit: false,
    }
}

/// Stores bytes in the page of a frame.
fn write(cache: &mut Cache, frame: FrameNo, start: u32, bytes: &[u8])
    requires frame { IsFrame cache.old.pages frame }
    requires sound { IsCache cache.old }
    requires within { start + length bytes.now ≤ PAGE_BYTES }
    ensures { cache.new ≡ record cache.old { pages = changed_in frame (written start bytes.now) cache.old.pages } }
{
    let flags = cache.flags(frame);
    cache.write(frame, start, bytes);
    cache.set_flags(
        frame,
        Flags {
            dirty: true,
            sent: false,
            transit: flags.transit,
        },
    );
}

/// The resident pages, the last used first, the reserved frames, and the page that each process moves. That a page is on
/// its way home is said by the process that moves it; the flag of its frame follows.
#[derive(Drop)]
pub(crate) struct ResidentPages {
    cache: Cache,
    moving: [Option<Transit>; NODE_PROCESSES],
}

impl Model for ResidentPages {
    ghost use Rattle.fault_handler.specs.Unseen.{Paged, paged, AreFour};

    ghost Value = { Paged };

    ghost view = { λ p. paged p.cache p.moving };

    ghost invariant = { λ p. AreFour p.cache.pages p.moving };
}

impl ResidentPages {
    /// No page is resident, no frame is reserved, and no page moves.
    pub(crate) fn new(alloc: Global, frames: u16) -> Result<ResidentPages, NoMemory>
        requires few { FEWEST_FRAMES ≤ frames }
        requires many { frames ≤ MOST_FRAMES }
        ensures { IfOk result (λ pages. pages
            ≡ record { cache = record { frames = frames; reserved = 0; pages = [] }; moving = None ∷ None ∷ None ∷ None ∷ [] }) }
    {
        let cache = Cache::new(alloc, frames)?;
        Ok(ResidentPages {
            cache,
            moving: [None; NODE_PROCESSES],
        })
    }

    /// The page that each process moves.
    pub(crate) fn moving(&self) -> &[Option<Transit>; NODE_PROCESSES]
        ensures { result.now ≡ self.now.moving }
    {
        &self.moving
    }

    /// How many frames are neither taken nor reserved.
    pub(crate) fn free(&self) -> u16
        ensures value { result ≡ free_count self.now.cache }
        ensures room { length self.now.cache.pages + self.now.cache.reserved ≤ self.now.cache.frames }
    {
        self.cache.free()
    }

    /// Whether a page is dirty; None where it is not resident.
    pub(crate) fn is_dirty(&self, uid: Uid, page: u32) -> Option<bool>
        ensures { result ≡ option_map (λ r. r.flags.dirty) (page_at self.now.cache.pages uid page) }
    {
        match self.cache.find(uid, page) {
            Some(frame) => Some(self.cache.flags(frame).dirty),
            None => None,
        }
    }

    /// So many bytes of a page, from one on, where there is room for them; the page becomes the last used
    /// one. None where it is not resident. Takes no memory. Inlined, as are those beside it that hand on the
    /// room: else it is stored and read again at each load.
    #[inline(always)]
    pub(crate) fn load(
        &mut self,
        room: ByteRoom,
        uid: Uid,
        page: u32,
        start: u32,
        count: u32,
    ) -> Option<ByteList>
        requires within { start + count ≤ PAGE_BYTES }
        requires room { count ≤ room }
        ensures bytes { result ≡ option_map (λ r. take count (drop start r.bytes)) (page_at self.old.cache.pages uid page) }
        ensures used { IfSome result (λ _. self.new ≡ repaged self.old (used self.old.cache.pages uid page)) }
        ensures absent { IfNone result (page_at self.old.cache.pages uid page ≡ None) }
        ensures left { IfNone result (self.new ≡ self.old) }
    {
        let Some(frame) = self.cache.use_page(uid, page) else {
            return None;
        };
        let bytes = copied(room, self.cache.bytes(frame), start, count);
        Some(bytes)
    }

    /// The bytes of a resident page.
    pub(crate) fn bytes(&self, uid: Uid, page: u32) -> &[u8; PAGE_BYTES]
        requires { IsResident self.now.cache.pages uid page }
        ensures { option_map (λ r. r.bytes) (page_at self.now.cache.pages uid page) ≡ Some result.now }
    {
        self.cache.bytes(frame_of(&self.cache, uid, page))
    }

    /// Stores bytes in a page, which becomes the last used one, if it is resident: tells whether it is.
    pub(crate) fn store(&mut self, uid: Uid, page: u32, start: u32, bytes: &[u8]) -> bool
        requires within { start + length bytes.now ≤ PAGE_BYTES }
        ensures resident { result ≡ is_some (page_at self.old.cache.pages uid page) }
        ensures stored { OnTrue result (self.new ≡ repaged self.old (stored uid page start bytes.now self.old.cache.pages)) }
        ensures absent { OnFalse result (page_at self.old.cache.pages uid page ≡ None) }
        ensures left { OnFalse result (self.new ≡ self.old) }
    {
        match self.cache.use_page(uid, page) {
            Some(frame) => {
                write(&mut self.cache, frame, start, bytes);
                true
            }
            None => false,
        }
    }

    /// Stores bytes in a resident page, which stays in its place in the order of use.
    pub(crate) fn store_in_place(&mut self, uid: Uid, page: u32, start: u32, bytes: &[u8])
        requires resident { IsResident self.old.cache.pages uid page }
        requires within { start + length bytes.now ≤ PAGE_BYTES }
        ensures { self.new ≡ repaged self.old (changed_page uid page (written start bytes.now) self.old.cache.pages) }
    {
        let frame = frame_of(&self.cache, uid, page);
        write(&mut self.cache, frame, start, bytes);
    }

    /// A process sends a page home, or sends it again: it is on its way, and not changed since.
    pub(crate) fn send(&mut self, proc: ProcId, uid: Uid, page: u32)
        requires resident { IsResident self.old.cache.pages uid page }
        requires alone { (at self.old.moving proc.number None ≡ None) ⊎ (at self.old.moving proc.number None ≡ going uid page) }
        ensures { self.new
            ≡ record { cache = record self.old.cache { pages = changed_page uid page as_sent self.old.cache.pages }; moving = put_at self.old.moving proc.number (going uid page) } }
    {
        let frame = frame_of(&self.cache, uid, page);
        let flags = self.cache.flags(frame);
        self.cache.set_flags(
            frame,
            Flags {
                dirty: flags.dirty,
                sent: true,
                transit: true,
            },
        );
        self.moving[index_of(proc)] = Some(Transit {
            uid,
            page,
            inward: false,
        });
    }

    /// The page that a process sent home is on its way no more; it is clean where its home took it and it was not changed
    /// since it was sent.
    pub(crate) fn settle(&mut self, proc: ProcId, uid: Uid, page: u32, taken: bool)
        requires resident { IsResident self.old.cache.pages uid page }
        requires moves { at self.old.moving proc.number None ≡ going uid page }
        requires apart { AreApart self.old.moving }
        ensures { self.new
            ≡ record { cache = record self.old.cache { pages = changed_page uid page (settled taken) self.old.cache.pages }; moving = put_at self.old.moving proc.number None } }
    {
        let frame = frame_of(&self.cache, uid, page);
        let flags = self.cache.flags(frame);
        self.cache.set_flags(frame, settled_flags(flags, taken));
        self.moving[index_of(proc)] = None;
    }

    /// A page comes to a process from its home, into a free frame, which is reserved.
    pub(crate) fn fetch(&mut self, proc: ProcId, uid: Uid, page: u32)
        requires free { 0 < free_count self.old.cache }
        requires absent { page_at self.old.cache.pages uid page ≡ None }
        requires still { at self.old.moving proc.number None ≡ None }
        ensures { self.new
            ≡ record { cache = record self.old.cache { reserved = self.old.cache.reserved + 1 }; moving = put_at self.old.moving proc.number (coming uid page) } }
    {
        self.cache.reserve();
        self.moving[index_of(proc)] = Some(Transit {
            uid,
            page,
            inward: true,
        });
    }

    /// The page that was to come to a process will not: its frame is free again.
    pub(crate) fn lose(&mut self, proc: ProcId, uid: Uid, page: u32)
        requires reserved { 0 < self.old.cache.reserved }
        requires absent { page_at self.old.cache.pages uid page ≡ None }
        requires moves { at self.old.moving proc.number None ≡ coming uid page }
        ensures { self.new
            ≡ record { cache = record self.old.cache { reserved = self.old.cache.reserved - 1 }; moving = put_at self.old.moving proc.number None } }
    {
        let _page = (uid, page);
        self.cache.unreserve();
        self.moving[index_of(proc)] = None;
    }

    /// The page that was to come to a process comes into its reserved frame; without memory nothing changes.
    pub(crate) fn arrive(
        &mut self,
        proc: ProcId,
        uid: Uid,
        page: u32,
        bytes: &[u8; PAGE_BYTES],
    ) -> Result<(), NoMemory>
        requires reserved { 0 < self.old.cache.reserved }
        requires absent { page_at self.old.cache.pages uid page ≡ None }
        requires moves { at self.old.moving proc.number None ≡ coming uid page }
        requires apart { AreApart self.old.moving }
        ensures ok { OnOk result (self.new ≡ arrived self.old proc.number uid page bytes.now) }
        ensures err { OnErr result (self.new ≡ self.old) }
    {
        self.cache.install(uid, page, bytes)?;
        self.moving[index_of(proc)] = None;
        Ok(())
    }

    /// The page is not resident any more.
    pub(crate) fn remove(&mut self, uid: Uid, page: u32)
        ensures { self.new ≡ repaged self.old (without_page self.old.cache.pages uid page) }
    {
        self.cache.remove(uid, page);
    }

    /// No page of the object is resident any more.
    pub(crate) fn drop_object(&mut self, uid: Uid)
        ensures { self.new ≡ repaged self.old (without_object self.old.cache.pages uid) }
    {
        self.cache.drop_object(uid);
    }

    /// The page that is chosen to make room.
    pub(crate) fn victim(&self) -> Option<(Uid, u32)>
        ensures victim { result ≡ option_map name_of (named_page self.now.moving self.now.cache.pages) }
        ensures resident { IfSome result (λ name. IsResident self.now.cache.pages name.0 name.1) }
    {
        self.cache.victim()
    }

    /// The lowest dirty page of the object.
    pub(crate) fn dirty_of(&self, uid: Uid) -> Option<u32>
        ensures lowest { result ≡ dirty_page self.now.cache.pages uid }
        ensures resident { IfSome result (IsResident self.now.cache.pages uid) }
    {
        self.cache.dirty_of(uid)
    }

    /// The resident pages of the object, rising.
    pub(crate) fn pages_of(&self, alloc: Global, uid: Uid) -> Result<PageList, NoMemory>
        ensures { IfOk result (λ pages. pages ≡ resident_pages self.now.cache.pages uid) }
    {
        self.cache.pages_of(alloc, uid)
    }
}
