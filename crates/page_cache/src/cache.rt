//! The cache: which pages are resident, in which frames, and which of them was used last.
ghost use Rattle.std.specs.Prelude.{◌≡◌, ℕ, ◌+◌, ◌-◌, ◌<◌, ◌≤◌, [], length, ◌↔◌, OnOk, OnErr, IfOk, IfSome, IfNone, IsSome, None, Some};
ghost use Rattle.std.specs.Option.{option_map};
ghost use Rattle.std.specs.List.{find};
ghost use Rattle.page_frames.specs.Pools.{frame_at, with_frame, no_flags, free_count as frames_free};
ghost use Rattle.page_cache.specs.Caches.{Cached, IsCache, IsResident, IsFrame, is_of, page_at, page_in, free_count};
ghost use Rattle.page_cache.specs.Changes.{without_page, without_object, used, installed, with_flags, with_bytes};
ghost use Rattle.page_cache.specs.Victims.{victim_of, name_of, oldest, is_clean_choice, is_dirty_choice};
ghost use Rattle.page_cache.specs.Insides.{are_clean};
ghost use Rattle.page_cache.specs.Numbers.{dirty_page, resident_pages};

use crate::slots::{Index, Order, PageName, enter, leave, names_of, numbers_of};
use page_frames::{FEWEST_FRAMES, Flags, FrameNo, Frames, MOST_FRAMES};
use std::alloc::Global;
use std::marker::Model;
use std::num::NonZeroUsize;
use uid_names::{ItemList, NoMemory, PAGE_BYTES, Uid};

/// The numbers of pages.
pub type PageList = ItemList<u32>;

// Fills a reserved frame.
fn fill_reserved(pool: &mut Frames, reserved: &mut u16, bytes: &[u8; PAGE_BYTES]) -> FrameNo
    requires free { 0 < frames_free pool.old }
    requires some { 0 < reserved.old }
    ensures free { frame_at pool.old result ≡ None }
    ensures taken { pool.new ≡ with_frame pool.old result (record { bytes = bytes.now; flags = no_flags }) }
    ensures reserved { reserved.new ≡ reserved.old - 1 }
{
    *reserved -= 1;
    pool.take(bytes)
}

// Whether a page with these flags is clean and not in transit.
fn is_clean(flags: Flags) -> bool
    ensures { result ≡ are_clean flags }
{
    !flags.dirty && !flags.transit
}

/// The resident pages, each in a frame of its own, and the frames that are reserved for pages to come.
pub struct Cache {
    pool: Frames,
    reserved: u16,
    // The pages with their frames, the last used one first.
    order: Order,
    // The pages by their names, so that an object's pages stand together.
    index: Index,
    // How many of the pages are clean and not in transit.
    clean: u16,
}

// Of its own, so that what drops one calls this and does not take it apart in place.
impl Drop for Cache {
    fn drop(self) {
        let Cache {
            pool: _,
            reserved: _,
            order: _,
            index: _,
            clean: _,
        } = self;
    }
}

impl Model for Cache {
    ghost use Rattle.page_cache.specs.Caches.{Cached};

    ghost Value = { Cached };

    ghost use Rattle.std.specs.Prelude.{◌≡◌};
    ghost use Rattle.page_cache.specs.Insides.{cache_of, clean_count, IsSound};

    ghost view = { λ c. cache_of c.pool c.reserved c.order.entries };

    ghost invariant = { λ c. IsSound c.pool c.reserved c.order.entries c.order.cap c.index.entries × (c.clean ≡ clean_count c.pool c.order.entries) };
}

impl Cache {
    /// An empty cache of so many frames, none of them reserved.
    pub fn new(alloc: Global, frames: u16) -> Result<Cache, NoMemory>
        requires few { FEWEST_FRAMES ≤ frames }
        requires many { frames ≤ MOST_FRAMES }
        ensures { IfOk result (λ cache. cache ≡ record { frames = frames; reserved = 0; pages = [] }) }
    {
        let Some(places) = NonZeroUsize::new(usize::from(frames)) else {
            unreachable!()
        };
        let order = Order::new(alloc, places)?;
        match Frames::new(alloc, frames) {
            Ok(pool) => Ok(Cache {
                pool,
                reserved: 0,
                order,
                index: Index::new(alloc),
                clean: 0,
            }),
            Err(page_frames::NoMemory) => Err(NoMemory),
        }
    }

    /// The frame of a resident page; None where the page is not resident. Takes no memory.
    pub fn find(&self, uid: Uid, page: u32) -> Option<FrameNo>
        ensures frame { result ≡ option_map (λ r. r.frame) (page_at self.now.pages uid page) }
        ensures resident { IsSome result ↔ IsResident self.now.pages uid page }
        ensures absent { IfNone result (page_at self.now.pages uid page ≡ None) }

        // The frame is that page's and no other's.
        ensures in_it { IfSome result (λ frame. page_in self.now.pages frame ≡ page_at self.now.pages uid page) }
        ensures is_frame { IfSome result (IsFrame self.now.pages) }
        ensures cache { IsCache self.now }
    {
        self.order.peek(&PageName { uid, page }).copied()
    }

    /// How many frames are neither taken nor reserved. Takes no memory.
    pub fn free(&self) -> u16
        ensures value { result ≡ free_count self.now }
        ensures cache { IsCache self.now }
    {
        self.pool.free() - self.reserved
    }

    /// Reserves a free frame. Takes no memory.
    pub fn reserve(&mut self)
        requires { 0 < free_count self.old }
        ensures { self.new ≡ record self.old { reserved = self.old.reserved + 1 } }
    {
        self.reserved += 1;
    }

    /// Makes a reserved frame free. Takes no memory.
    pub fn unreserve(&mut self)
        requires { 0 < self.old.reserved }
        ensures { self.new ≡ record self.old { reserved = self.old.reserved - 1 } }
    {
        self.reserved -= 1;
    }

    /// The page becomes the last used one. Takes no memory.
    pub fn touch(&mut self, uid: Uid, page: u32)
        requires { IsResident self.old.pages uid page }
        ensures { self.new ≡ record self.old { pages = used self.old.pages uid page } }
    {
        self.order.promote(&PageName { uid, page });
    }

    /// The page becomes the last used one, and its frame is told; None where it is not resident. Takes no
    /// memory.
    pub fn use_page(&mut self, uid: Uid, page: u32) -> Option<FrameNo>
        ensures frame { result ≡ option_map (λ r. r.frame) (page_at self.old.pages uid page) }
        ensures absent { IfNone result (page_at self.old.pages uid page ≡ None) }
        ensures pages { self.new ≡ record self.old { pages = used self.old.pages uid page } }

        // The frame is that page's and no other's.
        ensures in_it { IfSome result (λ frame. page_in self.new.pages frame ≡ page_at self.new.pages uid page) }
        ensures is_frame { IfSome result (IsFrame self.new.pages) }
        ensures cache { IsCache self.new }
    {
        self.order.get(&PageName { uid, page }).copied()
    }

    /// A reserved frame becomes this page, clean, not in transit and the last used one; without
    /// memory the cache stays as it was.
    pub fn install(&mut self, uid: Uid, page: u32, bytes: &[u8; PAGE_BYTES]) -> Result<(), NoMemory>
        requires reserved { 0 < self.old.reserved }
        requires absent { page_at self.old.pages uid page ≡ None }
        ensures ok { OnOk result ((frame : ℕ) × (self.new ≡ installed self.old uid page bytes.now frame)) }
        ensures err { OnErr result (self.new ≡ self.old) }
    {
        let frame = fill_reserved(&mut self.pool, &mut self.reserved, bytes);
        let name = PageName { uid, page };
        match enter(&mut self.order, &mut self.index, name, frame) {
            Ok(()) => {
                self.clean += 1;
                Ok(())
            }
            Err(error) => {
                self.pool.give_back(frame);
                self.reserved += 1;
                Err(error)
            }
        }
    }

    /// The clean page that was used longest ago and is not in transit, or else the dirty one; None
    /// where all pages are in transit. Takes no memory.
    pub fn victim(&self) -> Option<(Uid, u32)>
        ensures victim { result ≡ option_map name_of (victim_of self.now.pages) }
        ensures resident { IfSome result (λ name. IsResident self.now.pages name.0 name.1) }
    {
        if self.clean == 0 {
            self.oldest_dirty()
        } else {
            self.oldest_clean()
        }
    }

    // The clean page used longest ago that is not in transit. It is looked for from both ends of the order at once,
    // so that no more pages are passed than twice those on the shorter way. Beside many changed pages the clean ones
    // stand near the new end: from there, the one with which as many are seen as there are is the oldest.
    fn oldest_clean(&self) -> Option<(Uid, u32)>
        ensures choice { result ≡ option_map name_of (oldest is_clean_choice self.now.pages) }
        ensures cache { IsCache self.now }
    {
        let mut unseen = self.clean;
        let from_old = self.order.iter().rev();
        for ((new, new_frame), (old, old_frame)) in self.order.iter().zip(from_old) {
            if is_clean(self.pool.flags(*old_frame)) {
                return Some((old.uid, old.page));
            }
            if is_clean(self.pool.flags(*new_frame)) {
                unseen -= 1;
                if unseen == 0 {
                    return Some((new.uid, new.page));
                }
            }
        }
        None
    }

    // The dirty page used longest ago that is not in transit.
    fn oldest_dirty(&self) -> Option<(Uid, u32)>
        ensures choice { result ≡ option_map name_of (oldest is_dirty_choice self.now.pages) }
        ensures cache { IsCache self.now }
    {
        for (name, frame) in self.order.iter().rev() {
            let flags = self.pool.flags(*frame);
            if flags.dirty && !flags.transit {
                return Some((name.uid, name.page));
            }
        }
        None
    }

    /// The page, if it was resident, is so no more. Takes no memory.
    pub fn remove(&mut self, uid: Uid, page: u32)
        ensures { self.new ≡ record self.old { pages = without_page self.old.pages uid page } }
    {
        let name = PageName { uid, page };
        if let Some(frame) = leave(&mut self.order, &mut self.index, name) {
            self.clean -= u16::from(is_clean(self.pool.flags(frame)));
            self.pool.give_back(frame);
        }
    }

    /// No page of the object is resident any more. Takes no memory.
    pub fn drop_object(&mut self, uid: Uid)
        ensures { self.new ≡ record self.old { pages = without_object self.old.pages uid } }
    {
        while let Some(page) = self.any_page(uid) {
            self.remove(uid, page);
        }
    }

    // The number of one of the object's pages.
    fn any_page(&self, uid: Uid) -> Option<u32>
        ensures none { IfNone result (find (is_of uid) self.now.pages ≡ None) }
        ensures resident { IfSome result (IsResident self.now.pages uid) }
    {
        let (name, _) = self.index.range(names_of(uid)).next()?;
        Some(name.page)
    }

    /// The lowest dirty page of the object; None where none is dirty. Takes no memory.
    pub fn dirty_of(&self, uid: Uid) -> Option<u32>
        ensures lowest { result ≡ dirty_page self.now.pages uid }
        ensures resident { IfSome result (IsResident self.now.pages uid) }
    {
        for (name, frame) in self.index.range(names_of(uid)) {
            if self.pool.flags(*frame).dirty {
                return Some(name.page);
            }
        }
        None
    }

    /// The resident pages of the object, rising.
    pub fn pages_of(&self, alloc: Global, uid: Uid) -> Result<PageList, NoMemory>
        ensures { IfOk result (λ pages. pages ≡ resident_pages self.now.pages uid) }
    {
        let items = numbers_of(alloc, &self.index, uid)?;
        Ok(ItemList::from_vec(items))
    }

    /// The bytes in a resident page's frame. Takes no memory.
    pub fn bytes(&self, frame: FrameNo) -> &[u8; PAGE_BYTES]
        requires { IsFrame self.now.pages frame }
        ensures { option_map (λ r. r.bytes) (page_in self.now.pages frame) ≡ Some result.now }
    {
        self.pool.bytes(frame)
    }

    /// The flags of the page in a frame. Takes no memory.
    pub fn flags(&self, frame: FrameNo) -> Flags
        requires { IsFrame self.now.pages frame }
        ensures { option_map (λ r. r.flags) (page_in self.now.pages frame) ≡ Some result }
    {
        self.pool.flags(frame)
    }

    /// Sets the flags of the page in a frame. Takes no memory.
    pub fn set_flags(&mut self, frame: FrameNo, flags: Flags)
        requires { IsFrame self.old.pages frame }
        ensures { self.new ≡ record self.old { pages = with_flags self.old.pages frame flags } }
    {
        let before = self.pool.flags(frame);
        self.clean += u16::from(is_clean(flags));
        self.clean -= u16::from(is_clean(before));
        self.pool.set_flags(frame, flags);
    }

    /// Writes bytes at an offset of the page in a frame. Takes no memory.
    pub fn write(&mut self, frame: FrameNo, offset: u32, bytes: &[u8])
        requires frame { IsFrame self.old.pages frame }
        requires within { offset + length bytes.now ≤ PAGE_BYTES }
        ensures { self.new ≡ record self.old { pages = with_bytes self.old.pages frame offset bytes.now } }
    {
        let start = offset as usize;
        let page = self.pool.bytes_mut(frame);
        page[start..start + bytes.len()].copy_from_slice(bytes);
    }
}
