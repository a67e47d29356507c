//! The pool: frames that are taken, each with a page's bytes and flags, and frames that are free.
ghost use Rattle.std.specs.Prelude.{◌≡◌, ℕ, ◌+◌, ◌-◌, ◌<◌, ◌≤◌, IfOk, None};
ghost use Rattle.std.specs.FinMap.{empty};
ghost use Rattle.std.specs.Borrow.{sem};
ghost use Rattle.page_frames.specs.Pools.{Pool, IsPool, IsTaken, free_count, frame_at, frame_in, no_flags, with_frame, without_frame, with_flags};
ghost use Rattle.page_frames.specs.Lending.{LendsBytes};

use crate::frame::{FEWEST_FRAMES, Flags, FrameNo, MOST_FRAMES, NoMemory, PAGE_BYTES};
use slab::Slab;
use std::alloc::Global;
use std::marker::Model;

/// A pool of frames, each of which holds a page's bytes with its flags, or is free.
pub struct Frames {
    count: u16,
    // The flags of the taken frames; their keys are the frames' numbers.
    numbers: Slab<Flags>,
    // One region, taken when the pool is made. A frame's number is its place there: the slab hands out numbers
    // below its capacity, and the region has a page for each. A free frame's bytes are whatever it had last.
    pages: Vec<[u8; PAGE_BYTES]>,
}

// Of its own, so that what drops one calls this and does not take it apart in place.
impl Drop for Frames {
    fn drop(self) {
        let Frames {
            count: _,
            numbers: _,
            pages: _,
        } = self;
    }
}

impl Model for Frames {
    ghost use Rattle.page_frames.specs.Pools.{Pool};
    ghost use Rattle.page_frames.specs.Codes.{pool_code};

    ghost Value = { Pool };

    ghost coded = { pool_code };

    ghost use Rattle.page_frames.specs.Insides.{pool_of, IsSound};

    ghost view = { λ f. pool_of f.count f.numbers f.pages.items };

    ghost invariant = { λ f. IsSound f.count f.numbers f.pages.items };
}

impl Frames {
    /// A pool of so many frames, all free.
    pub fn new(alloc: Global, count: u16) -> Result<Frames, NoMemory>
        requires few { FEWEST_FRAMES ≤ count }
        requires many { count ≤ MOST_FRAMES }
        ensures { IfOk result (λ pool. pool ≡ record { count = count; taken = empty }) }
    {
        let numbers = Slab::with_capacity(alloc, usize::from(count))?;
        let pages = vec![in alloc; [0; PAGE_BYTES]; numbers.capacity()]?;
        Ok(Frames {
            count,
            numbers,
            pages,
        })
    }

    /// How many frames are free. Takes no memory.
    pub fn free(&self) -> u16
        ensures value { result ≡ free_count self.now }
        ensures pool { IsPool self.now }
    {
        self.count - self.numbers.len() as u16
    }

    /// Takes a frame that was free for a page with these bytes and no flag. Takes no memory.
    pub fn take(&mut self, bytes: &[u8; PAGE_BYTES]) -> FrameNo
        requires { 0 < free_count self.old }
        ensures free { frame_at self.old result ≡ None }
        ensures taken { self.new ≡ with_frame self.old result (record { bytes = bytes.now; flags = no_flags }) }
    {
        let key = self.numbers.insert_reserved(Flags {
            dirty: false,
            sent: false,
            transit: false,
        });
        self.pages[key] = *bytes;
        FrameNo { key }
    }

    /// Makes a taken frame free. Takes no memory.
    pub fn give_back(&mut self, frame: FrameNo)
        requires { IsTaken self.old frame }
        ensures { self.new ≡ without_frame self.old frame }
    {
        self.numbers.remove(frame.key);
    }

    /// The bytes in a taken frame. Takes no memory.
    pub fn bytes(&self, frame: FrameNo) -> &[u8; PAGE_BYTES]
        requires { IsTaken self.now frame }
        ensures { result.now ≡ (frame_in self.now frame).bytes }
    {
        &self.pages[frame.key]
    }

    /// The bytes in a taken frame, for writing. Takes no memory.
    pub fn bytes_mut(&mut self, frame: FrameNo) -> &mut [u8; PAGE_BYTES]
        requires { IsTaken self.old frame }
        ensures* writes_back { sem 𝓛 (LendsBytes self.entry frame result) }
        ensures value { result.now ≡ (frame_in self.old frame).bytes }
    {
        &mut self.pages[frame.key]
    }

    /// The flags of a taken frame. Takes no memory.
    pub fn flags(&self, frame: FrameNo) -> Flags
        requires { IsTaken self.now frame }
        ensures { result ≡ (frame_in self.now frame).flags }
    {
        self.numbers[frame.key]
    }

    /// Sets the flags of a taken frame. Takes no memory.
    pub fn set_flags(&mut self, frame: FrameNo, flags: Flags)
        requires { IsTaken self.old frame }
        ensures { self.new ≡ with_flags self.old frame flags }
    {
        self.numbers[frame.key] = flags;
    }
}
