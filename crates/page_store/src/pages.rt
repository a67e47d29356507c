//! The trait of all that keeps pages.
ghost use Rattle.std.specs.Prelude.{◌≡◌, OnOk, OnErr, MatchOption};
ghost use Rattle.page_store.specs.Volumes.{Volume, page_of, with_page, without_object, zeros};

use uid_names::{NoMemory, PAGE_BYTES};

/// Keeps pages, each named by the counter of its object and its number there. A page that was never
/// put reads as zeros.
pub trait Pages: Drop {
    // The pages that are kept.
    ghost volume: { Self → Volume };

    /// A page as it was put; None where it reads as zeros, since it was not. Takes no memory.
    fn find(&self, counter: u64, page: u32) -> Option<&[u8; PAGE_BYTES]>
        ensures { MatchOption result
            (page_of (volume self.now) counter page ≡ zeros)
            (λ bytes. page_of (volume self.now) counter page ≡ bytes.now) };

    /// Copies a page. Takes no memory.
    fn get(&self, counter: u64, page: u32, into: &mut [u8; PAGE_BYTES])
        ensures { into.new ≡ page_of (volume self.now) counter page };

    /// Puts a page in the place of what was there; without memory nothing changes.
    fn put(&mut self, counter: u64, page: u32, bytes: &[u8; PAGE_BYTES]) -> Result<(), NoMemory>
        ensures ok { OnOk result (volume self.new ≡ with_page (volume self.old) counter page bytes.now) }
        ensures err { OnErr result (volume self.new ≡ volume self.old) };

    /// Drops the pages of an object: they read as zeros from then on. Takes no memory.
    fn drop_object(&mut self, counter: u64)
        ensures { volume self.new ≡ without_object (volume self.old) counter };
}
