//! The bytes of a page, as a frame carries them.
ghost use Rattle.std.specs.Prelude.{◌≡◌, IfOk};
ghost use Rattle.ring_messages.specs.BlankPages.{is_blank, blank_page};

use std::alloc::{AllocError, Global};
use std::marker::Model;
use uid_names::{NoMemory, PAGE_BYTES};

/// A page of zeros.
const BLANK: [u8; PAGE_BYTES] = [0; PAGE_BYTES];

/// The bytes of a page. They lie apart, so that what carries a page is a few words and is moved as such; zeros may lie
/// nowhere.
#[derive(Debug)]
pub struct PageBytes {
    kept: Option<Box<[u8; PAGE_BYTES]>>,
}

// Of its own, so that what drops one calls this and does not take it apart in place.
impl Drop for PageBytes {
    fn drop(self) {
        let PageBytes { kept: _ } = self;
    }
}

impl Model for PageBytes {
    ghost use Rattle.std.specs.Prelude.{ℕ, List, option_map, unwrap_or};
    ghost use Rattle.ring_messages.specs.BlankPages.{blank_page};

    ghost Value = { List ℕ };

    ghost view = { λ p. unwrap_or (option_map (λ kept. kept.value) p.kept) blank_page };
}

impl PageBytes {
    /// A page of zeros. Takes no memory.
    pub fn blank() -> PageBytes
        ensures { result ≡ blank_page }
    {
        PageBytes { kept: None }
    }

    /// These bytes.
    pub fn new(alloc: Global, bytes: &[u8; PAGE_BYTES]) -> Result<PageBytes, NoMemory>
        ensures { IfOk result (λ page. page ≡ bytes.now) }
    {
        // Made of zeros and then written over: a page that is moved into a box is copied twice, and so is one assigned.
        let mut kept = Box::new(alloc, [0; PAGE_BYTES]).map_err(AllocError::from)?;
        kept.copy_from_slice(bytes);
        Ok(PageBytes::from_box(kept))
    }

    /// The bytes that lie there. Takes no memory.
    pub fn from_box(bytes: Box<[u8; PAGE_BYTES]>) -> PageBytes
        ensures { result ≡ bytes.value }
    {
        PageBytes { kept: Some(bytes) }
    }

    /// A copy.
    pub fn copy(&self, alloc: Global) -> Result<PageBytes, NoMemory>
        ensures { IfOk result (λ copy. copy ≡ self.now) }
    {
        match &self.kept {
            Some(kept) => PageBytes::new(alloc, kept),
            None => Ok(PageBytes { kept: None }),
        }
    }

    /// The bytes.
    #[tactic(auto, unfolding(crate::specs::BlankPages::blank_page))]
    pub fn bytes(&self) -> &[u8; PAGE_BYTES]
        ensures { result.now ≡ self.now }
    {
        match &self.kept {
            Some(kept) => kept,
            None => &BLANK,
        }
    }

    /// Whether all are zeros. Takes no memory.
    pub fn is_blank(&self) -> bool
        ensures { result ≡ is_blank self.now }
    {
        is_blank(self.bytes())
    }
}

/// Whether all bytes of a page are zeros.
#[tactic(auto, unfolding(crate::specs::BlankPages::blank_page))]
pub(crate) fn is_blank(bytes: &[u8; PAGE_BYTES]) -> bool
    ensures { result ≡ is_blank bytes.now }
{
    *bytes == [0; PAGE_BYTES]
}
