//! The pages that stores have written to.
ghost use Rattle.std.specs.Prelude.{◌≡◌, ◌+◌, ◌%◌, ◌≤◌, ℕ, List, length, IfOk, OnOk, OnErr, Some};
ghost use Rattle.uid_names.specs.Names.{ObjectName};
ghost use Rattle.uid_names.specs.Openings.{Start};
ghost use Rattle.dom_history.specs.StoreEffects.{StoreEffect};
ghost use Rattle.dom_history.specs.Bytes.{byte_after, bytes_from};
ghost use Rattle.plain_store.specs.KeptPages.{page_in, byte_in, HoldBytes};

use std::alloc::Global;
use std::collections::HashMap;
use uid_names::{ByteList, NoMemory, PAGE_BYTES, Uid};

/// What was stored, by object and number of the page. A page that is missing is zero.
#[derive(Drop, Debug)]
pub struct Pages {
    pages: HashMap<(Uid, u32), [u8; PAGE_BYTES]>,
}

impl Pages {
    /// No byte was stored. Takes no memory.
    pub fn new(alloc: Global) -> Pages
        ensures { (u : ObjectName) → (o : ℕ) → byte_in result u o ≡ 0 }
    {
        Pages {
            pages: HashMap::new(alloc),
        }
    }

    /// A page, as the stores left it.
    fn page(&self, uid: Uid, number: u32) -> [u8; PAGE_BYTES]
        ensures { result ≡ page_in self.now uid number }
    {
        self.pages
            .get(&(uid, number))
            .copied()
            .unwrap_or([0; PAGE_BYTES])
    }

    /// So many bytes from an offset on, which lie in one page.
    pub fn load(
        &self,
        alloc: Global,
        uid: Uid,
        offset: u32,
        count: u32,
    ) -> Result<ByteList, NoMemory>
        requires { offset % PAGE_BYTES + count ≤ PAGE_BYTES }
        ensures count { IfOk result (λ list. length list ≡ count) }
        ensures bytes { IfOk result (λ list. (opening : Start) → (past : List StoreEffect) → HoldBytes self.now opening past → list ≡ bytes_from opening past uid offset count) }
    {
        let page = self.page(uid, offset / PAGE_BYTES as u32);
        let start = offset as usize % PAGE_BYTES;
        ByteList::from_slice(alloc, &page[start..start + count as usize])
    }

    /// Puts bytes, which lie in one page, at an offset. Without memory no byte changes.
    pub fn store(&mut self, uid: Uid, offset: u32, bytes: &[u8]) -> Result<(), NoMemory>
        requires { offset % PAGE_BYTES + length bytes.now ≤ PAGE_BYTES }
        ensures ok { OnOk result ((v : ObjectName) → (o : ℕ) → byte_in self.new v o ≡ byte_after (Some (record { uid = uid; offset = offset })) bytes.now v o (byte_in self.old v o)) }
        ensures err { OnErr result ((v : ObjectName) → (o : ℕ) → byte_in self.new v o ≡ byte_in self.old v o) }
    {
        let number = offset / PAGE_BYTES as u32;
        let start = offset as usize % PAGE_BYTES;
        let mut page = self.page(uid, number);
        page[start..start + bytes.len()].copy_from_slice(bytes);
        self.pages.insert((uid, number), page)?;
        Ok(())
    }
}
