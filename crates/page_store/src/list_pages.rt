//! Pages in a plain list.
ghost use Rattle.std.specs.Prelude.{◌≡◌, MatchResult};
ghost use Rattle.page_store.specs.Volumes.{no_pages};
ghost use Rattle.page_store.specs.Rows.{AreInOrder, StandsAt, WouldStandAt};

use crate::pages::Pages;
use std::alloc::Global;
use std::marker::Model;
use uid_names::{NoMemory, PAGE_BYTES};

/// A page that was put.
#[derive(Clone, Copy)]
struct PageRow {
    counter: u64,
    page: u32,
    bytes: [u8; PAGE_BYTES],
}

/// Pages in a plain list, in the order of their names.
#[derive(Drop)]
pub struct ListPages {
    rows: Vec<PageRow>,
}

impl Model for ListPages {
    ghost use Rattle.page_store.specs.Volumes.{Volume, volume_code};

    ghost Value = { Volume };

    ghost coded = { volume_code };

    ghost use Rattle.page_store.specs.Rows.{AreInOrder, volume_of};

    ghost view = { λ s. volume_of s.rows.items };

    ghost invariant = { λ s. AreInOrder s.rows.items };
}

impl ListPages {
    /// No page was put. Takes no memory.
    pub fn new(alloc: Global) -> ListPages
        ensures { result ≡ no_pages }
    {
        ListPages {
            rows: Vec::new(alloc),
        }
    }
}

/// Where the page's row stands, or the place at which it would keep the order.
fn position(rows: &[PageRow], counter: u64, page: u32) -> Result<usize, usize>
    requires { AreInOrder rows.now }
    ensures { MatchResult result
        (λ at. StandsAt rows.now (counter, page) at)
        (λ at. WouldStandAt rows.now (counter, page) at) }
{
    rows.binary_search_by_key(&(counter, page), |row| (row.counter, row.page))
}

impl Pages for ListPages {
    ghost volume = { λ pages. pages };

    fn find(&self, counter: u64, page: u32) -> Option<&[u8; PAGE_BYTES]> {
        match position(self.rows.as_slice(), counter, page) {
            Ok(at) => Some(&self.rows[at].bytes),
            Err(_) => None,
        }
    }

    fn get(&self, counter: u64, page: u32, into: &mut [u8; PAGE_BYTES]) {
        *into = match position(self.rows.as_slice(), counter, page) {
            Ok(at) => self.rows[at].bytes,
            Err(_) => [0; PAGE_BYTES],
        };
    }

    fn put(&mut self, counter: u64, page: u32, bytes: &[u8; PAGE_BYTES]) -> Result<(), NoMemory> {
        match position(self.rows.as_slice(), counter, page) {
            Ok(at) => {
                self.rows[at].bytes = *bytes;
                Ok(())
            }
            Err(at) => {
                let row = PageRow {
                    counter,
                    page,
                    bytes: *bytes,
                };
                Ok(self.rows.insert(at, row)?)
            }
        }
    }

    fn drop_object(&mut self, counter: u64) {
        self.rows.retain(|row| row.counter != counter);
    }
}
