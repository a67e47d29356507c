//! Room for the bytes of a page that is sent home.
use std::alloc::{AllocError, Global};
use uid_names::{NoMemory, PAGE_BYTES};

/// Room for the bytes of a page.
pub(crate) type PageRoom = Box<[u8; PAGE_BYTES]>;

/// Room that holds zeros.
pub(crate) fn page_room(alloc: Global) -> Result<PageRoom, NoMemory> {
    Ok(Box::new(alloc, [0; PAGE_BYTES]).map_err(AllocError::from)?)
}
