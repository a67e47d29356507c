//! Access lists, read from their texts.
ghost use Rattle.std.specs.Prelude.{◌≡◌, None, Some, Err, IfOk};
ghost use Rattle.acl_rules.specs.Lists.{entries_in, list_of};
ghost use Rattle.acl_rules.specs.declared.read.ListFault.TheVariants as faults;

use crate::entry::{AccessList, Entry, MOST_ENTRIES, read_entry};
use dom_text::cut;
use std::alloc::{AllocError, AllocFailed, Global};
use thiserror::Error;
use uid_names::NoMemory;

/// The most bytes of a list's text.
pub const LIST_BYTES: usize = 16_384;

/// Why no list was read.
#[derive(Clone, Copy, Debug, PartialEq, Eq, Error)]
pub enum ListFault {
    /// The bytes are not those of a list.
    #[error("a bad access list")]
    BadList,
    #[error("no memory")]
    NoMemory,
}

impl From<AllocError> for ListFault {
    ghost from_gives = { λ _ e. e ≡ faults.NoMemory };

    fn from(_error: AllocError) -> ListFault {
        ListFault::NoMemory
    }
}

impl<T: Drop> From<AllocFailed<T>> for ListFault {
    ghost from_gives = { λ _ e. e ≡ faults.NoMemory };

    fn from(_error: AllocFailed<T>) -> ListFault {
        ListFault::NoMemory
    }
}

impl From<NoMemory> for ListFault {
    ghost from_gives = { λ _ e. e ≡ faults.NoMemory };

    fn from(_error: NoMemory) -> ListFault {
        ListFault::NoMemory
    }
}

/// The entries of a text; BadList where a line is of none, or the last is not ended.
#[tactic(auto, using(crate::proofs::Reading::entry_on, crate::proofs::Reading::entry_bad, crate::proofs::Reading::not_ended))]
fn read_entries(alloc: Global, text: &[u8]) -> Result<Vec<Entry>, ListFault>
    ensures read { IfOk result (λ entries. entries_in text.now ≡ Some entries.items) }
    ensures bad { result ≡ Err faults.BadList → entries_in text.now ≡ None }
{
    let mut entries = Vec::new(alloc);
    let mut rest = text;
    while let Some((line, back)) = cut(rest, b'\n') {
        let Some(entry) = read_entry(alloc, line)? else {
            return Err(ListFault::BadList);
        };
        entries.push(entry)?;
        rest = back;
    }
    match rest.split_first() {
        None => Ok(entries),
        Some(_) => Err(ListFault::BadList),
    }
}

/// The list of a text; BadList exactly where the text is of none.
pub fn read_list(alloc: Global, bytes: &[u8]) -> Result<AccessList, ListFault>
    ensures read { IfOk result (λ list. list_of bytes.now ≡ Some list) }
    ensures bad { result ≡ Err faults.BadList → list_of bytes.now ≡ None }
{
    if bytes.len() > LIST_BYTES {
        return Err(ListFault::BadList);
    }
    let entries = read_entries(alloc, bytes)?;
    if entries.len() > MOST_ENTRIES {
        return Err(ListFault::BadList);
    }
    Ok(AccessList::new(entries))
}
