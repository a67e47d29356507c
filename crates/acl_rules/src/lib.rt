//! Access lists: their texts, and what they decide.
#![tactic(auto)]

mod deciding;
mod entry;
pub mod laws;
mod read;
mod rights;

pub use deciding::{Decision, decide};
pub use entry::{AccessList, Entry, MOST_ENTRIES, Who};
pub use read::{LIST_BYTES, ListFault, read_list};
pub use rights::Rights;
