//! The journal of a run: one line for each event.
#![tactic(auto)]

mod bounds;
pub mod buffer;
mod heads;
pub mod laws;
pub mod lines;
pub mod named;
pub mod reading;
mod sizes;
mod writing;

pub use buffer::LineBuffer;
pub use lines::JournalLines;
pub use named::{are_merged_named, are_named};
pub use reading::{JournalFault, read_journal};
pub use writing::{write_event, write_journal};
