//! Seen stamps: which version of each object a node saw last.
#![tactic(auto)]

pub mod laws;
pub mod seen;
pub mod stamps;

pub use seen::{Checked, Seen};
pub use stamps::Stamp;
