//! Calls that act once: what a home answered last to each process, and a call that waits for its answer.
#![tactic(auto)]

pub mod asking;
pub mod laws;
pub mod served;

pub use asking::{Asking, MOST_NOTICES, Noticed};
pub use served::{Looked, Served};
