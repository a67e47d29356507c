//! The pages of objects that a node keeps in its frames, in the order of their last use.
#![tactic(auto)]

pub mod cache;
mod slots;

pub use cache::{Cache, PageList};
