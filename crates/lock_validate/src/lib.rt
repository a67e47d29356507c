//! Locking, unlocking and removal at the desk of a node, and the laws of all its calls.
#![tactic(auto)]

pub mod answers;
pub mod faults;
pub mod laws;
pub mod locking;
pub mod releases;
mod sends;
pub mod step;

pub use answers::answer_came;
pub use faults::call_failed;
pub use locking::begin_lock;
pub use releases::{begin_delete, begin_unlock, go_on};
pub use step::Step;
