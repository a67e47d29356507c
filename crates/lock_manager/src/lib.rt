//! The locks of a home: which process holds which object in which mode, and the number of each grant.
#![tactic(auto)]

pub mod grants;
pub mod laws;
pub mod locks;

pub use grants::Grant;
pub use locks::{AskRefusal, Locks, ROOM};
