//! The desk of a node: its cached pages, the locks of its processes, and how loads and stores go on there.
#![tactic(auto)]

pub mod access;
pub mod desk;
pub mod entries;
mod four;
pub mod lengths;
pub mod open_call;
mod pages;
mod spare;
pub mod tasks;
pub mod transits;

pub use access::Access;
pub use desk::Desk;
pub use dom_history::LockState;
pub use open_call::OpenCall;
