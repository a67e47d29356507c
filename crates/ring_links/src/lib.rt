//! The parts of a world of nodes on one thread that know nothing of nodes: what waits on a link, which notice a lost
//! or late frame makes, and logs merged by place.
#![tactic(auto)]

pub mod entry;
pub mod laws;
pub mod link;
pub mod merge;
pub mod notice;

pub use entry::{Entry, Waiting};
pub use link::Link;
pub use merge::{by_place, is_before};
pub use notice::{Notice, is_gone};
