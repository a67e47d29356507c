//! Posts: a node with the ends of the links between it and the other nodes, and all that a thread does to it that serves it, but waiting.
#![tactic(auto)]

pub mod events;
pub mod flushing;
mod known;
pub mod making;
pub mod post;
mod reading;
pub mod rounds;
mod sending;
pub mod taking;

pub use making::make_posts;
pub use post::{FrameQueue, NoticeQueue, Post};
