//! A pool of page frames of a fixed number, all of whose memory is taken when it is made.
#![tactic(auto)]

pub mod frame;
pub mod pool;
#[cfg(test)]
mod tests;

pub use frame::{FEWEST_FRAMES, Flags, FrameNo, MOST_FRAMES, NoMemory, PAGE_BYTES};
pub use pool::Frames;
