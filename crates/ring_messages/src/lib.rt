//! The frames that nodes send each other, as values and as bytes.
#![tactic(auto)]

pub mod body;
pub mod copied;
pub mod frame;
pub mod laws;
pub mod page_bytes;
mod reading;
mod writing;

pub use body::Body;
pub use copied::Copied;
pub use frame::{Frame, FrameFault, Head};
pub use page_bytes::PageBytes;
pub use reading::{head, read};
pub use writing::write;
