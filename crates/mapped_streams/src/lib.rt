//! Streams over mapped objects: machines that read an object whole, count its lines, put a text behind it, and copy it.
#![tactic(auto)]

mod gathered;
pub mod laws;
mod mapped;
mod step;
mod stream;
mod streaming;
mod work;

pub use step::{StreamResult, StreamStep};
pub use stream::Stream;
