//! What came of a script in the turns of many numbers, counted, and what is told of it.
#![tactic(auto)]

pub mod came;
pub mod laws;
pub mod seen;
pub mod texts;

pub use came::CameOf;
pub use seen::{Explored, Missed};
pub use texts::explored_text;
