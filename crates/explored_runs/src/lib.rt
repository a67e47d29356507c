//! Runs a script in the turns of each of many numbers, on all processors: what comes of them all, and the lowest whose journal has a line with some words.
#![tactic(auto)]

mod batches;
pub mod came;
pub mod exploring;
pub mod finding;
mod journals;
pub mod laws;
pub mod numbers;

pub use came::came_of;
pub use exploring::explore;
pub use finding::find;
pub use numbers::{Found, explored_of_numbers};
