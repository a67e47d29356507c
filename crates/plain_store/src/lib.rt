//! A plain store that answers the operations as one store does, on one thread.
#![tactic(auto)]

mod answer;
mod kept;
pub mod laws;
mod lengths;
mod locks;
mod maps;
mod objects;
mod pages;
pub mod store;

pub use store::PlainStore;
