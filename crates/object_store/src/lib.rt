//! The objects of a node: their attributes and pages, made, removed, read and written.
#![tactic(auto)]

pub mod attributes;
pub mod homes;
pub mod laws;
pub mod refusals;
mod rows;

pub use attributes::Attr;
pub use homes::Home;
pub use refusals::{MakeFault, NoObject, WriteRefusal};
