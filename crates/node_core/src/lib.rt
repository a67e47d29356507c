//! A node: one event of it after the other, each by its definition.
#![tactic(auto)]

mod asked;
mod begin;
pub mod fault;
mod machine;
mod marks;
mod moves;
pub mod node;
mod notice;
mod phases;
mod processes;
mod programs;
pub mod setup;
mod take;
mod turns;

pub use fault::RunFault;
pub use node::Node;
pub use setup::{Emitted, Incoming, NodeSetup};
