//! The home side of a node: it answers requests, each of them once.
#![tactic(auto)]

mod answers;
pub mod laws;
mod requests;
pub mod server;

pub use server::PageServer;
