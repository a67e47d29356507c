//! The page that a node drops for another.
#![tactic(auto)]

pub mod laws;
