//! The definitions of a node's events, of runs of all nodes, and of their histories.
#![tactic(auto)]

pub mod laws;
