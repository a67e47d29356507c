//! The turns of all nodes on one thread: what waits to be delivered, which events are enabled, and what a seed picks;
//! and laws of them.
#![tactic(auto)]

pub mod laws;
