//! What commands ask is in its ranges, so that no guard of a shell ever acts.
#![tactic(auto)]

pub mod laws;
