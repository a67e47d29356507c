//! Makes the scripts of seeds.
#![tactic(auto)]

mod generator;
mod phase_draws;

pub use generator::generate;
