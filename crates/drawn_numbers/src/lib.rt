//! Draws from a seed: numbers that look like chance, and are the same at each run.
#![tactic(auto)]

pub mod draws;

pub use draws::Draws;
