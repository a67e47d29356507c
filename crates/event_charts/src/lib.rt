//! The events of a run, of which some are chosen, as a chart of lanes.
#![tactic(auto)]

pub mod charts;
#[cfg(test)]
mod tests;

pub use charts::chart_of;
