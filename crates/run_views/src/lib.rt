//! Runs of a script as they are shown: that of a number of turns, that of a journal, and that of any events that are a run of it.
#![tactic(auto)]

mod commands;
mod links;
mod notes;
mod runs;
mod views;

pub use runs::{run_in_turns, run_of_journal};
pub use views::views_of;
