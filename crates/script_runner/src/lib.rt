//! Runs a script on nodes: from its bytes, or its seed, to what is told of the run and to the journal.
#![tactic(auto)]

mod checking;
pub mod checks;
mod domain;
pub mod laws;
pub mod names;
pub mod nodes;
pub mod parted;
mod processes;
pub mod report;
pub mod run;
mod run_journal;
mod summary;
mod texts;
mod words;

pub use checks::{CheckedJournal, check_script};
pub use domain::{LAST_TICK, run_domain};
pub use node_threads::{Gate, OpenGate};
pub use nodes::nodes_of;
pub use run::{AnswerRow, AnswerRows, Ran, run_script, run_script_in_turns};
