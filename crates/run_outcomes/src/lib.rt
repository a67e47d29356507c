//! The outcomes of the runs of a script: which were met, how often each, and in what two differ.
#![tactic(auto)]

pub mod difference;
pub mod laws;
pub mod outcome;
pub mod tally;

pub use difference::{Difference, differences};
pub use outcome::{Outcome, OutcomeRow, copy_answers, is_same_outcome};
pub use tally::{KEPT_OUTCOMES, KeptOutcome, Tally, commonest};
