//! Whether a journal is that of an ended, planned and recent run of a script, and where it is not, at which line and why. Three parts, each
//! over those before it: places (on each link frames are taken in the order of their delivery, and those that are lost or late are told
//! once), the pass over the events of a run (of each, given its node and what it is, which event that is, if one may happen), and verdicts.
#![tactic(auto)]

mod events;
pub mod frames;
pub mod links;
pub mod order;
pub mod pass;
pub mod places;
mod received;
pub mod verdict;

pub use frames::Frames;
pub use links::{is_among, link_of, place_of};
pub use pass::{Pass, Shown};
pub use places::Places;
pub use run_journals::checked::{a_journal_has_one_verdict, journals_of_runs_are_accepted};
pub use run_journals::laws::{a_generated_script_can_be_run, a_script_can_be_run};
pub use verdict::{CheckFault, Checked, JOURNAL_BYTES, NoCause, check};
