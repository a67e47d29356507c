//! What a run counts: frames by link and kind with what became of them, what each node had, asked for, dropped and gave back, and how its commands went.
#![tactic(auto)]

pub mod commands;
pub mod frames;
pub mod nodes;
pub mod pages;

pub use commands::{commands_of_kind, locks_refused, span_of, spans_of_kind};
pub use frames::{Became, frames_noticed, frames_sent};
pub use nodes::{pages_asked, pages_dropped, pages_sent_home};
pub use pages::{Cause, Errand, page_hits, pages_dropped_for, pages_sent_home_for};
