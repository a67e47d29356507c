//! What a command on names, on the bytes of files or on mailboxes asks of the store, one operation after another, and what it comes to.
#![tactic(auto)]

mod arriving;
mod check;
mod checking;
mod closing;
mod come;
mod copying;
mod errand;
mod file_talk;
mod leading;
mod mailed;
mod naming;
mod outcome;
mod reach;
mod seeking;
mod source;
mod streaming;
mod talk;
mod telling;
mod turning;

pub use check::Subject;
pub use naming::machine_for;
pub use outcome::Outcome;
pub use talk::{Machine, TalkStep};
