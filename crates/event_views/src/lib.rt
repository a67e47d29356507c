//! What is shown of a run: its events with the frames that they sent and met and the commands that they began and answered, in words; those
//! that are chosen, as a chart; where two runs part; and what a run counts.
#![tactic(auto)]

pub mod choice;
pub mod command;
pub mod differing;
pub mod finding;
pub mod labels;
pub mod run;
pub mod said;
pub mod words;

pub use choice::Choice;
pub use command::{CommandName, CommandView, put_command};
pub use differing::{AnswerDiff, RunDiff, diff};
pub use finding::has_words;
pub use run::{EventView, FrameView, RunView};
pub use said::{FrameSaid, said_of};
pub use words::words_of;

#[cfg(test)]
mod tests;
