//! Operations, replies and histories of one store, and the programs that ask for them.
#![tactic(auto)]

pub mod deed;
pub mod end_word;
pub mod event;
pub mod laws;
pub mod merged_logs;
pub mod node_names;
pub mod op;
mod op_copy;
pub mod plan;
pub mod program;

pub use deed::{Deed, LockLine, LockState};
pub use end_word::EndWord;
pub use event::{Dropped, Effects, Event, EventList, NodeLog, Sent, What};
pub use merged_logs::{LogReader, MergedLogs};
pub use node_names::NodeNames;
pub use op::{Entry, Op, Reply, Spot, Want};
pub use plan::{Fate, FateRow, FaultPlan};
pub use program::Program;
