//! How far a process is in its next command.
use command_talks::{Machine, Outcome};
use dom_history::{Op, Reply};
use uid_names::{ByteList, NodeId, ProcId, Uid};

/// Where a process is in its next command.
#[derive(Drop)]
pub enum Stage {
    /// In none: the command waits for its phase.
    Between,
    /// Its first operation is open.
    First,
    /// Its second operation is open; the first one had this reply.
    Second(Reply),
    /// A machine's operation is open.
    Talks(Machine),
    /// A list of the locks of a home behind a row is open, and this is the answer so far.
    Lists(NodeId, Option<(Uid, ProcId)>, ByteList),
}

/// What comes of a command: it goes on with an operation, or has come to its end.
#[derive(Drop)]
pub enum Turn {
    Goes(Stage, Op),
    Comes(Outcome),
}
