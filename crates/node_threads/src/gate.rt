//! What delays the commands of processes.
ghost use Rattle.std.specs.Prelude.{◌≡◌, true};

use uid_names::ProcId;

/// Delays commands. The thread of a node asks before a process begins, and tells of each command that has its answer. What is promised of a
/// run rests on no gate.
pub trait Gate: Sync {
    /// Whether a process may begin. Its unfinished command has this number, from 1. Where the answer is no, it is asked again later.
    fn may_begin(&self, proc: ProcId, command: u32) -> bool;

    /// The command of this number of a process has its answer.
    fn done(&self, proc: ProcId, command: u32);
}

/// Delays nothing.
#[derive(Clone, Copy, Debug, PartialEq, Eq)]
pub struct OpenGate;

impl Gate for OpenGate {
    fn may_begin(&self, _proc: ProcId, _command: u32) -> bool
        ensures { result ≡ true }
    {
        true
    }

    fn done(&self, _proc: ProcId, _command: u32) {}
}
