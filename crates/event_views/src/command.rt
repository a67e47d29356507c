//! Commands by their names.
ghost use Rattle.std.specs.Prelude.{◌≡◌, ◌++◌, OnOk};
ghost use Rattle.event_views.specs.Commands.{same_command, command_text};

use dom_history::NodeNames;
use dom_text::put_decimal;
use node_texts::put_process;
use uid_names::{ByteList, NoMemory, ProcId};

/// A command: its process, and its number among the commands of that process, from 1.
#[derive(Clone, Copy, Debug, PartialEq, Eq)]
pub struct CommandName {
    pub proc: ProcId,
    pub index: u32,
}

impl CommandName {
    /// Whether the two are one command. Takes no memory.
    pub fn is(&self, other: &CommandName) -> bool
        ensures { result ≡ same_command self.now other.now }
    {
        self.proc.is(other.proc) && self.index == other.index
    }
}

/// Puts a command's name behind a text, as `a.1.3`. Without memory a part of it may be there.
pub fn put_command(
    to: &mut ByteList,
    names: &NodeNames,
    command: &CommandName,
) -> Result<(), NoMemory>
    ensures { OnOk result (to.new ≡ to.old ++ command_text names.now command.now) }
{
    put_process(to, names, command.proc)?;
    to.extend(b".")?;
    put_decimal(to, command.index as u64)
}

/// A command of a run: the phase that it belongs to, its words in the script, and its answer, if it has one.
#[derive(Drop, Debug)]
pub struct CommandView {
    pub name: CommandName,
    pub phase: u32,
    pub words: ByteList,
    pub answer: Option<ByteList>,
}
