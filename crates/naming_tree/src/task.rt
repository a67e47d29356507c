//! What is done in the directory to which a walk led.
ghost use Rattle.std.specs.Prelude.{◌≡◌, Some, IfOk, OnOk, IfNone, IsSome};
ghost use Rattle.dom_history.specs.Ranges.{IsOp};
ghost use Rattle.naming_tree.specs.Turns.{turn_of, FitsAsked};
ghost use Rattle.naming_tree.specs.Readings.{reading_op, IsReading};
ghost use Rattle.naming_tree.specs.Tasks.{task_begins, list_on, task_after, task_asks, at_root as result_at_root, IsOn, IsTask};
ghost use Rattle.naming_tree.specs.declared.task.Task.TheVariants.{List as ListRows};
ghost use Rattle.naming_tree.specs.NamePaths.{listed as listed_rows};
ghost use Rattle.dir_records.specs.Directories.{rows_in};

use crate::changing::Changing;
use crate::reading::Reading;
use crate::step::{NameResult, Within};
use dir_records::{Component, DirFault, by_name, read_dir};
use dom_history::{Op, Reply};
use std::alloc::Global;
use uid_names::{NoMemory, Uid};

/// What is done in a directory: it is listed, or changed, or only reached, for a name in it.
pub enum Task {
    List(Reading),
    Change(Changing),
    Reach(Component),
}

// Of its own, so that what drops one calls this and does not take it apart in place.
impl Drop for Task {
    fn drop(self) {
        match self {
            Task::List(_) | Task::Change(_) | Task::Reach(_) => {}
        }
    }
}

/// The rows of a directory that was read, by their names.
pub fn listed(alloc: Global, bytes: &[u8]) -> Result<NameResult, NoMemory>
    ensures { IfOk result (λ r. r ≡ listed_rows (rows_in bytes.now)) }
{
    match read_dir(alloc, bytes) {
        Ok(rows) => Ok(NameResult::Rows(by_name(alloc, rows.items())?)),
        Err(DirFault::BadDir) => Ok(NameResult::BadDir),
        Err(DirFault::NoMemory) => Err(NoMemory),
    }
}

/// Takes in the reply to an operation of a directory that is listed.
fn list_on(
    alloc: Global,
    reading: &mut Reading,
    reply: &Reply,
) -> Result<Option<NameResult>, NoMemory>
    requires range { IsReading reading.old }
    requires fits { FitsAsked (Some (reading_op reading.old)) (Some reply.now) }
    ensures turn { IfOk result (λ r. turn_of r (ListRows reading.new) ≡ task_after (ListRows reading.old) reply.now) }
    ensures on { IfOk result (λ r. IfNone r (IsReading reading.new)) }
{
    reading.hear(alloc, reply)?;
    if !reading.is_done() {
        return Ok(None);
    }
    match reading.closing.refused.take() {
        Some(reply) => Ok(Some(NameResult::Store(reply))),
        None => Ok(Some(listed(alloc, reading.bytes.bytes())?)),
    }
}

impl Task {
    /// Begins in a directory. One that was only to be reached has come to its result.
    pub fn begin(&mut self, alloc: Global, dir: Uid) -> Option<NameResult>
        requires { IsTask self.old }
        ensures turn { turn_of result self.new ≡ task_begins dir self.old }
        ensures on { IfNone result (IsOn self.new) }
        ensures task { IfNone result (IsTask self.new) }
    {
        match self {
            Task::List(reading) => {
                *reading = Reading::new(alloc, dir);
                None
            }
            Task::Change(changing) => {
                changing.parent = dir;
                changing.begin();
                None
            }
            Task::Reach(name) => Some(NameResult::Under(Within { dir, name: *name })),
        }
    }

    /// Takes in the reply to its operation.
    pub fn hear(&mut self, alloc: Global, reply: &Reply) -> Result<Option<NameResult>, NoMemory>
        requires on { IsOn self.old }
        requires fits { FitsAsked (task_asks self.old) (Some reply.now) }
        ensures turn { IfOk result (λ r. turn_of r self.new ≡ task_after self.old reply.now) }
        ensures on { IfOk result (λ r. IfNone r (IsOn self.new)) }
        ensures task { IfOk result (λ r. IfNone r (IsTask self.new)) }
    {
        match self {
            Task::List(reading) => list_on(alloc, reading, reply),
            Task::Change(changing) => changing.hear(alloc, reply),
            Task::Reach(_) => unreachable!(),
        }
    }

    /// Its operation.
    pub fn op(&self, alloc: Global) -> Result<Op, NoMemory>
        requires { IsOn self.now }
        ensures value { IfOk result (λ op. task_asks self.now ≡ Some op) }
        ensures range { IfOk result IsOp }
    {
        match self {
            Task::List(reading) => Ok(reading.op()),
            Task::Change(changing) => changing.op(alloc),
            Task::Reach(_) => unreachable!(),
        }
    }

    /// What it comes to at the root of the network.
    pub fn at_root(&self) -> NameResult
        ensures { result ≡ result_at_root self.now }
    {
        match self {
            Task::List(_) => NameResult::Nodes,
            Task::Change(_) | Task::Reach(_) => NameResult::NotDir,
        }
    }
}
