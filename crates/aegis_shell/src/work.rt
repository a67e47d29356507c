//! What a script gives a process to do.
ghost use Rattle.std.specs.Prelude.{◌≡◌, ◌^◌, ◌<◌, length, map, IfOk};
ghost use Rattle.std.specs.Option.{option_copied};
ghost use Rattle.dom_history.specs.NodeTexts.{AreNodeNames};
ghost use Rattle.script_reader.specs.Variables.{declared_object};
ghost use Rattle.aegis_shell.specs.Bindings.{object_at};
ghost use Rattle.aegis_shell.specs.Work.{variable as variable_of, object_in, object_of as object_of_job, job_of, jobs_of, nobody, subject_of, subject_in, guard_of, part_of};
ghost use Rattle.aegis_shell.specs.Ranges.{AreJobs};

use crate::bindings::Bindings;
use command_talks::Subject;
use dom_history::NodeNames;
use naming_tree::Site;
use script_reader::{Command, CommandRow, NodeRow, Script, SubjectRow};
use std::alloc::Global;
use std::marker::Model;
use uid_names::{ByteList, NoMemory, NodeId, ProcId, Uid};

/// A command of a script with its phase, and the declared object on which it works, if it works on one.
#[derive(Drop)]
pub struct Job<'a> {
    phase: u32,
    command: &'a Command,
    declared: Option<Uid>,
}

impl<'a> Model for Job<'a> {
    ghost use Rattle.aegis_shell.specs.Work.{Job as PlainJob};

    ghost Value = { PlainJob };

    ghost view = { λ j. record { phase = j.phase; command = j.command.now; declared = j.declared } };
}

/// The variable on whose object a command works.
fn variable(command: &Command) -> Option<&[u8]>
    ensures { option_copied result ≡ variable_of command.now }
{
    match command {
        Command::Lock { var, mode: _ } => Some(var.bytes()),
        Command::Unlock { var } => Some(var.bytes()),
        Command::Delete { var } => Some(var.bytes()),
        Command::Load {
            var,
            offset: _,
            count: _,
        } => Some(var.bytes()),
        Command::Store {
            var,
            offset: _,
            text: _,
        } => Some(var.bytes()),
        Command::Length { var } => Some(var.bytes()),
        Command::Map { var } => Some(var.bytes()),
        Command::Unmap { var } => Some(var.bytes()),
        _ => None,
    }
}

/// The object of a command's variable.
fn object_named(bound: &Bindings, command: &Command) -> Option<Uid>
    ensures { result ≡ object_in (object_at bound.now) (variable_of command.now) }
{
    match variable(command) {
        Some(var) => bound.object(var),
        None => None,
    }
}

impl<'a> Job<'a> {
    /// The phase that it belongs to.
    pub fn phase(&self) -> u32
        ensures { result ≡ self.now.phase }
    {
        self.phase
    }

    /// Its command.
    pub fn command(&self) -> &'a Command
        ensures { result.now ≡ self.now.command }
    {
        self.command
    }

    /// The object on which it works: the declared one, or else the one that its process bound.
    pub fn object(&self, bound: &Bindings) -> Option<Uid>
        ensures { result ≡ object_of_job self.now (object_at bound.now) }
    {
        match self.declared {
            Some(uid) => Some(uid),
            None => object_named(bound, self.command),
        }
    }
}

/// The names of the nodes.
fn names(alloc: Global, nodes: &[NodeRow]) -> Result<NodeNames, NoMemory>
    requires { AreNodeNames (map (λ n. n.name) nodes.now) }
    ensures { IfOk result (λ names. names ≡ map (λ n. n.name) nodes.now) }
{
    let mut names = Vec::new(alloc);
    for node in nodes {
        names.push(node.name.copy(alloc)?)?;
    }
    NodeNames::from_list(alloc, names.as_slice())
}

/// A command of a script as a job of its process.
fn job_from<'a>(script: &Script, row: &'a CommandRow) -> Job<'a>
    ensures { result ≡ job_of (declared_object script.now.objects) row.now }
{
    let declared = match variable(&row.command) {
        Some(var) => script.declared(var),
        None => None,
    };
    Job {
        phase: row.phase,
        command: &row.command,
        declared,
    }
}

/// The jobs of one process, in order.
fn jobs(alloc: Global, script: &Script, proc: ProcId) -> Result<Vec<Job<'_>>, NoMemory>
    ensures { IfOk result (λ jobs. jobs.items ≡ jobs_of script.now proc) }
{
    let rows = script.commands();
    let places = script.places_of(proc);
    let mut jobs = Vec::with_capacity(alloc, places.len())?;
    for place in places {
        jobs.push(job_from(script, &rows[*place as usize]))?;
    }
    Ok(jobs)
}

/// Who the process of a line is.
fn subject_said(alloc: Global, row: &SubjectRow) -> Result<Subject, NoMemory>
    ensures { IfOk result (λ who. who ≡ subject_of row.now) }
{
    Ok(Subject {
        person: row.person.copy(alloc)?,
        project: row.project.copy(alloc)?,
    })
}

/// Who a process without a line is.
fn no_subject(alloc: Global) -> Result<Subject, NoMemory>
    ensures { IfOk result (λ who. who ≡ nobody) }
{
    Ok(Subject {
        person: ByteList::from_slice(alloc, b"user")?,
        project: ByteList::from_slice(alloc, b"none")?,
    })
}

/// Who a process is.
fn subject(alloc: Global, rows: &[SubjectRow], proc: ProcId) -> Result<Subject, NoMemory>
    ensures { IfOk result (λ who. who ≡ subject_in rows.now proc) }
{
    for row in rows {
        if row.proc.is(proc) {
            return subject_said(alloc, row);
        }
    }
    no_subject(alloc)
}

/// Who a process is, where access lists are in force.
fn guard(alloc: Global, script: &Script, proc: ProcId) -> Result<Option<Subject>, NoMemory>
    ensures { IfOk result (λ who. who ≡ guard_of script.now proc) }
{
    if !script.access() {
        return Ok(None);
    }
    Ok(Some(subject(alloc, script.subjects(), proc)?))
}

/// A process's part of a script, whose commands it borrows.
#[derive(Drop)]
pub struct Work<'a> {
    site: Site,
    guard: Option<Subject>,
    jobs: Vec<Job<'a>>,
}

impl<'a> Model for Work<'a> {
    ghost use Rattle.std.specs.Prelude.{length, ◌<◌, ◌^◌};
    ghost use Rattle.aegis_shell.specs.Work.{Part};
    ghost use Rattle.aegis_shell.specs.Ranges.{AreJobs};

    ghost Value = { Part };

    ghost view = { λ w. record { node = w.site.own; names = w.site.names; guard = w.guard; jobs = w.jobs.items } };

    ghost invariant = { λ w. AreJobs w.jobs.items × (length w.jobs.items < 2 ^ 32) };
}

impl<'a> Work<'a> {
    ghost use Rattle.aegis_shell.specs.Standing.{site_of};

    /// The part of a process of a script. It goes over the nodes and over the process's own commands.
    pub fn new(alloc: Global, script: &'a Script, proc: ProcId) -> Result<Work<'a>, NoMemory>
        ensures { IfOk result (λ work. work ≡ part_of script.now proc) }
    {
        let names = names(alloc, script.nodes())?;
        let guard = guard(alloc, script, proc)?;
        let jobs = jobs(alloc, script, proc)?;
        let site = Site {
            own: proc.node(),
            names,
        };
        Ok(Work { site, guard, jobs })
    }

    /// The process's node.
    pub fn node(&self) -> NodeId
        ensures { result ≡ self.now.node }
    {
        self.site.own
    }

    /// The names of all nodes.
    pub fn names(&self) -> &NodeNames
        ensures { result.now ≡ self.now.names }
    {
        &self.site.names
    }

    /// Where the names of its commands are looked up.
    pub fn site(&self) -> &Site
        ensures { result.now ≡ site_of self.now }
    {
        &self.site
    }

    /// Who the process is, where access lists are in force.
    pub fn guard(&self) -> &Option<Subject>
        ensures { result.now ≡ self.now.guard }
    {
        &self.guard
    }

    /// The process's commands, in order.
    pub fn jobs(&self) -> &[Job<'a>]
        ensures value { result.now ≡ self.now.jobs }
        ensures ranges { AreJobs self.now.jobs }
        ensures few { length self.now.jobs < 2 ^ 32 }
    {
        self.jobs.as_slice()
    }
}
