//! What the lines of a script have declared and asked for so far.
ghost use Rattle.std.specs.Prelude.{◌≡◌, ◌≢◌, ◌≤◌, ◌<◌, ◌+◌, ◌-◌, ◌==◌, not, ◌&&◌, [], true, false, nat_lt, is_some, unwrap_or, length, IfOk, OnOk, OnErr, IfSome, None, Some};
ghost use Rattle.std.specs.List.{list_all};
ghost use Rattle.std.specs.Option.{ForSome};
ghost use Rattle.uid_names.specs.Rooms.{IsRoom};
ghost use Rattle.uid_names.specs.Wires.{wire_room};
ghost use Rattle.uid_names.specs.declared.limits.TheConstants.{MAX_ROOM};
ghost use Rattle.uid_names.specs.declared.mode.ObjKind.TheVariants.{File};
ghost use Rattle.dom_history.specs.Plans.{is_set};
ghost use Rattle.script_reader.specs.Walk.Notes.{NotesCommand};
ghost use Rattle.script_reader.specs.Walk.Starts.{AreStarts};
ghost use Rattle.script_reader.specs.Grammar.{nothing};
ghost use Rattle.dom_text.specs.Answers.{Gives};
ghost use Rattle.script_reader.specs.Walk.Results.{line_answer};
ghost use Rattle.script_reader.specs.Scripts.{Content, wire_of};
ghost use Rattle.script_reader.specs.Commands.{IsCommand};
ghost use Rattle.script_reader.specs.Fates.{IsGivenFate};
ghost use Rattle.script_reader.specs.Variables.{IsSpoken, is_declared, knows};
ghost use Rattle.script_reader.specs.Numbers.{has_number, is_no_number};
ghost use Rattle.script_reader.specs.NamesAsked.{is_no_name};
ghost use Rattle.script_reader.specs.NodeNames.{is_node_name};
ghost use Rattle.script_reader.specs.UnknownNames.{is_known, is_unknown};
ghost use Rattle.script_reader.specs.Repeats.{is_fresh, is_repeated};
ghost use Rattle.script_reader.specs.Limits.{is_past_limit, pages_at};
ghost use Rattle.script_reader.specs.SaidCommands.{command_said};
ghost use Rattle.script_reader.specs.After.{after, declared_at, fate_said, with_access, with_command, with_declared, with_fate, with_node, with_wire, with_subject};
ghost use Rattle.script_reader.specs.Sayings.{Does};
ghost use Rattle.script_reader.specs.Shapes.{shape_of};
ghost use Rattle.script_reader.specs.Subjects.{has_subject};
ghost use Rattle.script_reader.specs.Walk.Formed.{AreFormed, IsFormed, IsProcessNumber};
ghost use Rattle.script_reader.specs.Walk.Found.{AreNodesOf, IsNodeOf};
ghost use Rattle.script_reader.specs.Judging.{has_begun, judged_saying};
ghost use Rattle.script_reader.specs.Walk.Seen.{seen, seen_argument, seen_arguments, seen_fate};
ghost use Rattle.script_reader.specs.Words.{is_name};

use crate::arguments::{Argument, have_names, have_numbers};
use crate::cause::{Cause, LineFault};
use crate::command::Command;
use crate::index::{DeclaredVars, NamedVars, Places};
use crate::line::{Line, LineFate};
use crate::said::{command_of, node_named};
use crate::script::{CommandRow, NodeRow, Script, SubjectRow, VarRow};
use crate::words::Verb;
use dom_history::{Fate, FaultPlan};
use std::alloc::Global;
use std::marker::Model;
use uid_names::{
    ByteList, ENTRY_ROOM, MAX_NODES, MAX_PHASES, NoMemory, NodeId, ObjKind, Object, Opening,
    ProcId, Uid, VOLUME_ROOM, wire_room,
};

/// How many homes there may be.
const HOMES: usize = MAX_NODES as usize;

/// The most commands of a script.
const MAX_COMMANDS: usize = 20_000;

/// The counter of the first object that is declared at a home.
const FIRST_COUNTER: u64 = 2;

/// What was declared and asked for. `declared` and `named` have the same variables as the rows, and
/// `counts` and `pages` say of each home how many objects are declared there, and how many pages they
/// take with the entry directory, so that no test goes over all rows.
pub struct Draft {
    said_wire: Option<u8>,
    nodes: Vec<NodeRow>,
    starts: Vec<Object>,
    objects: Vec<VarRow>,
    plan: FaultPlan,
    access: bool,
    subjects: Vec<SubjectRow>,
    phases: u32,
    commands: Vec<CommandRow>,
    declared: DeclaredVars,
    named: NamedVars,
    counts: [u32; HOMES],
    pages: [u32; HOMES],
}

// Of its own, so that what drops one calls this and does not take it apart in place.
impl Drop for Draft {
    fn drop(self) {
        let Draft {
            said_wire: _,
            nodes: _,
            starts: _,
            objects: _,
            plan: _,
            access: _,
            subjects: _,
            phases: _,
            commands: _,
            declared: _,
            named: _,
            counts: _,
            pages: _,
        } = self;
    }
}

impl Model for Draft {
    ghost use Rattle.script_reader.specs.Scripts.{Content};

    ghost Value = { Content };

    ghost use Rattle.script_reader.specs.Walk.Drafts.{content_of, HoldsDraft};

    ghost view = { content_of };

    ghost invariant = { HoldsDraft };
}

/// The nodes of the first and the second name of a node in a line, where it has such and they were declared.
#[derive(Drop)]
struct LineNodes {
    first: Option<NodeId>,
    second: Option<NodeId>,
}

impl Draft {
    /// Nothing was said.
    pub fn new(alloc: Global) -> Result<Draft, NoMemory>
        ensures { IfOk result (λ draft. draft ≡ nothing) }
    {
        let named = NamedVars::new(alloc)?;
        let declared = DeclaredVars::new(alloc)?;
        Ok(Draft {
            said_wire: None,
            nodes: Vec::new(alloc),
            starts: Vec::new(alloc),
            objects: Vec::new(alloc),
            plan: FaultPlan::new(alloc),
            access: false,
            subjects: Vec::new(alloc),
            phases: 1,
            commands: Vec::new(alloc),
            declared,
            named,
            counts: [0; HOMES],
            pages: [ENTRY_ROOM; HOMES],
        })
    }

    /// The version of the script: 1 where none was said.
    fn wire(&self) -> u8
        ensures { result ≡ wire_of self.now }
    {
        self.said_wire.unwrap_or(1)
    }

    /// The greatest room that its version can write, in pages.
    fn greatest(&self) -> u32
        ensures value { result ≡ wire_room (wire_of self.now) }
        ensures least { 1 ≤ result }
        ensures most { result ≤ MAX_ROOM }
    {
        wire_room(self.wire())
    }

    /// Whether an object was declared.
    pub(crate) fn has_object(&self) -> bool
        ensures { result ≡ nat_lt 0 (length self.now.opening.objects) }
    {
        !self.starts.is_empty()
    }

    /// Whether a phase or a command was said.
    pub(crate) fn has_begun(&self) -> bool
        ensures { result ≡ has_begun self.now }
    {
        1 < self.phases || !self.commands.is_empty()
    }

    /// Takes a line that has its form, or refuses it for the first cause that it meets.
    pub(crate) fn take(&mut self, alloc: Global, line: Line<'_>) -> Result<(), LineFault>
        requires { IsFormed self.old (seen line) }
        ensures { Gives (line_answer self.new result) (judged_saying self.old (seen line.entry)) }
    {
        if line.is_no_number(self.wire()) {
            return Err(LineFault::Bad(Cause::Number));
        }
        if line.is_no_name() {
            return Err(LineFault::Bad(Cause::Name));
        }
        let nodes = self.nodes_of(line);
        if self.is_unknown(line, &nodes) {
            return Err(LineFault::Bad(Cause::Unknown));
        }
        if self.is_repeated(line, &nodes) {
            return Err(LineFault::Bad(Cause::Repeat));
        }
        if self.is_past_limit(line, &nodes) {
            return Err(LineFault::Bad(Cause::Limit));
        }
        self.add(alloc, line, &nodes)?;
        Ok(())
    }

    /// Takes a command of a process, of which this is known, or refuses it for the first cause that it meets.
    pub(crate) fn take_command(
        &mut self,
        alloc: Global,
        node: &[u8],
        number: Option<u32>,
        verb: Verb,
        arguments: &[Argument<'_>],
    ) -> Result<(), LineFault>
        requires number { ForSome number IsProcessNumber }
        requires formed { AreFormed (shape_of verb) (seen_arguments arguments.now) }
        ensures { Gives (line_answer self.new result) (judged_saying self.old (Does (record { node = node.now; number = number }) verb (seen_arguments arguments.now))) }
    {
        if !self.has_numbers(number, arguments) {
            return Err(LineFault::Bad(Cause::Number));
        }
        if !have_names(alloc, arguments)? {
            return Err(LineFault::Bad(Cause::Name));
        }
        let Some(node) = self.node_named(node) else {
            return Err(LineFault::Bad(Cause::Unknown));
        };
        let proc = proc_of(node, number);
        if !self.are_known(proc, arguments) {
            return Err(LineFault::Bad(Cause::Unknown));
        }
        if !self.are_fresh(arguments) {
            return Err(LineFault::Bad(Cause::Repeat));
        }
        if self.commands.len() >= MAX_COMMANDS {
            return Err(LineFault::Bad(Cause::Limit));
        }
        let command = self.command_of(alloc, verb, arguments)?;
        self.add_command(alloc, proc, command)?;
        Ok(())
    }

    /// Whether the number of a process is one, and so are those of a command's arguments.
    fn has_numbers(&self, number: Option<u32>, arguments: &[Argument<'_>]) -> bool
        ensures { result ≡ (is_some number && list_all (has_number (wire_of self.now)) (seen_arguments arguments.now)) }
    {
        number.is_some() && have_numbers(arguments, self.wire())
    }

    /// The nodes that the line names.
    fn nodes_of(&self, line: Line<'_>) -> LineNodes
        ensures { AreNodesOf self.now.nodes (seen line.entry) result }
    {
        let (first, second) = match line {
            Line::Node { name, .. } => (self.node_named(name), None),
            Line::Object { home, .. } => (self.node_named(home), None),
            Line::Fault { from, to, .. } => (self.node_named(from), self.node_named(to)),
            Line::Wire { .. } | Line::Phase | Line::Access => (None, None),
            Line::Subject { node, .. } => (self.node_named(node), None),
        };
        LineNodes { first, second }
    }

    /// Whether the line speaks of a node that was not declared, or of a variable that its process doesn't know.
    fn is_unknown(&self, line: Line<'_>, nodes: &LineNodes) -> bool
        requires formed { IsFormed self.now (seen line) }
        requires found { AreNodesOf self.now.nodes (seen line) nodes.now }
        requires numbers { is_no_number (wire_of self.now) (seen line) ≡ false }
        ensures { result ≡ is_unknown self.now (seen line.entry) }
    {
        match line {
            Line::Wire { .. } | Line::Node { .. } | Line::Phase | Line::Access => false,
            Line::Object { .. } => nodes.first.is_none(),
            Line::Subject { .. } => nodes.first.is_none(),
            Line::Fault { .. } => nodes.first.is_none() || nodes.second.is_none(),
        }
    }

    /// Whether a process knows what all arguments speak of.
    fn are_known(&self, proc: ProcId, arguments: &[Argument<'_>]) -> bool
        ensures { result ≡ list_all (is_known self.now proc) (seen_arguments arguments.now) }
    {
        arguments
            .iter()
            .all(|argument| self.is_known(proc, *argument))
    }

    /// Whether a process knows an argument's variable, and its home was declared, where it has such.
    fn is_known(&self, proc: ProcId, argument: Argument<'_>) -> bool
        ensures { result ≡ is_known self.now proc (seen_argument argument.entry) }
    {
        match argument {
            Argument::Var(name) => self.knows(proc, name),
            Argument::Home(Some(name)) | Argument::HomeNode(name) => {
                self.node_named(name).is_some()
            }
            _ => true,
        }
    }

    /// Whether the process knows the variable.
    fn knows(&self, proc: ProcId, var: &[u8]) -> bool
        ensures { result ≡ knows self.now.objects self.now.commands proc var.now }
    {
        self.is_declared(var) || self.named.has(proc, var)
    }

    /// Whether a declared object has the variable.
    fn is_declared(&self, var: &[u8]) -> bool
        ensures { result ≡ is_declared self.now.objects var.now }
    {
        self.declared.object(var).is_some()
    }

    /// Whether the line declares what was declared, or makes an object for the variable of a declared one.
    fn is_repeated(&self, line: Line<'_>, nodes: &LineNodes) -> bool
        requires formed { IsFormed self.now (seen line) }
        requires numbers { is_no_number (wire_of self.now) (seen line) ≡ false }
        requires found { AreNodesOf self.now.nodes (seen line) nodes.now }
        requires known { is_unknown self.now (seen line) ≡ false }
        ensures { result ≡ is_repeated self.now (seen line.entry) }
    {
        match line {
            Line::Wire { .. } => self.said_wire.is_some(),
            Line::Node { .. } => nodes.first.is_some(),
            Line::Object { var, .. } => self.is_declared(var),
            Line::Fault { index, .. } => {
                let (from, to) = (known(nodes.first), known(nodes.second));
                self.plan.is_set(from, to, index.unwrap_or(0) as u64)
            }
            Line::Phase => false,
            Line::Access => self.access,
            Line::Subject { number, .. } => {
                let owner = proc_of(known(nodes.first), number);
                self.has_subject(owner)
            }
        }
    }

    /// Whether a process has its subject.
    fn has_subject(&self, proc: ProcId) -> bool
        ensures { result ≡ has_subject self.now.subjects proc }
    {
        self.subjects.as_slice().iter().any(|row| row.proc.is(proc))
    }

    /// Whether no argument is a new variable that a declared object has.
    fn are_fresh(&self, arguments: &[Argument<'_>]) -> bool
        ensures { result ≡ list_all (is_fresh self.now) (seen_arguments arguments.now) }
    {
        arguments.iter().all(|argument| self.is_fresh(*argument))
    }

    /// Whether the argument is not a new variable that a declared object has.
    fn is_fresh(&self, argument: Argument<'_>) -> bool
        ensures { result ≡ is_fresh self.now (seen_argument argument.entry) }
    {
        match argument {
            Argument::NewVar(name) => !self.is_declared(name),
            _ => true,
        }
    }

    /// Whether the line is one more than there may be.
    fn is_past_limit(&self, line: Line<'_>, nodes: &LineNodes) -> bool
        requires formed { IsFormed self.now (seen line) }
        requires found { AreNodesOf self.now.nodes (seen line) nodes.now }
        requires known { is_unknown self.now (seen line) ≡ false }
        ensures { result ≡ is_past_limit self.now (seen line.entry) }
    {
        match line {
            Line::Node { .. } => self.nodes.len() >= HOMES,
            Line::Object { room, .. } => {
                let home = home_index(known(nodes.first));
                self.pages[home] + room.unwrap_or(0) > VOLUME_ROOM
            }
            Line::Wire { .. } | Line::Fault { .. } | Line::Access | Line::Subject { .. } => false,
            Line::Phase => self.phases >= MAX_PHASES,
        }
    }

    /// Does what a good line says. Its numbers were found, so that no 0 stands for one.
    fn add(&mut self, alloc: Global, line: Line<'_>, nodes: &LineNodes) -> Result<(), NoMemory>
        requires formed { IsFormed self.old (seen line) }
        requires found { AreNodesOf self.old.nodes (seen line) nodes.now }
        requires numbers { is_no_number (wire_of self.old) (seen line) ≡ false }
        requires names { is_no_name (seen line) ≡ false }
        requires known { is_unknown self.old (seen line) ≡ false }
        requires new { is_repeated self.old (seen line) ≡ false }
        requires within { is_past_limit self.old (seen line) ≡ false }
        ensures { OnOk result (self.new ≡ after self.old (seen line.entry)) }
    {
        match line {
            Line::Wire { version } => {
                self.add_wire(version.unwrap_or(0) as u8);
                Ok(())
            }
            Line::Node { name, frames } => self.add_node(alloc, name, frames.unwrap_or(0) as u16),
            Line::Object { var, room, .. } => {
                let home = known(nodes.first);
                self.add_object(alloc, var, room.unwrap_or(0), home)
            }
            Line::Fault { index, fate, .. } => {
                let (from, to) = (known(nodes.first), known(nodes.second));
                self.add_fate(from, to, index.unwrap_or(0), fate_of(fate))
            }
            Line::Phase => {
                self.add_phase();
                Ok(())
            }
            Line::Access => {
                self.add_access();
                Ok(())
            }
            Line::Subject {
                number,
                person,
                project,
                ..
            } => {
                let owner = proc_of(known(nodes.first), number);
                self.add_subject(alloc, owner, person, project)
            }
        }
    }

    /// Says the version.
    fn add_wire(&mut self, wire: u8)
        requires new { self.old.said_wire ≡ None }
        requires low { 1 ≤ wire }
        requires high { wire ≤ 2 }
        ensures { self.new ≡ with_wire self.old wire }
    {
        self.said_wire = Some(wire);
    }

    /// Begins a phase.
    pub fn add_phase(&mut self)
        requires { self.old.phases < MAX_PHASES }
        ensures { self.new ≡ record self.old { phases = self.old.phases + 1 } }
    {
        self.phases += 1;
    }

    /// Puts access lists in force.
    fn add_access(&mut self)
        ensures { self.new ≡ with_access self.old }
    {
        self.access = true;
    }

    /// Gives a process its subject.
    fn add_subject(
        &mut self,
        alloc: Global,
        proc: ProcId,
        person: &[u8],
        project: &[u8],
    ) -> Result<(), NoMemory>
        requires node { proc.node ≤ length self.old.nodes }
        requires person { is_name person.now ≡ true }
        requires project { is_name project.now ≡ true }
        requires new { has_subject self.old.subjects proc ≡ false }
        ensures { OnOk result (self.new ≡ with_subject self.old proc person.now project.now) }
    {
        let _range = (proc.node().number(), proc.number());
        let person = ByteList::from_slice(alloc, person)?;
        let project = ByteList::from_slice(alloc, project)?;
        self.subjects.push(SubjectRow {
            proc,
            person,
            project,
        })?;
        Ok(())
    }

    /// Sets the fate of a frame.
    fn add_fate(&mut self, from: NodeId, to: NodeId, index: u32, fate: Fate) -> Result<(), NoMemory>
        requires from { from ≤ length self.old.nodes }
        requires to { to ≤ length self.old.nodes }
        requires apart { from ≢ to }
        requires low { 1 ≤ index }
        requires high { index ≤ 1000000 }
        requires fate { IsGivenFate fate }
        requires new { is_set self.old.plan from to index ≡ false }
        ensures { OnOk result (self.new ≡ with_fate self.old from to index fate) }
    {
        self.plan.set(from, to, index as u64, fate)?;
        let _plan = self.plan.rows();
        Ok(())
    }

    /// Declares a node; without memory nothing changes.
    pub fn add_node(&mut self, alloc: Global, name: &[u8], frames: u16) -> Result<(), NoMemory>
        requires name { is_name name.now ≡ true }
        requires few { 5 ≤ frames }
        requires many { frames ≤ 256 }
        requires new { is_node_name self.old.nodes name.now ≡ false }
        requires room { length self.old.nodes < MAX_NODES }
        ensures ok { OnOk result (self.new ≡ with_node self.old name.now frames) }
        ensures err { OnErr result (self.new ≡ self.old) }
    {
        let name = ByteList::from_slice(alloc, name)?;
        self.nodes.push(NodeRow { name, frames })?;
        Ok(())
    }

    /// Declares an object; without memory for all that is noted of it nothing changes.
    pub fn add_object(
        &mut self,
        alloc: Global,
        var: &[u8],
        room: u32,
        home: NodeId,
    ) -> Result<(), NoMemory>
        requires name { is_name var.now ≡ true }
        requires room { IsRoom room }
        requires low { room ≤ wire_room (wire_of self.old) }
        requires home { home ≤ length self.old.nodes }
        requires new { is_declared self.old.objects var.now ≡ false }
        requires first { self.old.commands ≡ [] }
        requires fits { pages_at home self.old.opening.objects + room ≤ VOLUME_ROOM }
        ensures ok { OnOk result (self.new ≡ with_declared self.old var.now (declared_at self.old home room)) }
        ensures err { OnErr result (self.new ≡ self.old) }
    {
        let at = home_index(home);
        let uid = Uid::from_parts(self.counts[at] as u64 + FIRST_COUNTER, home);
        let _range = uid.number();
        let name = ByteList::from_slice(alloc, var)?;
        self.objects.reserve(1)?;
        self.starts.reserve(1)?;
        self.declared.add(alloc, var, uid)?;
        let object = Object {
            uid,
            kind: ObjKind::File,
            room,
        };
        if self.starts.push(object).is_err() {
            unreachable!();
        }
        if self.objects.push(VarRow { var: name, uid }).is_err() {
            unreachable!();
        }
        self.counts[at] += 1;
        self.pages[at] += room;
        Ok(())
    }

    /// Adds a command of the last phase; without memory for all that is noted of it nothing changes.
    pub fn add_command(
        &mut self,
        alloc: Global,
        proc: ProcId,
        command: Command,
    ) -> Result<(), NoMemory>
        requires node { proc.node ≤ length self.old.nodes }
        requires range { IsCommand (length self.old.nodes) command }
        requires spoken { IsSpoken self.old.objects self.old.commands proc command }
        requires room { length self.old.commands < 20000 }
        ensures ok { OnOk result (self.new ≡ with_command self.old proc command) }
        ensures err { OnErr result (self.new ≡ self.old) }
    {
        let _range = (proc.node().number(), proc.number());
        self.commands.reserve(1)?;
        note_command(&mut self.named, alloc, proc, &command)?;
        let row = CommandRow {
            proc,
            phase: self.phases,
            command,
        };
        self.commands.push_reserved(row);
        Ok(())
    }

    /// The command of these arguments.
    fn command_of(
        &self,
        alloc: Global,
        verb: Verb,
        arguments: &[Argument<'_>],
    ) -> Result<Command, NoMemory>
        ensures { IfOk result (λ command. command ≡ command_said self.now.nodes verb (seen_arguments arguments.now)) }
    {
        command_of(alloc, self.nodes.as_slice(), verb, arguments)
    }

    /// The node of this name.
    fn node_named(&self, name: &[u8]) -> Option<NodeId>
        ensures { IsNodeOf self.now.nodes name.now result }
    {
        node_named(self.nodes.as_slice(), name)
    }

    /// The script, where a node was declared.
    pub fn finish(self, alloc: Global) -> Result<Script, NoMemory>
        requires { 1 ≤ length self.nodes }
        ensures { IfOk result (λ script. script ≡ self) }
    {
        let greatest = self.greatest();
        let opening = opening_of(
            alloc,
            self.nodes.len() as u8,
            greatest,
            self.starts.as_slice(),
        )?;
        let places = Places::of_commands(alloc, self.commands.as_slice())?;
        let Draft {
            said_wire,
            nodes,
            starts: _,
            objects,
            plan,
            access,
            subjects,
            phases,
            commands,
            declared,
            named: _,
            counts: _,
            pages: _,
        } = self;
        Ok(Script::new(
            said_wire, nodes, opening, objects, plan, access, subjects, phases, commands, declared,
            places,
        ))
    }

    /// Whether no node was declared.
    pub(crate) fn has_no_node(&self) -> bool
        ensures { result ≡ (length self.now.nodes == 0) }
    {
        self.nodes.is_empty()
    }
}

/// The node that was found.
fn known(found: Option<NodeId>) -> NodeId
    requires { is_some found ≡ true }
    ensures { found ≡ Some result }
{
    match found {
        Some(node) => node,
        None => unreachable!(),
    }
}

/// The opening of so many nodes, with this greatest room and these objects.
fn opening_of(
    alloc: Global,
    nodes: u8,
    greatest: u32,
    starts: &[Object],
) -> Result<Opening, NoMemory>
    requires low { 1 ≤ nodes }
    requires high { nodes ≤ MAX_NODES }
    requires least { 1 ≤ greatest }
    requires most { greatest ≤ MAX_ROOM }
    requires starts { AreStarts nodes greatest starts.now }
    ensures { IfOk result (λ opening. opening ≡ record { nodes = nodes; greatest = greatest; objects = starts.now }) }
{
    let mut opening = Opening::new(alloc, nodes, greatest);
    for object in starts {
        opening.add(object.uid, object.kind, object.room)?;
    }
    Ok(opening)
}

/// Notes the variable that a process's command names; without memory nothing changes.
fn note_command(
    named: &mut NamedVars,
    alloc: Global,
    proc: ProcId,
    command: &Command,
) -> Result<(), NoMemory>
    ensures ok { OnOk result (NotesCommand named.old named.new proc command.now) }
    ensures err { OnErr result (named.new ≡ named.old) }
{
    match command {
        Command::New { var, .. } => named.add(alloc, proc, var.bytes()),
        Command::Bind { var, .. } => named.add(alloc, proc, var.bytes()),
        _ => Ok(()),
    }
}

/// The place of a home in the lists by home.
fn home_index(home: NodeId) -> usize
    ensures value { result ≡ home - 1 }
    ensures least { 1 ≤ home }
    ensures greatest { home ≤ MAX_NODES }
    ensures within { result < MAX_NODES }
{
    home.number() as usize - 1
}

/// The process of this number at a node.
fn proc_of(node: NodeId, number: Option<u32>) -> ProcId
    requires found { is_some number ≡ true }
    requires range { IfSome number IsProcessNumber }
    ensures { result ≡ record { node = node; number = unwrap_or number 0 } }
{
    match ProcId::new(node, number.unwrap_or(0) as u8) {
        Some(proc) => proc,
        None => unreachable!(),
    }
}

/// The fate that a line says.
fn fate_of(fate: LineFate) -> Fate
    ensures { result ≡ fate_said (seen_fate fate) }
{
    match fate {
        LineFate::Lose => Fate::Lose,
        LineFate::Twice(late) => Fate::Twice(late.unwrap_or(0)),
        LineFate::Late(late) => Fate::Late(late.unwrap_or(0)),
    }
}
