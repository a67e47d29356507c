//! What a script says.
use crate::command::Command;
use crate::index::{DeclaredVars, Places};
use dom_history::FaultPlan;
use std::marker::Model;
use uid_names::{ByteList, Opening, ProcId, Uid};

/// A node: its name, and how many page frames it has. The first row is node 1.
#[derive(Drop, Debug)]
pub struct NodeRow {
    pub name: ByteList,
    pub frames: u16,
}

/// A declared object: the variable that names it for every process.
#[derive(Drop, Debug)]
pub struct VarRow {
    pub var: ByteList,
    pub uid: Uid,
}

/// A command: the process that does it, and the phase that it belongs to, from 1.
#[derive(Drop, Debug)]
pub struct CommandRow {
    pub proc: ProcId,
    pub phase: u32,
    pub command: Command,
}

/// The subject of a process.
#[derive(Drop, Debug)]
pub struct SubjectRow {
    pub proc: ProcId,
    pub person: ByteList,
    pub project: ByteList,
}

/// A script: what each of its lines declares or asks for. It keeps all that the grammar asks of a script, and
/// beside it where a variable's object and a process's commands are found, so that nobody goes over all rows.
pub struct Script {
    said_wire: Option<u8>,
    nodes: Vec<NodeRow>,
    opening: Opening,
    objects: Vec<VarRow>,
    plan: FaultPlan,
    access: bool,
    subjects: Vec<SubjectRow>,
    phases: u32,
    commands: Vec<CommandRow>,
    declared: DeclaredVars,
    places: Places,
}

// Of its own, so that what drops one calls this and does not take it apart in place.
impl Drop for Script {
    fn drop(self) {
        let Script {
            said_wire: _,
            nodes: _,
            opening: _,
            objects: _,
            plan: _,
            access: _,
            subjects: _,
            phases: _,
            commands: _,
            declared: _,
            places: _,
        } = self;
    }
}

impl Model for Script {
    ghost use Rattle.script_reader.specs.Scripts.{Content};

    ghost Value = { Content };

    ghost use Rattle.script_reader.specs.Walk.Inside.{content_within, HoldsScript};

    ghost view = { content_within };

    ghost invariant = { HoldsScript };
}

impl Script {
    ghost use Rattle.std.specs.Prelude.{◌≡◌, ◌<◌, All, length};
    ghost use Rattle.script_reader.specs.Scripts.{Content, IsContent, wire_of};
    ghost use Rattle.script_reader.specs.Variables.{declared_object};
    ghost use Rattle.script_reader.specs.Places.{places_of};
    ghost use Rattle.script_reader.specs.Walk.Index.{HoldsDeclared};
    ghost use Rattle.script_reader.specs.Walk.Inside.{content_made};
    ghost use Rattle.script_reader.specs.Walk.Placed.{HoldsPlaces};

    /// The script of these parts.
    pub(crate) fn new(
        said_wire: Option<u8>,
        nodes: Vec<NodeRow>,
        opening: Opening,
        objects: Vec<VarRow>,
        plan: FaultPlan,
        access: bool,
        subjects: Vec<SubjectRow>,
        phases: u32,
        commands: Vec<CommandRow>,
        declared: DeclaredVars,
        places: Places,
    ) -> Script
        requires declared { HoldsDeclared declared objects.items }
        requires places { HoldsPlaces places commands.items }
        requires content { IsContent (content_made said_wire nodes.items opening objects.items plan access subjects.items phases commands.items) }
        ensures { result ≡ content_made said_wire nodes.items opening objects.items plan access subjects.items phases commands.items }
    {
        Script {
            said_wire,
            nodes,
            opening,
            objects,
            plan,
            access,
            subjects,
            phases,
            commands,
            declared,
            places,
        }
    }

    /// The version of its frames, 1 or 2: 1 where no line says one.
    pub fn wire(&self) -> u8
        ensures value { result ≡ wire_of self.now }
        ensures content { IsContent self.now }
    {
        self.said_wire.unwrap_or(1)
    }

    /// The nodes in order of their numbers, 1 to 8 of them.
    pub fn nodes(&self) -> &[NodeRow]
        ensures value { result.now ≡ self.now.nodes }
        ensures content { IsContent self.now }
    {
        self.nodes.as_slice()
    }

    /// What there is at the start: the declared objects, in script order.
    pub fn opening(&self) -> &Opening
        ensures value { result.now ≡ self.now.opening }
        ensures content { IsContent self.now }
    {
        &self.opening
    }

    /// The variables of the declared objects, in script order.
    pub fn objects(&self) -> &[VarRow]
        ensures value { result.now ≡ self.now.objects }
        ensures content { IsContent self.now }
    {
        self.objects.as_slice()
    }

    /// The fates of frames.
    pub fn plan(&self) -> &FaultPlan
        ensures value { result.now ≡ self.now.plan }
        ensures content { IsContent self.now }
    {
        &self.plan
    }

    /// Whether access lists are in force.
    pub fn access(&self) -> bool
        ensures { result ≡ self.now.access }
    {
        self.access
    }

    /// The subjects of processes, in script order, of each process one at most.
    pub fn subjects(&self) -> &[SubjectRow]
        ensures value { result.now ≡ self.now.subjects }
        ensures content { IsContent self.now }
    {
        self.subjects.as_slice()
    }

    /// How many phases there are, 1 to 1,000.
    pub fn phases(&self) -> u32
        ensures value { result ≡ self.now.phases }
        ensures content { IsContent self.now }
    {
        self.phases
    }

    /// The commands in script order, at most 20,000.
    pub fn commands(&self) -> &[CommandRow]
        ensures value { result.now ≡ self.now.commands }
        ensures content { IsContent self.now }
    {
        self.commands.as_slice()
    }

    /// The object of a declared variable; None where none is declared. Takes no memory.
    pub fn declared(&self, var: &[u8]) -> Option<Uid>
        ensures { result ≡ declared_object self.now.objects var.now }
    {
        self.declared.object(var)
    }

    /// The places of a process's commands in `commands`, rising. Takes no memory.
    pub fn places_of(&self, proc: ProcId) -> &[u32]
        ensures value { result.now ≡ places_of 0 proc self.now.commands }
        ensures bound { All (λ place. place < length self.now.commands) result.now }
    {
        let _range = (proc.node().number(), proc.number());
        self.places.of(proc)
    }
}
