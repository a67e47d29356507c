//! What is shown of a run.
ghost use Rattle.std.specs.Prelude.{◌≡◌};
ghost use Rattle.event_views.specs.Runs.{AreNamed};

use crate::command::{CommandName, CommandView};
use crate::said::FrameSaid;
use dom_history::{Event, FaultPlan, NodeNames};
use script_reader::VarRow;
use std::marker::Model;
use uid_names::ItemList;

/// A frame as it is shown: what it says, a reply with what its request says, and the command for which it was sent, if it is known.
#[derive(Clone, Copy, Debug, PartialEq, Eq)]
pub struct FrameView {
    pub said: FrameSaid,
    pub command: Option<CommandName>,
}

/// An event as it is shown: the frame that it sent, that which it took or was told of, the command that begins with it, and those that are
/// answered behind it.
#[derive(Drop, Debug)]
pub struct EventView {
    pub event: Event,
    pub sent: Option<FrameView>,
    pub met: Option<FrameView>,
    pub begun: Option<CommandName>,
    pub answered: ItemList<CommandName>,
}

/// What is shown of a run: the names of its nodes and of its declared objects, the fates of frames, its commands by process and number, those
/// that were answered before any event, and its events in order.
#[derive(Drop, Debug)]
pub struct RunView {
    names: NodeNames,
    objects: ItemList<VarRow>,
    plan: FaultPlan,
    commands: ItemList<CommandView>,
    early: ItemList<CommandName>,
    events: ItemList<EventView>,
}

impl Model for RunView {
    ghost use Rattle.event_views.specs.Runs.{Run, AreNamed};

    ghost Value = { Run };

    ghost view = { λ r. record { names = r.names; objects = r.objects; plan = r.plan; commands = r.commands; early = r.early; events = r.events } };

    ghost invariant = { λ r. AreNamed r.names r.events };
}

impl RunView {
    /// The run of these parts. Takes no memory.
    pub fn new(
        names: NodeNames,
        objects: ItemList<VarRow>,
        plan: FaultPlan,
        commands: ItemList<CommandView>,
        early: ItemList<CommandName>,
        events: ItemList<EventView>,
    ) -> RunView
        requires named { AreNamed names events }
        ensures { result ≡ record { names = names; objects = objects; plan = plan; commands = commands; early = early; events = events } }
    {
        RunView {
            names,
            objects,
            plan,
            commands,
            early,
            events,
        }
    }

    /// The names of its nodes.
    pub fn names(&self) -> &NodeNames
        ensures { result.now ≡ self.now.names }
    {
        &self.names
    }

    /// The variables of its declared objects.
    pub fn objects(&self) -> &[VarRow]
        ensures { result.now ≡ self.now.objects }
    {
        self.objects.items()
    }

    /// The fates of frames.
    pub fn plan(&self) -> &FaultPlan
        ensures { result.now ≡ self.now.plan }
    {
        &self.plan
    }

    /// Its commands, by process and number.
    pub fn commands(&self) -> &[CommandView]
        ensures { result.now ≡ self.now.commands }
    {
        self.commands.items()
    }

    /// The commands that were answered before any event.
    pub fn early(&self) -> &[CommandName]
        ensures { result.now ≡ self.now.early }
    {
        self.early.items()
    }

    /// Its events in order, whose nodes all have names.
    pub fn events(&self) -> &[EventView]
        ensures value { result.now ≡ self.now.events }
        ensures named { AreNamed self.now.names result.now }
    {
        self.events.items()
    }
}
