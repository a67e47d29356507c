//! The machines that commands drive.
ghost use Rattle.std.specs.Prelude.{◌≡◌, IfOk};

use crate::file_talk::FileTalk;
use crate::outcome::Outcome;
use naming_tree::Step;
use std::alloc::{AllocError, Global};
use std::marker::Model;
use uid_names::NoMemory;

/// Where a command is; None where it is over.
#[derive(Drop)]
pub struct Talk {
    pub at: Option<FileTalk>,
}

/// A machine that lies apart, so that what holds it is a few words and is moved as such.
#[derive(Drop)]
pub struct Machine {
    pub(crate) talk: Box<Talk>,
}

impl Model for Machine {
    ghost use Rattle.command_talks.specs.declared.talk.Talk.{Talk};

    ghost Value = { Talk };

    ghost view = { λ m. m.talk.value };
}

impl Machine {
    /// This machine.
    pub(crate) fn new(alloc: Global, talk: Talk) -> Result<Machine, NoMemory>
        ensures { IfOk result (λ machine. machine ≡ talk) }
    {
        let talk = Box::new(alloc, talk).map_err(AllocError::from)?;
        Ok(Machine { talk })
    }
}

/// What a machine says: its next operation, or what the command has come to.
pub type TalkStep = Step<Outcome>;
