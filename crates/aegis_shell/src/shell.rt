//! The program of a process.
ghost use Rattle.std.specs.Prelude.{◌≡◌, IfOk};

use crate::progress::Progress;
use crate::work::Work;
use dom_history::{Program, Reply, Want};
use script_reader::Script;
use std::alloc::Global;
use std::marker::Model;
use uid_names::{ByteList, NoMemory, ProcId};

/// The program of one process of a script: it carries out the process's commands in turn, which it borrows.
pub struct Shell<'a> {
    work: Work<'a>,
    begun: bool,
    progress: Progress,
    spent: bool,
}

// Of its own, so that what drops one calls this and does not take it apart in place.
impl Drop for Shell<'_> {
    fn drop(self) {
        let Shell {
            work: _,
            begun: _,
            progress: _,
            spent: _,
        } = self;
    }
}

impl<'a> Model for Shell<'a> {
    ghost use Rattle.aegis_shell.specs.Shells.{Shelled, UnlessSpent, IsKept};

    ghost Value = { Shelled };

    ghost view = { λ s. record { part = s.work; begun = s.begun; at = s.progress; spent = s.spent } };

    ghost invariant = { λ s. UnlessSpent s.spent (IsKept s.work s.begun s.progress) };
}

impl<'a> Shell<'a> {
    ghost use Rattle.aegis_shell.specs.Shells.{shell_of, shell_answers};

    /// The program of a process of a script. It keeps where the process's own commands stand in it.
    pub fn new(alloc: Global, script: &'a Script, proc: ProcId) -> Result<Shell<'a>, NoMemory>
        ensures { IfOk result (λ shell. shell ≡ shell_of script.now proc) }
    {
        let work = Work::new(alloc, script, proc)?;
        let progress = Progress::new(alloc, &work)?;
        Ok(Shell {
            work,
            begun: false,
            progress,
            spent: false,
        })
    }

    /// The answers of the finished commands, in order.
    pub fn answers(&self) -> &[ByteList]
        ensures { result.now ≡ shell_answers self.now }
    {
        self.progress.answers()
    }
}

impl Program for Shell<'_> {
    ghost use Rattle.std.specs.Prelude.{length};
    ghost use Rattle.aegis_shell.specs.Shells.{shell_after, shell_wants, shell_answers};

    ghost wants = { λ s. shell_wants s };

    ghost becomes = { λ s told. shell_after s told };

    ghost answered = { λ s. length (shell_answers s) };

    ghost spent = { λ s. s.spent };

    fn next(&mut self, alloc: Global, last: Option<&Reply>) -> Result<Want, NoMemory> {
        // Until the turn is done; where it finds no memory the value stays so.
        self.spent = true;
        let want = self.progress.turn(alloc, &self.work, self.begun, last)?;
        self.begun = true;
        self.spent = false;
        Ok(want)
    }

    fn at(&self) -> u32 {
        // There are as many commands at least, and they are few.
        let _jobs = self.work.jobs();
        self.progress.answers().len() as u32
    }
}
