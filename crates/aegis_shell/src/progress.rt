//! How far a process has come in its jobs.
ghost use Rattle.std.specs.Prelude.{◌≡◌, ◌≤◌, ◌<◌, ◌∷◌, length, nat_lt, [], true, None, Some, IfOk, IfSome, OnOk, MatchOption};
ghost use Rattle.std.specs.Option.{option_copied};
ghost use Rattle.dom_history.specs.declared.op.Want.TheVariants.{Do};
ghost use Rattle.dom_history.specs.Programs.{FitsWant};
ghost use Rattle.dom_history.specs.Ranges.{IsOp, IsWant};
ghost use Rattle.command_talks.specs.Ranges.{IsRanged};
ghost use Rattle.aegis_shell.specs.Outcomes.{bound_by, working_after as working_behind};
ghost use Rattle.aegis_shell.specs.Ranges.{AreJobs};
ghost use Rattle.aegis_shell.specs.Standing.{first_working};
ghost use Rattle.aegis_shell.specs.States.{rebind_if};

use crate::begin::begin;
use crate::bindings::Bindings;
use crate::go::go;
use crate::names::outcome_text;
use crate::stage::{Stage, Turn};
use crate::work::{Job, Work};
use crate::working::Working;
use command_talks::Outcome;
use dom_history::{Op, Reply, Want};
use naming_tree::{NameResult, Walked};
use script_reader::Command;
use std::alloc::Global;
use std::marker::Model;
use std::mem::replace;
use uid_names::{ByteList, NoMemory, ObjKind, Uid};

/// Where a process stands: its phase, its variables, its working directory, how far it is in its next command, and the
/// answers of the commands that are finished.
pub struct Progress {
    phase: u32,
    bound: Bindings,
    working: Working,
    stage: Stage,
    answers: Vec<ByteList>,
}

// Of its own, so that what drops one calls this and does not take it apart in place.
impl Drop for Progress {
    fn drop(self) {
        let Progress {
            phase: _,
            bound: _,
            working: _,
            stage: _,
            answers: _,
        } = self;
    }
}

impl Model for Progress {
    ghost use Rattle.aegis_shell.specs.States.{State};

    ghost Value = { State };

    ghost view = { λ p. record { phase = p.phase; bound = p.bound; working = p.working; stage = p.stage; answers = p.answers.items } };
}

/// The variable that a command binds, with its object.
#[tactic(auto, using(crate::proofs::RangeTests::named_binds))]
fn binding<'a>(command: &'a Command, outcome: &Outcome) -> Option<(&'a [u8], Uid)>
    ensures { MatchOption result (bound_by command.now outcome.now ≡ None) (λ b. bound_by command.now outcome.now ≡ Some (b.0.now, b.1)) }
{
    match (command, outcome) {
        (Command::New { var, .. }, Outcome::Replied(Reply::Made(uid))) => {
            // It names an object.
            let _number = uid.number();
            Some((var.bytes(), *uid))
        }
        (Command::Bind { var, .. }, Outcome::Came(NameResult::Found(Walked::At { uid, .. }))) => {
            // It names an object.
            let _number = uid.number();
            Some((var.bytes(), *uid))
        }
        _ => None,
    }
}

/// Binds the variable of a command that has come to its end, where it binds one.
fn bind_by(
    alloc: Global,
    bound: &mut Bindings,
    command: &Command,
    outcome: &Outcome,
) -> Result<(), NoMemory>
    ensures { OnOk result (bound.new ≡ rebind_if (bound_by command.now outcome.now) bound.old) }
{
    match binding(command, outcome) {
        Some((var, uid)) => bound.bind(alloc, var, uid),
        None => Ok(()),
    }
}

/// Enters the directory to which the path of a command leads, where it is one that the command enters.
fn enter_by(
    alloc: Global,
    work: &Work,
    working: &mut Working,
    command: &Command,
    outcome: &Outcome,
) -> Result<(), NoMemory>
    ensures { OnOk result (working.new ≡ working_behind work.now working.old command.now outcome.now) }
{
    if let Command::Wd { path: Some(path) } = command {
        if let Outcome::Came(
            NameResult::Found(
                Walked::At {
                    uid,
                    kind: ObjKind::Directory,
                    ..
                },
            ),
        ) = outcome
        {
            let text = working.text_at(alloc, work, path.bytes())?;
            *working = Working { dir: *uid, text };
        }
    }
    Ok(())
}

impl Progress {
    ghost use Rattle.command_talks.specs.declared.outcome.Outcome.TheVariants.{Written};
    ghost use Rattle.aegis_shell.specs.declared.stage.Stage.TheVariants.{Between};
    ghost use Rattle.aegis_shell.specs.Shells.{state_after, want_when, IsKept};
    ghost use Rattle.aegis_shell.specs.States.{beginning, behind, left, want_of, settled, finished, hear as heard_of};

    /// The beginning: phase 1, nothing bound or answered, and the working directory is the node's entry directory.
    pub fn new(alloc: Global, work: &Work) -> Result<Progress, NoMemory>
        ensures { IfOk result (λ progress. progress ≡ beginning work.now) }
    {
        Ok(Progress {
            phase: 1,
            bound: Bindings::new(alloc),
            working: Working::first(alloc, work)?,
            stage: Stage::Between,
            answers: Vec::new(alloc),
        })
    }

    /// The answers of the finished commands, in order.
    pub fn answers(&self) -> &[ByteList]
        ensures { result.now ≡ self.now.answers }
    {
        self.answers.as_slice()
    }

    /// The commands without an answer.
    #[tactic(auto, using(crate::proofs::Wanting::left_ranged))]
    fn left<'a>(&self, work: &'a Work<'a>) -> &'a [Job<'a>]
        requires { length self.now.answers ≤ length work.now.jobs }
        ensures value { result.now ≡ left work.now self.now }
        ensures ranges { AreJobs (left work.now self.now) }
    {
        &work.jobs()[self.answers.len()..]
    }

    /// The first command without an answer.
    fn next_job<'a>(&self, work: &'a Work<'a>) -> &'a Job<'a>
        requires { length self.now.answers < length work.now.jobs }
        ensures value { left work.now self.now ≡ result.now ∷ behind work.now self.now }
        ensures range { IsRanged result.now.command }
    {
        &work.jobs()[self.answers.len()]
    }

    /// Ends a command whose answer is written already.
    #[tactic(auto, using(crate::proofs::Writings::written_ends))]
    fn finish_written(
        &mut self,
        work: &Work,
        command: &Command,
        text: ByteList,
    ) -> Result<(), NoMemory>
        ensures { OnOk result (self.new ≡ finished work.now self.old command.now (Written text)) }
    {
        self.answers.push(text)?;
        self.stage = Stage::Between;
        Ok(())
    }

    /// Ends a command whose answer is still to be written.
    fn finish_with(
        &mut self,
        alloc: Global,
        work: &Work,
        command: &Command,
        outcome: &Outcome,
    ) -> Result<(), NoMemory>
        ensures { OnOk result (self.new ≡ finished work.now self.old command.now outcome.now) }
    {
        let text = outcome_text(alloc, work, &self.working, command, outcome)?;
        self.answers.push(text)?;
        bind_by(alloc, &mut self.bound, command, outcome)?;
        enter_by(alloc, work, &mut self.working, command, outcome)?;
        self.stage = Stage::Between;
        Ok(())
    }

    /// Ends a command that has come to this.
    fn finish(
        &mut self,
        alloc: Global,
        work: &Work,
        command: &Command,
        outcome: Outcome,
    ) -> Result<(), NoMemory>
        ensures { OnOk result (self.new ≡ finished work.now self.old command.now outcome) }
    {
        match outcome {
            Outcome::Written(text) => self.finish_written(work, command, text),
            outcome => self.finish_with(alloc, work, command, &outcome),
        }
    }

    /// Takes in the reply to an operation. The answer is the operation with which the command goes on, where it does.
    fn hear_reply(
        &mut self,
        alloc: Global,
        work: &Work,
        reply: &Reply,
    ) -> Result<Option<Op>, NoMemory>
        requires { FitsWant (want_of work.now self.old) (Some reply.now) }
        ensures state { OnOk result (self.new ≡ heard_of work.now self.old (left work.now self.old) (Some reply.now)) }
        ensures next { IfOk result (λ op. MatchOption op (self.new.stage ≡ Between) (λ o. want_of work.now self.new ≡ Do o)) }
        ensures range { IfOk result (λ op. IfSome op IsOp) }
    {
        let job = self.next_job(work);
        let command = job.command();
        let object = job.object(&self.bound);
        let stage = replace(&mut self.stage, Stage::Between);
        match go(alloc, work, command, object, stage, reply)? {
            Turn::Goes(stage, op) => {
                self.stage = stage;
                Ok(Some(op))
            }
            Turn::Comes(outcome) => {
                self.finish(alloc, work, command, outcome)?;
                Ok(None)
            }
        }
    }

    /// Goes into the next phase.
    fn pass(&mut self, work: &Work)
        requires { FitsWant (want_of work.now self.old) None }
        ensures state { self.new ≡ heard_of work.now self.old (left work.now self.old) None }
        ensures stage { self.new.stage ≡ Between }
    {
        // The phase of a job is small.
        let _jobs = work.jobs();
        self.phase += 1;
    }

    /// Takes in what the process is told. The answer is the operation with which a command goes on, where it does.
    fn hear(
        &mut self,
        alloc: Global,
        work: &Work,
        last: Option<&Reply>,
    ) -> Result<Option<Op>, NoMemory>
        requires { FitsWant (want_of work.now self.old) (option_copied last) }
        ensures state { OnOk result (self.new ≡ heard_of work.now self.old (left work.now self.old) (option_copied last.entry)) }
        ensures next { IfOk result (λ op. MatchOption op (self.new.stage ≡ Between) (λ o. want_of work.now self.new ≡ Do o)) }
        ensures range { IfOk result (λ op. IfSome op IsOp) }
    {
        match last {
            Some(reply) => self.hear_reply(alloc, work, reply),
            None => {
                self.pass(work);
                Ok(None)
            }
        }
    }

    /// What the process wants that is in no command. Commands of its phase that ask for no operation are ended on the way.
    fn want(&mut self, alloc: Global, work: &Work) -> Result<Want, NoMemory>
        requires between { self.old.stage ≡ Between }
        requires within { length self.old.answers ≤ length work.now.jobs }
        ensures state { OnOk result (self.new ≡ settled work.now self.old) }
        ensures want { IfOk result (λ want. want ≡ want_of work.now self.new) }
        ensures range { IfOk result IsWant }
    {
        for job in self.left(work) {
            if self.phase < job.phase() {
                return Ok(Want::Phase);
            }
            let command = job.command();
            let object = job.object(&self.bound);
            match begin(alloc, work, command, object, &self.working)? {
                Turn::Goes(stage, op) => {
                    self.stage = stage;
                    return Ok(Want::Do(op));
                }
                Turn::Comes(outcome) => self.finish(alloc, work, command, outcome)?,
            }
        }
        Ok(Want::Done)
    }

    /// One turn of the process: it is told this, and says what it wants. Before its first turn there is nothing
    /// to tell.
    pub fn turn(
        &mut self,
        alloc: Global,
        work: &Work,
        begun: bool,
        last: Option<&Reply>,
    ) -> Result<Want, NoMemory>
        requires kept { IsKept work.now begun self.old }
        requires fits { FitsWant (want_when begun work.now self.old) (option_copied last) }
        ensures state { OnOk result (self.new ≡ state_after begun work.now self.old (option_copied last.entry)) }
        ensures want { IfOk result (λ want. want ≡ want_of work.now self.new) }
        ensures range { IfOk result IsWant }
        ensures kept { OnOk result (IsKept work.now true self.new) }
    {
        if !begun {
            return self.want(alloc, work);
        }
        match self.hear(alloc, work, last)? {
            Some(op) => Ok(Want::Do(op)),
            None => self.want(alloc, work),
        }
    }
}
