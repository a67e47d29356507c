//! How the machines of commands go on.
ghost use Rattle.std.specs.Prelude.{◌≡◌, Some, None, IfOk, OnErr, IfSome, IsSome};
ghost use Rattle.std.specs.Option.{option_copied};
ghost use Rattle.command_talks.specs.FileTurns.{Asks as FileAsks, IsApart};
ghost use Rattle.command_talks.specs.Talks.{turn_by, as_turn, led_in, talk_in, talk_turn, turn_in, AsksThere, MayBeTold, MayTellIn};

use crate::come::Come;
use crate::file_talk::{FileTalk, FileTurn};
use crate::talk::{Machine, Talk, TalkStep};
use crate::telling::ComeStep;
use dom_history::Reply;
use std::alloc::Global;
use uid_names::NoMemory;

/// A machine stands where its turn leads.
fn stand(talk: &mut Option<FileTalk>, turn: FileTurn) -> TalkStep
    requires { FileAsks turn }
    ensures turn { turn_by result (talk_in talk.new) ≡ as_turn turn }
    ensures asks { AsksThere (turn_by result (talk_in talk.new)) }
{
    match turn {
        FileTurn::Goes(machine, op) => {
            *talk = Some(machine);
            TalkStep::Do(op)
        }
        FileTurn::Comes(outcome) => TalkStep::Over(outcome),
    }
}

/// What a command drove has come to this, and leads it on: only then is it moved.
#[inline(never)]
fn lead_on(alloc: Global, talk: &mut Option<FileTalk>, come: Come) -> Result<TalkStep, NoMemory>
    requires { IsSome talk.old }
    ensures turn { IfOk result (λ step. Some (turn_by step (talk_in talk.new)) ≡ led_in talk.old come) }
    ensures asks { IfOk result (λ step. AsksThere (turn_by step (talk_in talk.new))) }
{
    let Some(machine) = talk.take() else {
        unreachable!()
    };
    let turn = machine.led(alloc, come)?;
    Ok(stand(talk, turn))
}

/// A command that drives nothing is told this.
#[inline(never)]
fn move_on(
    alloc: Global,
    talk: &mut Option<FileTalk>,
    last: Option<&Reply>,
) -> Result<TalkStep, NoMemory>
    requires fits { MayTellIn talk.old (option_copied last) }
    requires apart { IfSome talk.old IsApart }
    ensures turn { IfOk result (λ step. Some (turn_by step (talk_in talk.new)) ≡ turn_in talk.old (option_copied last.entry)) }
    ensures asks { IfOk result (λ step. AsksThere (turn_by step (talk_in talk.new))) }
{
    let Some(machine) = talk.take() else {
        unreachable!()
    };
    let turn = machine.turn(alloc, last)?;
    Ok(stand(talk, turn))
}

/// A machine that is told this goes on where it stands, until what it drives has come to something.
fn file_step(
    alloc: Global,
    talk: &mut Option<FileTalk>,
    last: Option<&Reply>,
) -> Result<TalkStep, NoMemory>
    requires { MayTellIn talk.old (option_copied last) }
    ensures turn { IfOk result (λ step. Some (turn_by step (talk_in talk.new)) ≡ turn_in talk.old (option_copied last.entry)) }
    ensures asks { IfOk result (λ step. AsksThere (turn_by step (talk_in talk.new))) }
{
    let Some(machine) = talk else { unreachable!() };
    match machine.tell(alloc, last)? {
        Some(ComeStep::Do(op)) => Ok(TalkStep::Do(op)),
        Some(ComeStep::Over(come)) => lead_on(alloc, talk, come),
        None => move_on(alloc, talk, last),
    }
}

impl Talk {
    /// Tells it the reply to its operation; nothing at the first call.
    fn next(&mut self, alloc: Global, last: Option<&Reply>) -> Result<TalkStep, NoMemory>
        requires { MayBeTold self.old (option_copied last) }
        ensures turn { IfOk result (λ step. Some (turn_by step self.new) ≡ talk_turn self.old (option_copied last.entry)) }
        ensures asks { IfOk result (λ step. AsksThere (turn_by step self.new)) }
    {
        file_step(alloc, &mut self.at, last)
    }
}

impl Machine {
    /// Tells it the reply to its operation; nothing at the first call. Where there is no memory it is over.
    pub fn next(&mut self, alloc: Global, last: Option<&Reply>) -> Result<TalkStep, NoMemory>
        requires { MayBeTold self.old (option_copied last) }
        ensures turn { IfOk result (λ step. Some (turn_by step self.new) ≡ talk_turn self.old (option_copied last.entry)) }
        ensures asks { IfOk result (λ step. AsksThere (turn_by step self.new)) }
        ensures memory { OnErr result (self.new ≡ talk_in None) }
    {
        match self.talk.next(alloc, last) {
            Ok(step) => Ok(step),
            Err(error) => {
                self.end();
                Err(error)
            }
        }
    }

    /// It is over. It stands apart, so that what it drops costs nothing where nothing is dropped.
    #[inline(never)]
    fn end(&mut self)
        ensures { self.new ≡ talk_in None }
    {
        *self.talk = Talk { at: None };
    }
}
