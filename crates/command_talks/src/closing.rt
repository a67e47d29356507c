//! How the source of a copy is closed.
ghost use Rattle.std.specs.Prelude.{◌≡◌, Some, Option, IfOk};
ghost use Rattle.std.specs.Option.{option_copied};
ghost use Rattle.naming_tree.specs.declared.step.NameResult.TheVariants.{Store};
ghost use Rattle.command_talks.specs.FileTalks.{closes, first_outcome as outcome_first, close_turn, FitsOp};
ghost use Rattle.command_talks.specs.FileTurns.{Asks};
ghost use Rattle.command_talks.specs.Sources.{close_op};
ghost use Rattle.command_talks.specs.declared.outcome.Outcome.TheVariants.{Came};

use crate::file_talk::{FileTalk, FileTurn};
use crate::outcome::Outcome;
use crate::source::Source;
use dom_history::Reply;
use mapped_streams::StreamResult;
use naming_tree::NameResult;
use std::alloc::Global;
use uid_names::NoMemory;

/// The source is closed; this is what the command has come to, unless all was done.
pub fn close(source: Source, outcome: Option<Outcome>) -> FileTurn
    ensures turn { result ≡ closes source outcome }
    ensures asks { Asks result }
{
    let op = source.close_op();
    FileTurn::Goes(FileTalk::Closes(source, outcome), op)
}

/// A refusal as what a command comes to.
pub fn refused(alloc: Global, reply: &Reply) -> Result<Outcome, NoMemory>
    ensures { IfOk result (λ outcome. outcome ≡ Came (Store reply.now)) }
{
    Ok(Outcome::Came(NameResult::Store(reply.copy(alloc)?)))
}

/// What the command has come to behind the reply to a closing: the first refusal counts.
fn first_outcome(
    alloc: Global,
    outcome: Option<Outcome>,
    reply: &Reply,
) -> Result<Option<Outcome>, NoMemory>
    ensures { IfOk result (λ first. first ≡ outcome_first outcome reply.now) }
{
    match outcome {
        Some(outcome) => Ok(Some(outcome)),
        None => match reply {
            Reply::Fine => Ok(None),
            _ => Ok(Some(refused(alloc, reply)?)),
        },
    }
}

/// The source, as it is closed.
pub fn closed(
    alloc: Global,
    source: Source,
    outcome: Option<Outcome>,
    last: Option<&Reply>,
) -> Result<FileTurn, NoMemory>
    requires { FitsOp (close_op source) (option_copied last) }
    ensures turn { IfOk result (λ turn. Some turn ≡ close_turn source outcome (option_copied last.entry)) }
    ensures asks { IfOk result Asks }
{
    let Some(reply) = last else { unreachable!() };
    let outcome = first_outcome(alloc, outcome, reply)?;
    if source.is_fresh() {
        return Ok(close(source.unmapped(), outcome));
    }
    match outcome {
        Some(outcome) => Ok(FileTurn::Comes(outcome)),
        None => Ok(FileTurn::Comes(Outcome::Streamed(StreamResult::Fine))),
    }
}
