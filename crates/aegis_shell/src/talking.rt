//! How the machine of a command goes on.
ghost use Rattle.std.specs.Prelude.{◌≡◌, Option, List, IfOk};
ghost use Rattle.std.specs.Option.{option_copied};
ghost use Rattle.dom_history.specs.declared.op.Op.{Op};
ghost use Rattle.command_talks.specs.Talks.{MayBeTold};
ghost use Rattle.aegis_shell.specs.States.{talk_goes};
ghost use Rattle.aegis_shell.specs.Turns.{going, AsksIn};

use crate::stage::{Stage, Turn};
use command_talks::{Machine, TalkStep};
use dom_history::Reply;
use std::alloc::Global;
use uid_names::NoMemory;

/// A machine that is told this.
pub fn turn_of(alloc: Global, mut talk: Machine, last: Option<&Reply>) -> Result<Turn, NoMemory>
    requires { MayBeTold talk (option_copied last) }
    ensures turn { IfOk result (λ turn. going turn ≡ talk_goes talk (option_copied last.entry)) }
    ensures asks { IfOk result (λ turn. (list : Option (List Op)) → AsksIn list turn) }
{
    match talk.next(alloc, last)? {
        TalkStep::Do(op) => Ok(Turn::Goes(Stage::Talks(talk), op)),
        TalkStep::Over(outcome) => Ok(Turn::Comes(outcome)),
    }
}
