//! How commands go on.
ghost use Rattle.std.specs.Prelude.{◌≡◌, Some, Option, List, IfOk, IfSome};
ghost use Rattle.dom_history.specs.declared.op.Op.{Op};
ghost use Rattle.dom_history.specs.declared.op.Reply.TheVariants.{Locks};
ghost use Rattle.dom_history.specs.Ranges.{IsRowName};
ghost use Rattle.aegis_shell.specs.AnswerTexts.{is_done as is_done_reply};
ghost use Rattle.aegis_shell.specs.Asking.{last_row as last_of_rows};
ghost use Rattle.aegis_shell.specs.Operations.{ops_of, second_of};
ghost use Rattle.command_talks.specs.Ranges.{IsRanged};
ghost use Rattle.aegis_shell.specs.States.{goes_on, on_first, on_list};
ghost use Rattle.aegis_shell.specs.Turns.{going, AsksIn, FitsStage};
ghost use Rattle.command_talks.specs.declared.outcome.Outcome.TheVariants.{Replied};
ghost use Rattle.aegis_shell.specs.declared.stage.Turn.TheVariants.{Comes};

use crate::answer::{is_done, together};
use crate::names::put_locks;
use crate::operation::second_operation;
use crate::stage::{Stage, Turn};
use crate::talking::turn_of;
use crate::work::Work;
use command_talks::Outcome;
use dom_history::{Op, Reply};
use script_reader::Command;
use std::alloc::Global;
use uid_names::{ByteList, LockRow, NoMemory, NodeId, ProcId, Uid};

/// The end of a command with this reply.
fn ended(alloc: Global, reply: &Reply) -> Result<Turn, NoMemory>
    ensures { IfOk result (λ turn. turn ≡ Comes (Replied reply.now)) }
{
    Ok(Turn::Comes(Outcome::Replied(reply.copy(alloc)?)))
}

/// A command whose first operation had this reply.
fn go_first(
    alloc: Global,
    work: &Work,
    command: &Command,
    object: Option<Uid>,
    reply: &Reply,
) -> Result<Turn, NoMemory>
    requires { IsRanged command.now }
    ensures turn { IfOk result (λ turn. going turn ≡ on_first (is_done_reply reply.now) (second_of (ops_of work.now.node command.now object)) (Some reply.now)) }
    ensures asks { IfOk result (AsksIn (ops_of work.now.node command.now object)) }
{
    if !is_done(reply) {
        return ended(alloc, reply);
    }
    match second_operation(alloc, work.node(), command, object)? {
        Some(op) => Ok(Turn::Goes(Stage::Second(reply.copy(alloc)?), op)),
        None => ended(alloc, reply),
    }
}

/// The name of the last of these rows.
#[tactic(auto, using(crate::proofs::Lasts::last_none, crate::proofs::Lasts::last_some))]
fn last_row(rows: &[LockRow]) -> Option<(Uid, ProcId)>
    ensures value { result ≡ last_of_rows rows.now }
    ensures range { IfSome result IsRowName }
{
    match rows.last() {
        None => None,
        Some(row) => {
            // A row names an object and a process.
            let _object = row.uid.number();
            let _node = row.proc.node();
            let _number = row.proc.number();
            Some((row.uid, row.proc))
        }
    }
}

/// A list of locks that is told these, of a home that may have more.
fn go_list(
    work: &Work,
    home: NodeId,
    mut text: ByteList,
    rows: &[LockRow],
    more: bool,
) -> Result<Turn, NoMemory>
    ensures turn { IfOk result (λ turn. going turn ≡ on_list work.now.names home text (Some (Locks rows.now more))) }
    ensures asks { IfOk result (λ turn. (list : Option (List Op)) → AsksIn list turn) }
{
    put_locks(&mut text, work.names(), rows)?;
    let after = last_row(rows);
    if !more || after.is_none() {
        return Ok(Turn::Comes(Outcome::Written(text)));
    }
    let _number = home.number();
    let stage = Stage::Lists(home, after, text);
    Ok(Turn::Goes(stage, Op::List { home, after }))
}

/// A command that works on this object and is told a reply at a stage.
pub fn go(
    alloc: Global,
    work: &Work,
    command: &Command,
    object: Option<Uid>,
    stage: Stage,
    reply: &Reply,
) -> Result<Turn, NoMemory>
    requires range { IsRanged command.now }
    requires fits { FitsStage (ops_of work.now.node command.now object) stage reply.now }
    ensures turn { IfOk result (λ turn. going turn ≡ goes_on work.now.names (ops_of work.now.node command.now object) stage (Some reply.now)) }
    ensures asks { IfOk result (AsksIn (ops_of work.now.node command.now object)) }
{
    match stage {
        Stage::Between => unreachable!(),
        Stage::First => go_first(alloc, work, command, object, reply),
        Stage::Second(first) => {
            let reply = together(alloc, first, reply)?;
            Ok(Turn::Comes(Outcome::Replied(reply)))
        }
        Stage::Talks(talk) => turn_of(alloc, talk, Some(reply)),
        Stage::Lists(home, _, text) => match reply {
            Reply::Locks { rows, more } => go_list(work, home, text, rows.items(), *more),
            _ => ended(alloc, reply),
        },
    }
}
