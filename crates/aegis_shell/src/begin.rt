//! How commands begin.
ghost use Rattle.std.specs.Prelude.{◌≡◌, false, codes, None, IfOk};
ghost use Rattle.dom_history.specs.declared.op.Op.{Op};
ghost use Rattle.dom_history.specs.declared.op.Op.TheVariants.{List as ListOp};
ghost use Rattle.dom_history.specs.Ranges.{IsNodeNumber};
ghost use Rattle.command_talks.specs.Ranges.{IsRanged};
ghost use Rattle.command_talks.specs.Commands.{talks};
ghost use Rattle.aegis_shell.specs.Operations.{ops_of};
ghost use Rattle.aegis_shell.specs.Plans.{is_long, makes};
ghost use Rattle.aegis_shell.specs.States.{begins as begins_so, begins_by};
ghost use Rattle.aegis_shell.specs.Turns.{going, AsksIn};
ghost use Rattle.command_talks.specs.declared.outcome.Outcome.TheVariants.{Written};
ghost use Rattle.aegis_shell.specs.declared.stage.Stage.TheVariants.{Lists};
ghost use Rattle.aegis_shell.specs.declared.stage.Turn.TheVariants.{Goes, Comes};

use crate::names::directory_text;
use crate::operation::first_operation;
use crate::stage::{Stage, Turn};
use crate::talking::turn_of;
use crate::work::Work;
use crate::working::Working;
use command_talks::{Outcome, machine_for};
use dom_history::Op;
use script_reader::Command;
use std::alloc::Global;
use uid_names::{ByteList, NoMemory, NodeId, Uid};

/// The most bytes of a working directory's text.
const MAX_TEXT: usize = 256;

/// An answer that is written at once.
fn written(alloc: Global, text: &[u8]) -> Result<Turn, NoMemory>
    ensures { IfOk result (λ turn. turn ≡ Comes (Written text.now)) }
{
    let text = ByteList::from_slice(alloc, text)?;
    Ok(Turn::Comes(Outcome::Written(text)))
}

/// The beginning of a list of the locks of a home.
fn list(alloc: Global, home: NodeId) -> Result<Turn, NoMemory>
    ensures turn { IfOk result (λ turn. turn ≡ Goes (Lists home None (codes "ok")) (ListOp home None)) }
    ensures range { IfOk result (λ turn. IsNodeNumber home) }
{
    let _number = home.number();
    let text = ByteList::from_slice(alloc, b"ok")?;
    let stage = Stage::Lists(home, None, text);
    Ok(Turn::Goes(stage, Op::List { home, after: None }))
}

/// The beginning of a command that makes operations on this object, or lacks it.
#[tactic(auto, using(crate::proofs::Beginnings::makes_first, crate::proofs::Beginnings::lacks_object))]
fn operate(
    alloc: Global,
    work: &Work,
    working: &Working,
    command: &Command,
    object: Option<Uid>,
) -> Result<Turn, NoMemory>
    requires { IsRanged command.now }
    ensures turn { IfOk result (λ turn. going turn ≡ begins_by work.now working.now command.now (makes (ops_of work.now.node command.now object))) }
    ensures asks { IfOk result (AsksIn (ops_of work.now.node command.now object)) }
{
    match first_operation(alloc, work.node(), command, object)? {
        Some(op) => Ok(Turn::Goes(Stage::First, op)),
        None => written(alloc, b"not bound"),
    }
}

/// Whether the command enters a directory whose text would be too long.
fn is_too_long(
    alloc: Global,
    work: &Work,
    working: &Working,
    command: &Command,
) -> Result<bool, NoMemory>
    ensures { IfOk result (λ long. long ≡ is_long work.now working.now command.now) }
{
    match command {
        Command::Wd { path: Some(path) } => {
            let text = working.text_at(alloc, work, path.bytes())?;
            Ok(text.bytes().len() > MAX_TEXT)
        }
        _ => Ok(false),
    }
}

/// The beginning of a command that has no dialogue.
fn begin_alone(
    alloc: Global,
    work: &Work,
    working: &Working,
    command: &Command,
    object: Option<Uid>,
) -> Result<Turn, NoMemory>
    requires range { IsRanged command.now }
    requires alone { talks command.now ≡ false }
    ensures turn { IfOk result (λ turn. going turn ≡ begins_so work.now working.now object command.now) }
    ensures asks { IfOk result (AsksIn (ops_of work.now.node command.now object)) }
{
    match command {
        Command::Wd { path: _ } => {
            let text = directory_text(alloc, working.text.bytes())?;
            Ok(Turn::Comes(Outcome::Written(text)))
        }
        Command::Llkob { node } => list(alloc, *node),
        _ => operate(alloc, work, working, command, object),
    }
}

/// The beginning of a command that works on this object.
pub fn begin(
    alloc: Global,
    work: &Work,
    command: &Command,
    object: Option<Uid>,
    working: &Working,
) -> Result<Turn, NoMemory>
    requires { IsRanged command.now }
    ensures turn { IfOk result (λ turn. going turn ≡ begins_so work.now working.now object command.now) }
    ensures asks { IfOk result (AsksIn (ops_of work.now.node command.now object)) }
{
    if is_too_long(alloc, work, working, command)? {
        return written(alloc, b"path too long");
    }
    match machine_for(alloc, work.guard(), work.site(), working.dir, command)? {
        Some(machine) => turn_of(alloc, machine, None),
        None => begin_alone(alloc, work, working, command, object),
    }
}
