//! How a file is copied to a new name.
ghost use Rattle.std.specs.Prelude.{◌≡◌, Some, None, Option, IsTrue, IfOk, IsSome};
ghost use Rattle.std.specs.Option.{option_copied};
ghost use Rattle.dom_history.specs.Fitting.{is_length_reply, is_map_reply};
ghost use Rattle.naming_tree.specs.Changing.{changing_asks};
ghost use Rattle.naming_tree.specs.Turns.{FitsStood};
ghost use Rattle.naming_tree.specs.declared.step.NameResult.TheVariants.{Store};
ghost use Rattle.mapped_streams.specs.States.{streaming_of};
ghost use Rattle.mapped_streams.specs.declared.work.Work.TheVariants.{Copy as CopyWork};
ghost use Rattle.uid_names.specs.declared.mode.Mode.TheVariants.{Read as ReadMode};
ghost use Rattle.dom_history.specs.declared.op.Op.TheVariants.{Lock as LockOp};
ghost use Rattle.command_talks.specs.FileTalks.{closes, stream_told, file_turn, added_turn, fill_turn, begin_fill, lock_turn, length_turn, map_turn, open_turn, opening_op, FitsOp};
ghost use Rattle.command_talks.specs.FileTurns.{Asks};
ghost use Rattle.command_talks.specs.Sources.{source_of};
ghost use Rattle.command_talks.specs.declared.file_talk.FileTalk.TheVariants.{Adds, Copies, Opens};
ghost use Rattle.command_talks.specs.declared.file_talk.FileTurn.TheVariants.{Goes};
ghost use Rattle.command_talks.specs.declared.file_talk.Opening.TheVariants.{Lock as LockStage};
ghost use Rattle.command_talks.specs.declared.outcome.Outcome.TheVariants.{Came};

use crate::closing::{close, refused};
use crate::errand::{Errand, NewObject, Target};
use crate::file_talk::{FileTalk, FileTurn, Opening};
use crate::outcome::Outcome;
use crate::seeking::reach;
use crate::source::Source;
use crate::streaming::turned;
use dom_history::{Op, Reply};
use naming_tree::{ChangeAt, NameResult, NameStep};
use std::alloc::Global;
use uid_names::{Mode, NoMemory, ObjKind, Uid};

/// The target of a copy is there: it takes the bytes.
fn begin_copy(alloc: Global, source: Source, to: Uid) -> Result<FileTurn, NoMemory>
    ensures turn { IfOk result (λ turn. Some turn ≡ stream_told (λ m. Copies source m) (Some (streaming_of to (CopyWork source.at 0 None))) None) }
    ensures asks { IfOk result Asks }
{
    let mut machine = source.copy_to(to);
    let step = machine.next(alloc, None)?;
    Ok(turned(FileTalk::Copies(source, machine), step))
}

/// The addition of the target of a copy has come to this.
pub fn added(alloc: Global, source: Source, come: NameResult) -> Result<FileTurn, NoMemory>
    ensures turn { IfOk result (λ turn. Some turn ≡ added_turn source come) }
    ensures asks { IfOk result Asks }
{
    match &come {
        NameResult::Added(to) => begin_copy(alloc, source, *to),
        _ => Ok(close(source, Some(Outcome::Came(come)))),
    }
}

/// The target of a copy that is added.
pub fn add(
    alloc: Global,
    source: Source,
    mut machine: ChangeAt,
    last: Option<&Reply>,
) -> Result<FileTurn, NoMemory>
    requires still { IsSome machine }
    requires fits { FitsStood changing_asks machine (option_copied last) }
    ensures turn { IfOk result (λ turn. Some turn ≡ file_turn (Adds source machine) (option_copied last.entry)) }
    ensures asks { IfOk result Asks }
{
    match machine.next(alloc, last)? {
        NameStep::Do(op) => Ok(FileTurn::Goes(FileTalk::Adds(source, machine), op)),
        NameStep::Over(come) => added(alloc, source, come),
    }
}

/// The walk to the directory of the target's name has come to this.
pub fn fill(alloc: Global, source: Source, come: NameResult) -> Result<FileTurn, NoMemory>
    ensures turn { IfOk result (λ turn. Some turn ≡ fill_turn source come) }
    ensures asks { IfOk result Asks }
{
    match &come {
        NameResult::Under(place) => {
            let file = NewObject::new(ObjKind::File, source.room(), None);
            let machine = file.add_at(alloc, place);
            add(alloc, source, machine, None)
        }
        _ => Ok(close(source, Some(Outcome::Came(come)))),
    }
}

/// The source of a copy is open: the directory of its target's name is looked for.
fn begin_filling(alloc: Global, source: Source, target: Target) -> Result<FileTurn, NoMemory>
    ensures turn { IfOk result (λ turn. Some turn ≡ begin_fill source target) }
    ensures asks { IfOk result Asks }
{
    let (machine, guard) = target.walk(alloc)?;
    reach(alloc, machine, Errand::Fill(source), guard, None)
}

/// A refusal while the source was only locked.
fn give_up(alloc: Global, source: Source, reply: &Reply) -> Result<FileTurn, NoMemory>
    ensures turn { IfOk result (λ turn. turn ≡ closes (source_of source.uid) (Some (Came (Store reply.now)))) }
    ensures asks { IfOk result Asks }
{
    let outcome = refused(alloc, reply)?;
    Ok(close(Source::new(source.uid()), Some(outcome)))
}

/// The lock of the source is answered so.
fn locked(
    alloc: Global,
    source: Source,
    target: Target,
    reply: &Reply,
) -> Result<FileTurn, NoMemory>
    ensures turn { IfOk result (λ turn. Some turn ≡ lock_turn source target reply.now) }
    ensures asks { IfOk result Asks }
{
    if let Reply::Fine = reply {
        let uid = source.uid();
        let talk = FileTalk::Opens(source, Opening::Length, target);
        return Ok(FileTurn::Goes(talk, Op::Length { uid }));
    }
    Ok(FileTurn::Comes(refused(alloc, reply)?))
}

/// So is its length.
fn measured(
    alloc: Global,
    source: Source,
    target: Target,
    reply: &Reply,
) -> Result<FileTurn, NoMemory>
    requires { IsTrue (is_length_reply reply.now) }
    ensures turn { IfOk result (λ turn. Some turn ≡ length_turn source target reply.now) }
    ensures asks { IfOk result Asks }
{
    match reply {
        Reply::Size(length) => {
            let uid = source.uid();
            let talk = FileTalk::Opens(source.measured(*length), Opening::Map, target);
            Ok(FileTurn::Goes(talk, Op::Map { uid }))
        }
        _ => give_up(alloc, source, reply),
    }
}

/// So is its mapping.
fn mapped(
    alloc: Global,
    source: Source,
    target: Target,
    reply: &Reply,
) -> Result<FileTurn, NoMemory>
    requires { IsTrue (is_map_reply reply.now) }
    ensures turn { IfOk result (λ turn. Some turn ≡ map_turn source target reply.now) }
    ensures asks { IfOk result Asks }
{
    match reply {
        Reply::At { address, fresh } => {
            begin_filling(alloc, source.mapped(*address, *fresh), target)
        }
        _ => give_up(alloc, source, reply),
    }
}

/// The source of a copy, as it is opened.
pub fn open(
    alloc: Global,
    source: Source,
    stage: Opening,
    target: Target,
    last: Option<&Reply>,
) -> Result<FileTurn, NoMemory>
    requires { FitsOp (opening_op source.uid stage) (option_copied last) }
    ensures turn { IfOk result (λ turn. Some turn ≡ open_turn source stage target (option_copied last.entry)) }
    ensures asks { IfOk result Asks }
{
    let Some(reply) = last else { unreachable!() };
    match stage {
        Opening::Lock => locked(alloc, source, target, reply),
        Opening::Length => measured(alloc, source, target, reply),
        Opening::Map => mapped(alloc, source, target, reply),
    }
}

/// The source of a copy before it is opened.
pub fn begin_open(source: Source, target: Target) -> FileTurn
    ensures turn { result ≡ Goes (Opens source LockStage target) (LockOp source.uid ReadMode) }
    ensures asks { Asks result }
{
    let uid = source.uid();
    let mode = Mode::Read;
    FileTurn::Goes(
        FileTalk::Opens(source, Opening::Lock, target),
        Op::Lock { uid, mode },
    )
}
