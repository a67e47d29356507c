//! Streams that are refused: in a new store, at one of their operations, with a reply that it can have.
ghost use Rattle.std.specs.Prelude.{IfOk, IfSome};
ghost use Rattle.dom_history.specs.Fitting.{Fits};

use crate::streams::{Served, append_bytes, copy, fill, leave, made, open, read};
use crate::undone::{Result, Undone};
use crate::world::{World, node, proc};
use dom_history::{Op, Reply, Spot};
use std::alloc::Global;
use uid_names::{Mode, Uid};

/// At which operation of a machine it is refused, with which of the replies that this can have, and whether what is
/// closed behind it is refused too.
#[derive(Clone, Copy)]
pub struct Refusal {
    pub at: u64,
    pub which: u64,
    pub closings: bool,
}

/// What an operation of this number is refused with, if it is, where one before was refused or not.
pub fn refusal_at(
    op: &Op,
    count: u64,
    behind: bool,
    refusal: &Option<Refusal>,
) -> Result<Option<Reply>>
    ensures { IfOk result (λ reply. IfSome reply (Fits op.now)) }
{
    match refusal {
        Some(refusal) if refusal.at == count => refusal_of(op, refusal.which),
        Some(refusal) if refusal.closings && behind => refusal_of(op, 0),
        _ => Ok(None),
    }
}

/// The refusals that operations of streams and of mailboxes can have, by their numbers.
fn refusal_of(op: &Op, which: u64) -> Result<Option<Reply>>
    ensures { IfOk result (λ reply. IfSome reply (Fits op.now)) }
{
    Ok(match (op, which) {
        (Op::Lock { uid: _, mode: _ }, 0) => Some(Reply::AlreadyHeld),
        (Op::Lock { uid: _, mode: _ }, 1) => Some(Reply::Unsettled),
        (Op::Lock { uid: _, mode: _ }, 2) => Some(Reply::TooMany),
        (Op::Lock { uid: _, mode: _ }, 3) => Some(Reply::NoObject),
        (Op::Lock { uid: _, mode: _ }, 4) => {
            Some(Reply::Conflict(proc(node(1)?, 2)?, Mode::Write))
        }
        (Op::Lock { uid: _, mode: _ }, 5) => Some(Reply::Doubt),
        (Op::Length { uid: _ }, 0) => Some(Reply::NoLock),
        (Op::Map { uid: _ }, 0) => Some(Reply::NoLock),
        (Op::Map { uid: _ }, 1) => Some(Reply::TooManyMaps),
        (Op::Map { uid: _ }, 2) => Some(Reply::NoSegment),
        (Op::Load { spot: _, count: _ }, 0) => Some(Reply::NoLock),
        (Op::Load { spot: _, count: _ }, 1) => Some(Reply::PastEnd),
        (Op::Load { spot: _, count: _ }, 2) => Some(Reply::LinkFault),
        (
            Op::Load {
                spot: Spot::Addr(_),
                count: _,
            },
            3,
        ) => Some(Reply::NotMapped),
        (Op::Store { spot: _, bytes: _ }, 0) => Some(Reply::NoLock),
        (Op::Store { spot: _, bytes: _ }, 1) => Some(Reply::WrongMode),
        (Op::Store { spot: _, bytes: _ }, 2) => Some(Reply::PastRoom),
        (Op::Store { spot: _, bytes: _ }, 3) => Some(Reply::LinkFault),
        (
            Op::Store {
                spot: Spot::Addr(_),
                bytes: _,
            },
            4,
        ) => Some(Reply::NotMapped),
        (Op::Unmap { uid: _ }, 0) => Some(Reply::NotMapped),
        (Op::Unlock { uid: _ }, 0) => Some(Reply::NotHeld),
        (Op::Unlock { uid: _ }, 1) => Some(Reply::Kept),
        (Op::Unlock { uid: _ }, 2) => Some(Reply::Doubt),
        _ => None,
    })
}

/// A stream on a file, which is copied to the other one, that is refused so.
fn refused_on(
    world: &mut World,
    verb: &[u8],
    file: Uid,
    other: Uid,
    refusal: &Option<Refusal>,
) -> Result<Served> {
    match verb {
        b"catf" => read(world, file, false, refusal),
        b"lnf" => read(world, file, true, refusal),
        b"apf" => append_bytes(world, file, 1024, refusal),
        b"cpf" => copy(world, file, other, refusal),
        _ => Err(Undone::NoStream),
    }
}

/// Maps a file and ends its lock.
pub(crate) fn map(world: &mut World, uid: Uid) -> Result<()> {
    let _address = open(world, uid, Mode::Read)?;
    leave(world, uid)
}

/// What a stream asks and comes to that is refused so, in a new store: on a file of 1,025 bytes, where it is copied to
/// another file. Both were mapped before, or not.
pub fn refused(alloc: Global, verb: &[u8], mapped: bool, refusal: Refusal) -> Result<Served> {
    let mut world = World::new(alloc)?;
    let file = made(&mut world, 3)?;
    let other = made(&mut world, 3)?;
    fill(&mut world, file, 1025)?;
    if mapped {
        map(&mut world, file)?;
        map(&mut world, other)?;
    }
    refused_on(&mut world, verb, file, other, &Some(refusal))
}
