//! The operations that a command makes.
ghost use Rattle.std.specs.Prelude.{◌≡◌, ◌+◌, ◌<◌, ◌≤◌, ◌^◌, Some, length, unwrap_or, option_map, IfOk, IfSome};
ghost use Rattle.dom_history.specs.Ranges.{IsOp};
ghost use Rattle.aegis_shell.specs.Operations.{page_rest as rest_of_page, place_of, behind as spot_behind, loads, stores, ops_of, first_of, second_of, head_of};
ghost use Rattle.aegis_shell.specs.Asked.{ops_asked, IsAsked};
ghost use Rattle.command_talks.specs.Ranges.{IsRanged};
ghost use Rattle.aegis_shell.specs.Ranges.{IsRange};
ghost use Rattle.uid_names.specs.Rooms.{IsRoom};
ghost use Rattle.uid_names.specs.declared.mode.ObjKind.TheVariants.{File};
ghost use Rattle.dom_history.specs.declared.op.Op.TheVariants.{New};

use dom_history::{Op, Spot};
use script_reader::Command;
use std::alloc::Global;
use uid_names::{ByteList, NoMemory, NodeId, ObjKind, PAGE_BYTES, Uid};

/// The bytes from a spot to the end of its page, at least one.
fn page_rest(spot: &Spot) -> u32
    ensures value { result ≡ rest_of_page spot.now }
    ensures some { 1 ≤ result }
    ensures few { result ≤ PAGE_BYTES }
{
    let page = PAGE_BYTES as u32;
    match spot {
        Spot::Of(_, offset) => page - *offset % page,
        Spot::Addr(address) => page - *address % page,
    }
}

/// The spot so many bytes behind another.
fn behind(spot: Spot, n: u32) -> Spot
    requires { place_of spot + n < 2 ^ 32 }
    ensures { result ≡ spot_behind spot n }
{
    match spot {
        Spot::Of(uid, offset) => Spot::Of(uid, offset + n),
        Spot::Addr(address) => Spot::Addr(address + n),
    }
}

/// The first operation of a load.
fn first_load(spot: Spot, count: u32) -> Op
    requires { IsRange spot count }
    ensures value { Some result ≡ head_of (loads spot count) }
    ensures range { IsOp result }
{
    let rest = page_rest(&spot);
    if count <= rest {
        Op::Load { spot, count }
    } else {
        Op::Load { spot, count: rest }
    }
}

/// The second operation of a load that passes a page border.
fn second_load(spot: Spot, count: u32) -> Option<Op>
    requires { IsRange spot count }
    ensures value { result ≡ second_of (Some (loads spot count)) }
    ensures range { IfSome result IsOp }
{
    let rest = page_rest(&spot);
    if count <= rest {
        None
    } else {
        Some(Op::Load {
            spot: behind(spot, rest),
            count: count - rest,
        })
    }
}

/// The first operation of a store.
fn first_store(alloc: Global, spot: Spot, text: &[u8]) -> Result<Op, NoMemory>
    requires { IsRange spot (length text.now) }
    ensures value { IfOk result (λ op. Some op ≡ head_of (stores spot text.now)) }
    ensures range { IfOk result IsOp }
{
    let rest = page_rest(&spot) as usize;
    if text.len() <= rest {
        let bytes = ByteList::from_slice(alloc, text)?;
        Ok(Op::Store { spot, bytes })
    } else {
        let bytes = ByteList::from_slice(alloc, &text[..rest])?;
        Ok(Op::Store { spot, bytes })
    }
}

/// The second operation of a store that passes a page border.
fn second_store(alloc: Global, spot: Spot, text: &[u8]) -> Result<Option<Op>, NoMemory>
    requires { IsRange spot (length text.now) }
    ensures value { IfOk result (λ op. op ≡ second_of (Some (stores spot text.now))) }
    ensures range { IfOk result (λ op. IfSome op IsOp) }
{
    let rest = page_rest(&spot);
    if text.len() <= rest as usize {
        return Ok(None);
    }
    let bytes = ByteList::from_slice(alloc, &text[rest as usize..])?;
    Ok(Some(Op::Store {
        spot: behind(spot, rest),
        bytes,
    }))
}

/// The operation of a `new` of a process at this node, which may name another.
fn make(node: NodeId, room: u32, home: Option<NodeId>) -> Op
    requires { IsRoom room }
    ensures value { result ≡ New (unwrap_or home node) File room }
    ensures range { IsOp result }
{
    let home = home.unwrap_or(node);
    let _number = home.number();
    Op::New {
        home,
        kind: ObjKind::File,
        room,
    }
}

/// What a command asks for: an operation, or the bytes of a range, which may pass a page border.
#[derive(Drop)]
pub enum Asked<'a> {
    One(Op),
    Load(Spot, u32),
    Store(Spot, &'a ByteList),
}

/// What a command of a process at this node asks for; None where it lacks its object, or is done by names or by lists of locks.
fn asked_of<'a>(node: NodeId, command: &'a Command, uid: Option<Uid>) -> Option<Asked<'a>>
    requires { IsRanged command.now }
    ensures value { ops_of node command.now uid ≡ option_map ops_asked result }
    ensures range { IfSome result IsAsked }
{
    Some(match command {
        Command::New { var: _, room, home } => Asked::One(make(node, *room, *home)),
        Command::Lock { var: _, mode } => Asked::One(Op::Lock {
            uid: uid?,
            mode: *mode,
        }),
        Command::Unlock { var: _ } => Asked::One(Op::Unlock { uid: uid? }),
        Command::Delete { var: _ } => Asked::One(Op::Delete { uid: uid? }),
        Command::Load {
            var: _,
            offset,
            count,
        } => Asked::Load(Spot::Of(uid?, *offset), *count),
        Command::Store {
            var: _,
            offset,
            text,
        } => Asked::Store(Spot::Of(uid?, *offset), text),
        Command::Length { var: _ } => Asked::One(Op::Length { uid: uid? }),
        Command::Map { var: _ } => Asked::One(Op::Map { uid: uid? }),
        Command::Unmap { var: _ } => Asked::One(Op::Unmap { uid: uid? }),
        Command::Loadat { address, count } => Asked::Load(Spot::Addr(*address), *count),
        Command::Storeat { address, text } => Asked::Store(Spot::Addr(*address), text),
        _ => return None,
    })
}

/// The first operation of a command of a process at this node; None where the command lacks its object.
pub fn first_operation(
    alloc: Global,
    node: NodeId,
    command: &Command,
    uid: Option<Uid>,
) -> Result<Option<Op>, NoMemory>
    requires { IsRanged command.now }
    ensures value { IfOk result (λ op. op ≡ first_of (ops_of node command.now uid)) }
    ensures range { IfOk result (λ op. IfSome op IsOp) }
{
    match asked_of(node, command, uid) {
        Some(Asked::One(op)) => Ok(Some(op)),
        Some(Asked::Load(spot, count)) => Ok(Some(first_load(spot, count))),
        Some(Asked::Store(spot, text)) => Ok(Some(first_store(alloc, spot, text.bytes())?)),
        None => Ok(None),
    }
}

/// The second operation of a command, where its range passes a page border.
pub fn second_operation(
    alloc: Global,
    node: NodeId,
    command: &Command,
    uid: Option<Uid>,
) -> Result<Option<Op>, NoMemory>
    requires { IsRanged command.now }
    ensures value { IfOk result (λ op. op ≡ second_of (ops_of node command.now uid)) }
    ensures range { IfOk result (λ op. IfSome op IsOp) }
{
    let asked = asked_of(node, command, uid);
    match &asked {
        Some(Asked::Load(spot, count)) => Ok(second_load(*spot, *count)),
        Some(Asked::Store(spot, text)) => second_store(alloc, *spot, text.bytes()),
        Some(Asked::One(_)) | None => Ok(None),
    }
}
