//! What the processes of a world do, by the work that is measured: each goes round a list of operations.
ghost use Rattle.std.specs.Prelude.{◌<◌, ◌≤◌, IfOk};
ghost use Rattle.dom_history.specs.Ranges.{IsOp, IsSpot, IsInPage};
ghost use Rattle.timed_work.specs.Rounds.{IsReady};
ghost use Rattle.timed_work.specs.Teams.{IsTeam};

use crate::rounds::{Rounds, WantList};
use crate::work::{PHASES, Work};
use dom_history::{Op, Spot, Want};
use std::alloc::Global;
use uid_names::{ByteList, Mode, NoMemory, NodeId, Uid};

/// The object of this number, as the head of each script declares them: at the nodes in turn.
fn object_of(i: u32) -> Uid {
    let counter = u64::from(i / 8 % 1000 + 2);
    match NodeId::new((i % 8 + 1) as u8) {
        Some(home) => Uid::from_parts(counter, home),
        None => unreachable!(),
    }
}

/// The beginning of a page.
fn page_of(uid: Uid, page: u32) -> Spot
    ensures name { IsSpot result }
    ensures place { IsInPage result 8 }
{
    // What each name of an object keeps.
    let _number = uid.number();
    Spot::Of(uid, page % 1000 * 1024)
}

pub(crate) fn lock(uid: Uid) -> Op
    ensures { IsOp result }
{
    let (mode, _number) = (Mode::Write, uid.number());
    Op::Lock { uid, mode }
}

pub(crate) fn unlock(uid: Uid) -> Op
    ensures { IsOp result }
{
    let _number = uid.number();
    Op::Unlock { uid }
}

fn length(uid: Uid) -> Op
    ensures { IsOp result }
{
    let _number = uid.number();
    Op::Length { uid }
}

pub(crate) fn store(alloc: Global, uid: Uid, page: u32) -> Result<Op, NoMemory>
    ensures { IfOk result IsOp }
{
    let bytes = ByteList::from_slice(alloc, b"12345678")?;
    let spot = page_of(uid, page);
    Ok(Op::Store { spot, bytes })
}

pub(crate) fn load(uid: Uid, page: u32) -> Op
    ensures { IsOp result }
{
    let (spot, count) = (page_of(uid, page), 8);
    Op::Load { spot, count }
}

/// What a process does with an object that it holds.
fn add_turn(alloc: Global, list: &mut WantList, uid: Uid, page: u32) -> Result<(), NoMemory> {
    list.add(store(alloc, uid, page)?)?;
    list.add(load(uid, page))?;
    list.add(length(uid))?;
    list.add(unlock(uid))
}

/// The phases behind the first, with the lock of another object in each, and the next one behind the last.
fn add_phases(alloc: Global, list: &mut WantList, q: u32) -> Result<(), NoMemory>
    requires process { q < 32 }
{
    for phase in 1..32 {
        let uid = object_of((q + phase * 5) % 32);
        list.add_phase()?;
        list.add(lock(uid))?;
        add_turn(alloc, list, uid, (q + phase) % 4)?;
    }
    list.add_phase()
}

/// In each phase a process has another object, which another one had before.
fn mixed(alloc: Global, q: u32, units: u32) -> Result<Rounds, NoMemory>
    requires process { q < 32 }
    requires few { units ≤ 100 }
    ensures { IfOk result IsReady }
{
    let uid = object_of(q);
    let mut list = WantList::new(alloc, Want::Do(lock(uid)))?;
    add_turn(alloc, &mut list, uid, q % 4)?;
    add_phases(alloc, &mut list, q)?;
    // Behind its last phase it wants none.
    Ok(Rounds::new(list, (PHASES * 6 * units).saturating_sub(1)))
}

/// Pages of an object are stored in and loaded in turn, and the lock is asked for again, which is there, once in 512.
fn resident(alloc: Global, uid: Uid, units: u32) -> Result<Rounds, NoMemory>
    requires few { units ≤ 100 }
    ensures { IfOk result IsReady }
{
    let mut list = WantList::new(alloc, Want::Do(lock(uid)))?;
    for i in 0..512 {
        list.add(store(alloc, uid, i % 4)?)?;
        list.add(load(uid, i % 4))?;
    }
    Ok(Rounds::new(list, 1_250 * units))
}

fn locks(alloc: Global, uid: Uid, units: u32) -> Result<Rounds, NoMemory>
    requires few { units ≤ 100 }
    ensures { IfOk result IsReady }
{
    let mut list = WantList::new(alloc, Want::Do(lock(uid)))?;
    list.add(unlock(uid))?;
    Ok(Rounds::new(list, 3_334 * units))
}

/// The last page of 32 is stored in once in a round, so that all can be loaded in turn.
fn evictions(alloc: Global, uid: Uid, units: u32) -> Result<Rounds, NoMemory>
    requires few { units ≤ 100 }
    ensures { IfOk result IsReady }
{
    let mut list = WantList::new(alloc, Want::Do(lock(uid)))?;
    list.add(store(alloc, uid, 31)?)?;
    for i in 0..1_024 {
        list.add(load(uid, i % 32))?;
    }
    Ok(Rounds::new(list, 425 * units))
}

/// Nothing is done.
fn idle(alloc: Global) -> Result<Rounds, NoMemory>
    ensures { IfOk result IsReady }
{
    Ok(Rounds::new(WantList::new(alloc, Want::Done)?, 0))
}

/// What a process of a node, by its place among all, does so often.
fn program(
    alloc: Global,
    work: Work,
    node: NodeId,
    place: u32,
    units: u32,
) -> Result<Rounds, NoMemory>
    requires place { place < 4 }
    requires few { units ≤ 100 }
    ensures { IfOk result IsReady }
{
    let n = u32::from(node.number()) - 1;
    match work {
        Work::Mixed => mixed(alloc, n % 8 * 4 + place, units),
        Work::Resident if place == 0 => resident(alloc, object_of(n), units),
        Work::Locks if place == 0 && n == 0 => locks(alloc, object_of(1), units),
        Work::Evictions if place == 0 => evictions(alloc, object_of((n + 1) % 8), units),
        _ => idle(alloc),
    }
}

/// The programs of a node.
#[tactic(auto, using(crate::proofs::Making::team_of_four))]
pub(crate) fn team(
    alloc: Global,
    work: Work,
    node: NodeId,
    units: u32,
) -> Result<Vec<(u8, Rounds)>, NoMemory>
    requires { units ≤ 100 }
    ensures { IfOk result (λ team. IsTeam team.items) }
{
    let team = vec![in alloc;
        (1, program(alloc, work, node, 0, units)?),
        (2, program(alloc, work, node, 1, units)?),
        (3, program(alloc, work, node, 2, units)?),
        (4, program(alloc, work, node, 3, units)?),
    ]?;
    Ok(team)
}
