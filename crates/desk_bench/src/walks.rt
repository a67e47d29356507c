//! Random walks: four processes of a node lock, load, store and unlock three objects of another node, whose home is a
//! plain one. Requests and answers stay on their way while other processes go on, some are lost, and now and then a
//! third node changes an object. Each load is answered with the byte that was stored last, and each length is the one
//! that the stores gave.
ghost use Rattle.std.specs.Prelude.{◌≤◌, IfOk, OnOk};
ghost use Rattle.dom_history.specs.Ranges.{IsOp};
ghost use Rattle.desk_bench.specs.AllReady.{AllReady};

use crate::driver::{Came, answer, begin, fault, new_desk};
use crate::plain_home::{Object, PAGES, page_of, place_of};
use crate::texts::told;
use crate::words::{MOST, number, number32};
use anyhow::{Context, Result, bail, ensure};
use dom_history::{Op, Reply, Spot};
use drawn_numbers::Draws;
use fault_handler::Desk;
use ring_messages::Body;
use std::alloc::Global;
use std::mem;
use uid_names::{ByteList, Mode, NodeId, ProcId, Uid};

/// An operation on an object. Bytes are loaded and stored one at a time.
#[derive(Clone, Copy)]
enum Deed {
    Lock(Mode),
    Unlock,
    Load(u32),
    Store(u32, u8),
    Length,
}

impl Deed {
    fn on(self, alloc: Global, uid: Uid) -> Result<Op>
        ensures { IfOk result IsOp }
    {
        // That an object has a name is for the check alone.
        let _number = uid.number();
        Ok(match self {
            Deed::Lock(mode) => Op::Lock { uid, mode },
            Deed::Unlock => Op::Unlock { uid },
            Deed::Load(offset) => {
                let spot = Spot::Of(uid, offset);
                Op::Load { spot, count: 1 }
            }
            Deed::Store(offset, byte) => {
                let spot = Spot::Of(uid, offset);
                let bytes = ByteList::from_slice(alloc, &[byte])?;
                Op::Store { spot, bytes }
            }
            Deed::Length => Op::Length { uid },
        })
    }
}

/// What is on its way from a process to a home, or back.
#[derive(Drop)]
enum Way {
    Nothing,
    Asked(Body),
    Answered(Body),
}

/// What a process does, to the object at a place.
type Plan = (usize, Deed);

/// What it does, and what is on its way.
#[derive(Drop)]
struct Seat {
    plan: Option<Plan>,
    way: Way,
}

/// What a process does next.
fn drawn(draws: &mut Draws) -> Deed {
    let offset = place_of(draws.below(PAGES as u32));
    match draws.below(64) {
        0..3 => Deed::Lock(Mode::Read),
        3..5 => Deed::Lock(Mode::Write),
        5..8 => Deed::Lock(Mode::CoWrite),
        8..12 => Deed::Unlock,
        12 => Deed::Length,
        13..36 => Deed::Store(offset, draws.below(256) as u8),
        _ => Deed::Load(offset),
    }
}

/// The home, the processes, and how many loads were answered, operations waited and calls were lost.
#[derive(Drop)]
struct Table {
    alloc: Global,
    objects: Vec<Object>,
    seats: Vec<Seat>,
    draws: Draws,
    grants: u64,
    loads: u64,
    waits: u64,
    faults: u64,
}

impl Table {
    fn new(alloc: Global, seed: u64) -> Result<Table> {
        let mut objects = Vec::new(alloc);
        let home = NodeId::new(2).context("no home")?;
        for counter in 1..4u64 {
            objects.push(Object::new(Uid::from_parts(counter, home)))?;
        }
        let mut seats = Vec::new(alloc);
        for _ in 0..4u8 {
            let (plan, way) = (None, Way::Nothing);
            seats.push(Seat { plan, way })?;
        }
        Ok(Table {
            alloc,
            objects,
            seats,
            draws: Draws::new(seed),
            grants: 0,
            loads: 0,
            waits: 0,
            faults: 0,
        })
    }

    /// A process that is drawn has its turn: it begins or goes on, its request is decided, or an answer or a loss
    /// comes to it.
    fn turn(&mut self, desk: &mut Desk) -> Result<()>
        requires { AllReady desk.old }
        ensures { OnOk result (AllReady desk.new) }
    {
        let number = self.draws.below(4) as u8 + 1;
        let drawn = (self.draws.below(3) as usize, drawn(&mut self.draws));
        let Seat { plan, way } = self.left(number)?;
        let plan = plan.unwrap_or(drawn);
        match way {
            Way::Nothing => self.begins(desk, number, plan),
            _ if self.is_lost() => self.loses(desk, number, plan),
            Way::Asked(body) => self.decide(number, plan, &body),
            Way::Answered(body) => self.hears(desk, number, plan, &body),
        }
    }

    /// What a process does, and what was on its way and is taken from there.
    fn left(&mut self, number: u8) -> Result<Seat> {
        let at = usize::from(number.saturating_sub(1));
        let seat = self.seats.get_mut(at).context("no seat")?;
        let (plan, way) = (seat.plan, mem::replace(&mut seat.way, Way::Nothing));
        Ok(Seat { plan, way })
    }

    /// A process begins, or goes on.
    fn begins(&mut self, desk: &mut Desk, number: u8, plan: Plan) -> Result<()>
        requires { AllReady desk.old }
        ensures { OnOk result (AllReady desk.new) }
    {
        let uid = self.objects.get(plan.0).context("no object")?.uid;
        let op = plan.1.on(self.alloc, uid)?;
        let came = begin(self.alloc, desk, number, &op)?;
        self.settle(number, plan, came)
    }

    /// The call of a process is lost.
    fn loses(&mut self, desk: &mut Desk, number: u8, plan: Plan) -> Result<()>
        requires { AllReady desk.old }
        ensures { OnOk result (AllReady desk.new) }
    {
        let reply = fault(desk, number)?;
        self.ended(number, plan, &reply)
    }

    /// An answer comes to a process.
    fn hears(&mut self, desk: &mut Desk, number: u8, plan: Plan, body: &Body) -> Result<()>
        requires { AllReady desk.old }
        ensures { OnOk result (AllReady desk.new) }
    {
        let came = answer(self.alloc, desk, number, body)?;
        self.settle(number, plan, came)
    }

    /// Whether what is on its way is lost.
    fn is_lost(&mut self) -> bool {
        let is_lost = self.draws.below(150) == 0;
        if is_lost {
            self.faults = self.faults.saturating_add(1);
        }
        is_lost
    }

    /// The home decides on a request of a process.
    fn decide(&mut self, number: u8, plan: Plan, body: &Body) -> Result<()> {
        let node = NodeId::new(1).context("no node")?;
        let caller = ProcId::new(node, number).context("no process")?;
        let at = place_of_body(plan, body);
        let object = self.objects.get_mut(at).context("no object")?;
        self.grants = self.grants.saturating_add(1);
        let way = Way::Answered(object.decide(self.alloc, caller, body, self.grants)?);
        self.seat(number, Some(plan), way)
    }

    /// What a call came to.
    fn settle(&mut self, number: u8, plan: Plan, came: Came) -> Result<()> {
        match came {
            Came::Ends(reply, _) => self.ended(number, plan, &reply),
            Came::Asks(_, body, _) => self.seat(number, Some(plan), Way::Asked(body)),
            Came::Waits(..) => {
                self.waits = self.waits.saturating_add(1);
                self.seat(number, Some(plan), Way::Nothing)
            }
        }
    }

    /// What a process was replied.
    fn ended(&mut self, number: u8, plan: Plan, said: &Reply) -> Result<()> {
        let object = self.objects.get_mut(plan.0).context("no object")?;
        let loads = heard(object, plan.1, said)?;
        self.loads = self.loads.saturating_add(loads);
        self.seat(number, None, Way::Nothing)
    }

    /// What a process does from now on, and what is on its way.
    fn seat(&mut self, number: u8, plan: Option<Plan>, way: Way) -> Result<()> {
        let at = usize::from(number.saturating_sub(1));
        let seat = self.seats.get_mut(at).context("no seat")?;
        *seat = Seat { plan, way };
        Ok(())
    }

    /// Now and then another node changes an object.
    fn elsewhere(&mut self) {
        let at = self.draws.below(24) as usize;
        let page = self.draws.below(PAGES as u32);
        let byte = self.draws.below(256) as u8;
        if let Some(object) = self.objects.get_mut(at) {
            object.change_elsewhere(page, byte);
        }
    }
}

/// Where the object stands that a request is about. A page that makes room may be of another object than the plan's: the
/// objects stand in the order of their numbers.
fn place_of_body(plan: Plan, body: &Body) -> usize {
    match body {
        Body::PageOut { uid, .. } => (uid.counter() - 1) as usize,
        _ => plan.0,
    }
}

/// A reply about an object: a load has the byte that was stored last, and a length is the one that the stores gave. How many
/// loads it answers.
fn heard(object: &mut Object, deed: Deed, said: &Reply) -> Result<u64> {
    match (deed, said) {
        (Deed::Load(offset), Reply::Bytes(bytes)) => {
            let is_last = bytes.bytes().first() == object.last.get(page_of(offset));
            ensure!(is_last, "a load has an old byte");
            return Ok(1);
        }
        (Deed::Load(offset), Reply::PastEnd) => {
            ensure!(object.end <= offset, "a byte is lost");
        }
        (Deed::Length, Reply::Size(length)) => {
            ensure!(*length == object.end, "a length is old");
        }
        (Deed::Store(offset, byte), Reply::Fine) => object.stored(page_of(offset), byte),
        _ => {}
    }
    Ok(0)
}

/// So many turns on a desk of so many frames: how many loads were answered, operations waited and calls were lost.
fn walk(alloc: Global, seed: u64, frames: u16, turns: u32) -> Result<[u64; 3]>
    requires low { 5 ≤ frames }
    requires high { frames ≤ 256 }
{
    let mut desk = new_desk(alloc, frames)?;
    let mut table = Table::new(alloc, seed)?;
    for _ in 0..turns {
        table.turn(&mut desk)?;
        table.elsewhere();
    }
    Ok([table.loads, table.waits, table.faults])
}

/// A walk of a seed, a number of frames and a number of turns: whether at least so many loads were answered, so many
/// operations waited, and so many calls were lost.
pub fn call(alloc: Global, words: &[&str; MOST]) -> Result<String> {
    let frames = number32(words[1])?;
    if frames < 5 || 256 < frames {
        bail!("no number of frames");
    }
    let counts = walk(alloc, number(words[0])?, frames as u16, number32(words[2])?)?;
    let is_enough = is_enough(counts, words[3], words[4], words[5])?;
    let came = if is_enough { "enough" } else { "too few" };
    Ok(told(alloc, came, &[])?)
}

/// Whether each count is at least what its word says.
fn is_enough(counts: [u64; 3], loads: &str, waits: &str, faults: &str) -> Result<bool> {
    let (loads, waits, faults) = (number(loads)?, number(waits)?, number(faults)?);
    Ok(loads <= counts[0] && waits <= counts[1] && faults <= counts[2])
}
