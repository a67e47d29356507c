//! What runs a script: its reader, the shells of its processes, and the plain store.
ghost use Rattle.std.specs.Prelude.{◌≤◌, length, IfOk};
ghost use Rattle.dom_history.specs.Ranges.{IsOp};

use crate::work::put;
use crate::{object, process};
use aegis_shell::Shell;
use anyhow::Result;
use dom_history::{Op, Reply, Spot};
use plain_store::PlainStore;
use script_reader::{Script, read_script};
use std::alloc::Global;
use uid_names::{ByteList, Mode, NoMemory, ProcId};

/// A script of eight nodes with 4,000 objects each, and of 32 processes with 625 commands each, in 1,048,576 bytes.
fn put_script(alloc: Global, script: &mut ByteList) -> Result<(), NoMemory> {
    for i in 1..9 {
        put(alloc, script, b"node nA\n", &[i])?;
    }
    for i in 0..32_000 {
        put(alloc, script, b"object obA 1 nB\n", &[i, i % 8 + 1])?;
    }
    for i in 0..20_000 {
        let (node, number) = (i % 8 + 1, i / 8 % 4 + 1);
        put(alloc, script, b"nA.B lock obC r\n", &[node, number, i])?;
    }
    for _ in script.bytes().len()..1_048_576 {
        script.push(b'\n')?;
    }
    Ok(())
}

/// Its bytes.
fn script(alloc: Global) -> Result<ByteList, NoMemory> {
    let mut script = ByteList::new(alloc);
    put_script(alloc, &mut script)?;
    Ok(script)
}

pub fn read(rt: &HostRuntime, count: u32) -> Result<(u64, u64)> {
    let bytes = script(rt.alloc())?;
    timed!(rt, count, _i => {
        let script = read_script(rt.alloc(), bytes.bytes())?;
        u32::from(script.commands().len() == 20_000)
    })
}

/// Makes the shells of all 32 processes of a script, which are there at a time: how many they are.
fn shells_made(alloc: Global, script: &Script) -> Result<usize, NoMemory> {
    let mut shells = Vec::new(alloc);
    for p in 0..32u8 {
        let proc = process(p / 4 + 1, p % 4 + 1);
        shells.push(Shell::new(alloc, script, proc)?)?;
    }
    Ok(shells.len())
}

pub fn make_shells(rt: &HostRuntime, count: u32) -> Result<(u64, u64)> {
    let script = read_script(rt.alloc(), script(rt.alloc())?.bytes())?;
    timed!(rt, count, _i => u32::from(shells_made(rt.alloc(), &script)? == 32))
}

/// A store with the first object of node 2, a process, and how much was done.
#[derive(Drop)]
struct Side {
    store: PlainStore,
    proc: ProcId,
    deeds: u64,
    ghost counted: { length store.deeds ≤ deeds },
}

impl Side {
    fn new(alloc: Global) -> Result<Side> {
        let script = read_script(alloc, b"node a\nnode b\nobject x 1 b")?;
        let store = PlainStore::new(alloc, script.opening())?;
        let (proc, deeds) = (process(1, 1), 0);
        Ok(Side { store, proc, deeds })
    }

    /// Does an operation; 1 where it is answered with what was asked for, else 0.
    fn apply(&mut self, alloc: Global, op: &Op) -> Result<u32, NoMemory>
        requires { IsOp op.now }
    {
        if self.deeds >= 1_000_000_000_000 {
            return Ok(0);
        }
        let reply = self.store.apply(alloc, self.proc, op)?;
        self.deeds += 1;
        match &reply {
            Reply::Fine | Reply::Bytes(_) | Reply::Size(_) => Ok(1),
            _ => Ok(0),
        }
    }

    fn operate(&mut self, alloc: Global, i: u32) -> Result<u32, NoMemory> {
        let op = operation(alloc, i)?;
        self.apply(alloc, &op)
    }
}

/// A lock, a store, a load, a length and an unlock in turn.
fn operation(alloc: Global, i: u32) -> Result<Op, NoMemory>
    ensures { IfOk result IsOp }
{
    let (uid, mode, count) = (object(), Mode::Write, 1);
    let (spot, _number) = (Spot::Of(uid, 0), uid.number());
    match i % 5 {
        0 => Ok(Op::Lock { uid, mode }),
        1 => {
            let bytes = ByteList::from_slice(alloc, b"some bytes")?;
            Ok(Op::Store { spot, bytes })
        }
        2 => Ok(Op::Load { spot, count }),
        3 => Ok(Op::Length { uid }),
        _ => Ok(Op::Unlock { uid }),
    }
}

pub fn operate(rt: &HostRuntime, count: u32) -> Result<(u64, u64)> {
    let mut side = Side::new(rt.alloc())?;
    timed!(rt, count, i => side.operate(rt.alloc(), i)?)
}
