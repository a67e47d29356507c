//! Scripts are run as the program runs them, from their bytes to the report's and the journal's. What is counted are events.
ghost use Rattle.std.specs.Prelude.{◌<◌};

use crate::sink::{Counter, Unit};
use crate::work::{Order, Work, put, put_head};
use anyhow::Result;
use dom_io::MemSource;
use node_threads::OpenGate;
use script_runner::run_domain;
use std::alloc::Global;
use std::sync::Wait;
use std::thread::Threads;
use uid_names::{ByteList, NoMemory};

/// The most that a script has of commands.
const COMMANDS: u32 = 20_000;

/// The commands of a process in a phase, on an object that moves on from phase to phase.
fn put_turn(alloc: Global, script: &mut ByteList, q: u32, phase: u32) -> Result<(), NoMemory>
    requires process { q < 32 }
    requires phase { phase < 1000 }
{
    let (node, proc, object) = (q / 4, q % 4 + 1, (q + phase * 5) % 32);
    let place = (q * 97 + phase * 131) % 4_000;
    let text =
        b"nA.B lock oC w\nnA.B store oC D \"12345678\"\nnA.B load oC D 8\nnA.B length oC\nnA.B unlock oC\n";
    put(alloc, script, text, &[node, proc, object, place])
}

/// A phase of the mixed work.
fn put_phase(alloc: Global, script: &mut ByteList, phase: u32) -> Result<(), NoMemory>
    requires { phase < 1000 }
{
    if phase > 0 {
        script.extend(b"phase\n")?;
    }
    for q in 0..32 {
        put_turn(alloc, script, q, phase)?;
    }
    Ok(())
}

fn put_mixed(alloc: Global, script: &mut ByteList) -> Result<(), NoMemory> {
    for phase in 0..COMMANDS / 160 {
        put_phase(alloc, script, phase)?;
    }
    Ok(())
}

/// What the process of a node stores and loads, once it has locked its object.
fn put_stores(alloc: Global, script: &mut ByteList, node: u32) -> Result<(), NoMemory> {
    put(alloc, script, b"nA.1 lock oA w\n", &[node])?;
    for i in 0..COMMANDS / 16 - 1 {
        let text = b"nA.1 store oA B \"12345678\"\nnA.1 load oA B 8\n";
        put(alloc, script, text, &[node, i % 4 * 1_024])?;
    }
    Ok(())
}

fn put_locks(script: &mut ByteList) -> Result<(), NoMemory> {
    for _ in 0..COMMANDS / 2 {
        script.extend(b"n0.1 lock o1 w\nn0.1 unlock o1\n")?;
    }
    Ok(())
}

/// What the process of a node loads, once it has locked an object of another node and stored at its end.
fn put_loads(alloc: Global, script: &mut ByteList, node: u32, object: u32) -> Result<(), NoMemory> {
    let text = b"nA.1 lock oB w\nnA.1 store oB 32767 \"z\"\n";
    put(alloc, script, text, &[node, object])?;
    for i in 0..COMMANDS / 8 - 2 {
        let place = i % 32 * 1_024;
        put(alloc, script, b"nA.1 load oB C 1\n", &[node, object, place])?;
    }
    Ok(())
}

/// What the process of a node does.
fn put_node(alloc: Global, script: &mut ByteList, work: Work, node: u32) -> Result<(), NoMemory>
    requires { node < 8 }
{
    match work {
        Work::Resident => put_stores(alloc, script, node),
        Work::Evictions => put_loads(alloc, script, node, (node + 1) % 8),
        _ => Ok(()),
    }
}

/// A script of the work.
pub fn put_script(alloc: Global, script: &mut ByteList, work: Work) -> Result<(), NoMemory> {
    put_head(alloc, script, work)?;
    match work {
        Work::Mixed => return put_mixed(alloc, script),
        Work::Locks => return put_locks(script),
        _ => {}
    }
    for node in 0..8 {
        put_node(alloc, script, work, node)?;
    }
    Ok(())
}

pub fn put_word(alloc: Global, words: &mut Vec<String>, word: &str) -> Result<(), NoMemory> {
    words.push(String::from_str(alloc, word)?)?;
    Ok(())
}

/// The words that ask for a run, in the turns of a number or by threads.
pub fn put_words(
    alloc: Global,
    words: &mut Vec<String>,
    order: Order,
    turns: u32,
) -> Result<(), NoMemory> {
    put_word(alloc, words, "run")?;
    match order {
        Order::Turns => {
            put_word(alloc, words, "--turns")?;
            words.push(format!(in alloc; "{turns}")?)?;
            Ok(())
        }
        Order::Threads => Ok(()),
    }
}

/// Runs a script in the turns of this number, or by threads; how much its journal has, in this unit.
fn run_once<R: Threads + Wait + Sync>(
    threads: &R,
    alloc: Global,
    script: &[u8],
    order: Order,
    turns: u32,
    unit: Unit,
) -> Result<u32> {
    let mut words = Vec::new(alloc);
    put_words(alloc, &mut words, order, turns)?;
    let mut source = MemSource::new(alloc, script, &[])?;
    let (mut out, mut journal) = (Counter::new(Unit::Bytes), Counter::new(unit));
    let status = run_domain(
        threads,
        alloc,
        words.as_slice(),
        &mut source,
        &mut out,
        &mut journal,
        &OpenGate,
    );
    anyhow::ensure!(status == 0, "no run");
    Ok(u32::try_from(journal.count())?)
}

/// Runs a script so often. The events are counted in runs of their own, since it takes time to find the lines of a journal: in turns
/// they are those that are timed, and by threads much the same.
pub fn run_script<R: Threads + Wait + Sync>(
    rt: &HostRuntime,
    threads: &R,
    script: &[u8],
    order: Order,
    count: u32,
) -> Result<(u64, u64)> {
    let alloc = rt.alloc();
    let mut events = 0_u64;
    for turns in 0..count {
        let lines = run_once(threads, alloc, script, order, turns, Unit::Lines)?;
        events = events.wrapping_add(u64::from(lines));
    }
    let timed: Result<(u64, u64)> = timed!(rt, count, i => {
        run_once(threads, alloc, script, order, i, Unit::Bytes)?
    });
    let (_bytes, micros) = timed?;
    Ok((events, micros))
}

/// A script of the work, so often.
pub fn run<R: Threads + Wait + Sync>(
    rt: &HostRuntime,
    threads: &R,
    work: Work,
    order: Order,
    count: u32,
) -> Result<(u64, u64)> {
    let mut script = ByteList::new(rt.alloc());
    put_script(rt.alloc(), &mut script, work)?;
    run_script(rt, threads, script.bytes(), order, count)
}
