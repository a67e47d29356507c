//! The work that is measured of whole worlds, and what a script declares for it.
use std::alloc::Global;
use uid_names::{ByteList, NoMemory};

/// What the processes do.
#[derive(Clone, Copy)]
pub enum Work {
    /// 32 processes on eight nodes of eight frames; in each phase each locks, loads, stores and unlocks an object that
    /// another one had before.
    Mixed,
    /// Eight processes load and store in pages that are at their nodes.
    Resident,
    /// One process locks and unlocks an object of another node.
    Locks,
    /// Eight processes load pages of objects of other nodes, each in the place of one that was loaded before.
    Evictions,
}

/// How nodes are run.
#[derive(Clone, Copy)]
pub enum Order {
    /// On one thread, each time in other turns.
    Turns,
    /// Each in a thread of its own.
    Threads,
}

/// How many phases of the mixed work are one unit.
pub const PHASES: u32 = 20;

/// Puts a number last.
fn put_number(alloc: Global, script: &mut ByteList, number: u32) -> Result<(), NoMemory> {
    script.extend(format!(in alloc; "{number}")?.as_bytes())
}

/// Puts a text last in which `A` stands for the first of these numbers, `B` for the second, and so on.
pub fn put(
    alloc: Global,
    script: &mut ByteList,
    text: &[u8],
    numbers: &[u32],
) -> Result<(), NoMemory> {
    for byte in text {
        match numbers.get(usize::from(byte.wrapping_sub(b'A'))) {
            Some(number) => put_number(alloc, script, *number)?,
            None => script.push(*byte)?,
        }
    }
    Ok(())
}

/// So many nodes with so many frames each.
pub fn put_nodes(
    alloc: Global,
    script: &mut ByteList,
    count: u32,
    frames: u32,
) -> Result<(), NoMemory> {
    for i in 0..count {
        put(alloc, script, b"node nA frames B\n", &[i, frames])?;
    }
    Ok(())
}

/// So many objects of this room, at eight nodes in turn.
fn put_objects(
    alloc: Global,
    script: &mut ByteList,
    count: u32,
    room: u32,
) -> Result<(), NoMemory> {
    for i in 0..count {
        put(alloc, script, b"object oA B nC\n", &[i, room, i % 8])?;
    }
    Ok(())
}

/// The nodes and objects.
pub fn put_head(alloc: Global, script: &mut ByteList, work: Work) -> Result<(), NoMemory> {
    let (nodes, frames, objects, room) = match work {
        Work::Mixed => (8, 8, 32, 4),
        Work::Resident => (8, 64, 8, 4),
        Work::Locks => (2, 64, 2, 1),
        Work::Evictions => (8, 8, 8, 32),
    };
    put_nodes(alloc, script, nodes, frames)?;
    put_objects(alloc, script, objects, room)
}
