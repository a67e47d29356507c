//! What the program `measure` times: work of each part of the store, by the name of its measure. It is a library, so that it is
//! proved once; a program is proved for each of the two compilers that build it.
#![tactic(auto)]

ghost use Rattle.std.specs.Prelude.{◌≡◌, ◌≤◌};

/// Does something `$count` times, with `$i` from 0; each time it says how much was done. The answer is how much was done as a
/// whole, and in how many microseconds of processor time.
macro_rules! timed {
    ($rt:ident, $count:ident, $i:ident => $once:expr) => {{
        let (start, mut done) = (crate::micros($rt)?, 0u64);
        for $i in 0..$count {
            done = crate::sum(done, $once);
        }
        crate::since($rt, start, done)
    }};
}

mod checks;
mod desk;
mod files;
mod home;
mod node;
mod repeat;
mod ring;
mod rounds;
mod runs;
mod scripts;
mod sent;
mod sink;
mod teams;
mod wires;
mod work;
mod worlds;

use anyhow::Result;
use node::Deeds;
use ring::Sample;
use std::sync::Wait;
use std::thread::Threads;
use std::time::CpuClock;
use uid_names::{NodeId, ProcId, Uid};
use work::{Order, Work};

/// The names of all measures, one space apart.
pub const NAMES: &str =
    "lock-frames-written lock-frames-read page-outs-written page-outs-read pages-written pages-read blank-pages-written blank-pages-read \
    link-frames link-pages link-blank-pages bytes-frames bytes-pages bytes-blank-pages \
    journals-written journals-read home-locks home-page-outs desk-loads desk-stores desk-evictions cache-touches-64 cache-touches-256 \
    cache-evictions-64 cache-evictions-256 scripts-read shells-made store-operations \
    node-accesses node-locks sent-bytes-1 sent-bytes-2 xorshift-steps \
    world-mixed world-resident world-locks world-evictions run-mixed run-resident run-locks run-evictions \
    check-mixed check-resident check-locks check-evictions \
    names copies-256 copies-8 file-read \
    threads-mixed threads-resident threads-locks threads-evictions \
    threads-run-mixed threads-run-resident threads-run-locks threads-run-evictions";

fn work_named(name: &str) -> Option<Work> {
    match name {
        "mixed" => Some(Work::Mixed),
        "resident" => Some(Work::Resident),
        "locks" => Some(Work::Locks),
        "evictions" => Some(Work::Evictions),
        _ => None,
    }
}

/// The order and the work of a measure of whole worlds.
fn world_named(name: &str) -> Option<(Order, Work)> {
    match name.strip_prefix("threads-") {
        Some(work) => Some((Order::Threads, work_named(work)?)),
        None => Some((Order::Turns, work_named(name.strip_prefix("world-")?)?)),
    }
}

/// The order and the work of a measure of whole runs.
fn run_named(name: &str) -> Option<(Order, Work)> {
    match name.strip_prefix("threads-run-") {
        Some(work) => Some((Order::Threads, work_named(work)?)),
        None => Some((Order::Turns, work_named(name.strip_prefix("run-")?)?)),
    }
}

/// Does a measure of whole worlds or runs so often.
fn take_run<R: Threads + Wait + Sync>(
    rt: &HostRuntime,
    threads: &R,
    name: &str,
    count: u32,
) -> Result<(u64, u64)> {
    if let Some((order, work)) = run_named(name) {
        return runs::run(rt, threads, work, order, count);
    }
    if let Some(work) = name.strip_prefix("check-").and_then(work_named) {
        return checks::check(rt, threads, work, count);
    }
    match world_named(name) {
        Some((order, work)) => worlds::run(rt, threads, work, order, count),
        None => anyhow::bail!("no such measure"),
    }
}

/// Does a measure of files, or of whole worlds or runs, so often.
fn take_whole<R: Threads + Wait + Sync>(
    rt: &HostRuntime,
    threads: &R,
    name: &str,
    count: u32,
) -> Result<(u64, u64)> {
    match name {
        "names" => files::run_names(rt, threads, count),
        "copies-256" => files::run_copies(rt, threads, 256, count),
        "copies-8" => files::run_copies(rt, threads, 8, count),
        "file-read" => files::run_reading(rt, threads, count),
        _ => take_run(rt, threads, name, count),
    }
}

/// A measure of a part.
#[derive(Clone, Copy)]
enum Part {
    FramesWritten(Sample),
    FramesRead(Sample),
    LinkFrames(Sample),
    BytesPassed(Sample),
    JournalsWritten,
    JournalsRead,
    HomeLocks,
    HomePageOuts,
    DeskLoads(u32),
    DeskStores,
    CacheTouches(u16),
    CacheEvictions(u16),
    ScriptsRead,
    ShellsMade,
    StoreOperations,
    Node(Deeds),
    SentInFirst,
    SentInSecond,
    Steps,
}

/// Of frames and journals.
fn frames_named(name: &str) -> Option<Part> {
    Some(match name {
        "lock-frames-written" => Part::FramesWritten(Sample::Lock),
        "lock-frames-read" => Part::FramesRead(Sample::Lock),
        "page-outs-written" => Part::FramesWritten(Sample::PageOut),
        "page-outs-read" => Part::FramesRead(Sample::PageOut),
        "pages-written" => Part::FramesWritten(Sample::Page),
        "pages-read" => Part::FramesRead(Sample::Page),
        "blank-pages-written" => Part::FramesWritten(Sample::Blank),
        "blank-pages-read" => Part::FramesRead(Sample::Blank),
        "link-frames" => Part::LinkFrames(Sample::Lock),
        "link-pages" => Part::LinkFrames(Sample::PageOut),
        "link-blank-pages" => Part::LinkFrames(Sample::Blank),
        "bytes-frames" => Part::BytesPassed(Sample::Lock),
        "bytes-pages" => Part::BytesPassed(Sample::PageOut),
        "bytes-blank-pages" => Part::BytesPassed(Sample::Blank),
        _ => return None,
    })
}

/// Of desks and caches.
fn desk_named(name: &str) -> Option<Part> {
    Some(match name {
        "desk-loads" => Part::DeskLoads(32),
        "desk-stores" => Part::DeskStores,
        "desk-evictions" => Part::DeskLoads(128),
        "cache-touches-64" => Part::CacheTouches(64),
        "cache-touches-256" => Part::CacheTouches(256),
        "cache-evictions-64" => Part::CacheEvictions(64),
        "cache-evictions-256" => Part::CacheEvictions(256),
        _ => return None,
    })
}

/// Of the others.
fn part_named(name: &str) -> Option<Part> {
    Some(match name {
        "journals-written" => Part::JournalsWritten,
        "journals-read" => Part::JournalsRead,
        "home-locks" => Part::HomeLocks,
        "home-page-outs" => Part::HomePageOuts,
        "scripts-read" => Part::ScriptsRead,
        "shells-made" => Part::ShellsMade,
        "store-operations" => Part::StoreOperations,
        "node-accesses" => Part::Node(Deeds::Accesses),
        "node-locks" => Part::Node(Deeds::Locks),
        "sent-bytes-1" => Part::SentInFirst,
        "sent-bytes-2" => Part::SentInSecond,
        "xorshift-steps" => Part::Steps,
        _ => return None,
    })
}

fn any_named(name: &str) -> Option<Part> {
    match (frames_named(name), desk_named(name)) {
        (Some(part), _) | (None, Some(part)) => Some(part),
        (None, None) => part_named(name),
    }
}

/// Does a measure of a part so often.
fn take_part(rt: &HostRuntime, part: Part, count: u32) -> Result<(u64, u64)> {
    match part {
        Part::FramesWritten(sample) => ring::write_frames(rt, sample, count),
        Part::FramesRead(sample) => ring::read_frames(rt, sample, count),
        Part::LinkFrames(sample) => wires::send_frames(rt, sample, count),
        Part::BytesPassed(sample) => wires::pass_bytes(rt, sample, count),
        Part::JournalsWritten => ring::write_journals(rt, count),
        Part::JournalsRead => ring::read_journals(rt, count),
        Part::HomeLocks => home::lock_and_unlock(rt, count),
        Part::HomePageOuts => home::page_out(rt, count),
        Part::DeskLoads(pages) => desk::load(rt, pages, count),
        Part::DeskStores => desk::store(rt, 32, count),
        Part::CacheTouches(frames) => desk::touch(rt, frames, count),
        Part::CacheEvictions(frames) => desk::evict(rt, frames, count),
        Part::ScriptsRead => scripts::read(rt, count),
        Part::ShellsMade => scripts::make_shells(rt, count),
        Part::StoreOperations => scripts::operate(rt, count),
        Part::Node(deeds) => node::happen(rt, deeds, count),
        Part::SentInFirst => sent::send(rt, 1, count),
        Part::SentInSecond => sent::send(rt, 2, count),
        Part::Steps => steps(rt, count),
    }
}

/// Does a measure so often; how much was done, and in how many microseconds of processor time. There is an error where no
/// measure has the name, where there is no memory, or where the host has no clock.
pub fn take<R: Threads + Wait + Sync>(
    rt: &HostRuntime,
    threads: &R,
    name: &str,
    count: u32,
) -> Result<(u64, u64)> {
    match any_named(name) {
        Some(part) => take_part(rt, part, count),
        None => take_whole(rt, threads, name, count),
    }
}

/// The processor time that this process has used.
fn micros(rt: &HostRuntime) -> Result<u64> {
    Ok(u64::try_from(rt.process_cpu_time()?.as_micros())?)
}

/// How much was done, and how many microseconds of processor time were used since the clock stood so.
fn since(rt: &HostRuntime, start: u64, done: u64) -> Result<(u64, u64)> {
    Ok((done, micros(rt)?.saturating_sub(start)))
}

/// How much was done as a whole.
fn sum(done: u64, more: u32) -> u64 {
    done.wrapping_add(u64::from(more))
}

/// A process of a node.
fn process(node: u8, number: u8) -> ProcId
    requires node { (1 ≤ node) × (node ≤ 8) }
    requires number { (1 ≤ number) × (number ≤ 4) }
    ensures { result ≡ record { node = node; number = number } }
{
    match NodeId::new(node) {
        Some(node) => match ProcId::new(node, number) {
            Some(proc) => proc,
            None => unreachable!(),
        },
        None => unreachable!(),
    }
}

/// The first object of node 2 behind its entry directory.
fn object() -> Uid
    ensures { result ≡ record { counter = 2; home = 2 } }
{
    Uid::from_parts(2, process(2, 1).node())
}

/// Steps of a generator of 64 bits, which tell how fast a machine is.
fn steps(rt: &HostRuntime, count: u32) -> Result<(u64, u64)> {
    let mut number = 0x9E37_79B9_7F4A_7C15u64;
    timed!(rt, count, _i => {
        number ^= number << 13;
        number ^= number >> 7;
        number ^= number << 17;
        u32::from(number != 0)
    })
}
