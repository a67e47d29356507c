//! Whole runs of scripts that find their files by name: small ones in directories, and large ones that are copied and read.
ghost use Rattle.std.specs.Prelude.{◌≤◌};

use crate::runs::run_script;
use crate::work::{Order, put, put_nodes};
use anyhow::Result;
use std::alloc::Global;
use std::sync::Wait;
use std::thread::Threads;
use uid_names::{ByteList, NoMemory};

/// The bytes of a page.
const PAGE: u32 = 1_024;

/// The pages of the largest file.
const MOST_PAGES: u32 = 1_024;

/// A thousand files in eight directories.
fn put_names(alloc: Global, script: &mut ByteList) -> Result<(), NoMemory> {
    script.extend(b"node n0\nnode n1\n")?;
    for i in 0..8 {
        put(alloc, script, b"n0.1 crd //n1/dA\n", &[i])?;
    }
    for i in 0..1_000 {
        put(alloc, script, b"n0.1 crf //n1/dA/fB 1\n", &[i % 8, i])?;
    }
    Ok(())
}

/// Each of these files is found by its name, and a text is stored and loaded there.
fn put_uses(alloc: Global, script: &mut ByteList) -> Result<(), NoMemory> {
    let find = b"n0.1 bind vB //n1/dA/fB\nn0.1 lock vB w\n";
    let work = b"n0.1 store vA 0 \"12345678\"\nn0.1 load vA 0 8\nn0.1 unlock vA\n";
    for i in 0..1_000 {
        put(alloc, script, find, &[i % 8, i])?;
        put(alloc, script, work, &[i])?;
    }
    Ok(())
}

/// A file of so many pages at the other node, with bytes on each page and up to the end that is told.
fn put_file(alloc: Global, script: &mut ByteList, pages: u32, length: u32) -> Result<(), NoMemory>
    requires { pages ≤ 1024 }
{
    let head = b"n0.1 crf //n1/f A\nn0.1 bind f //n1/f\nn0.1 lock f w\n";
    put(alloc, script, head, &[pages])?;
    for page in 0..pages {
        let text = b"n0.1 store f A \"1234567\\n\"\n";
        put(alloc, script, text, &[page * PAGE])?;
    }
    let last = length.saturating_sub(1);
    put(
        alloc,
        script,
        b"n0.1 store f A \"z\"\nn0.1 unlock f\n",
        &[last],
    )
}

/// Two nodes. A full file of the most pages is copied so often, and each copy is removed before the next.
fn put_copies(
    alloc: Global,
    script: &mut ByteList,
    frames: u32,
    count: u32,
) -> Result<(), NoMemory> {
    put_nodes(alloc, script, 2, frames)?;
    put_file(alloc, script, MOST_PAGES, MOST_PAGES * PAGE)?;
    for _ in 0..count {
        script.extend(b"n0.1 cpf //n1/f //n1/g\nn0.1 dlf //n1/g\n")?;
    }
    Ok(())
}

/// Two nodes. A file of so many pages, not quite full, is read, its lines are counted, and a text is put behind it.
fn put_reading(alloc: Global, script: &mut ByteList, pages: u32) -> Result<(), NoMemory>
    requires { pages ≤ 1024 }
{
    put_nodes(alloc, script, 2, 256)?;
    put_file(alloc, script, pages, (pages * PAGE).saturating_sub(100))?;
    script.extend(b"n0.1 catf //n1/f\nn0.1 lnf //n1/f\nn0.1 apf //n1/f \"a text\"\n")
}

/// A thousand files are made in eight directories of another node, and then each is found by its name and read.
pub fn run_names<R: Threads + Wait + Sync>(
    rt: &HostRuntime,
    threads: &R,
    count: u32,
) -> Result<(u64, u64)> {
    let mut script = ByteList::new(rt.alloc());
    put_names(rt.alloc(), &mut script)?;
    put_uses(rt.alloc(), &mut script)?;
    run_script(rt, threads, script.bytes(), Order::Turns, count)
}

/// So many copies in one run, at nodes of so many frames.
pub fn run_copies<R: Threads + Wait + Sync>(
    rt: &HostRuntime,
    threads: &R,
    frames: u32,
    count: u32,
) -> Result<(u64, u64)> {
    let mut script = ByteList::new(rt.alloc());
    put_copies(rt.alloc(), &mut script, frames, count)?;
    run_script(rt, threads, script.bytes(), Order::Turns, 1)
}

/// A file of so many pages is read.
fn run_file<R: Threads + Wait + Sync>(
    rt: &HostRuntime,
    threads: &R,
    pages: u32,
) -> Result<(u64, u64)>
    requires { pages ≤ 1024 }
{
    let mut script = ByteList::new(rt.alloc());
    put_reading(rt.alloc(), &mut script, pages)?;
    run_script(rt, threads, script.bytes(), Order::Turns, 1)
}

/// So many pages, in files of the most pages but the last, each in a run of its own.
pub fn run_reading<R: Threads + Wait + Sync>(
    rt: &HostRuntime,
    threads: &R,
    count: u32,
) -> Result<(u64, u64)> {
    let (mut events, mut micros) = (0_u64, 0_u64);
    for file in 0..count.div_ceil(MOST_PAGES) {
        let pages = count
            .saturating_sub(file.saturating_mul(MOST_PAGES))
            .min(MOST_PAGES);
        let (more, longer) = run_file(rt, threads, pages)?;
        events = events.saturating_add(more);
        micros = micros.saturating_add(longer);
    }
    Ok((events, micros))
}
