//! Journals of whole runs are checked as the program checks them. What is counted are the events of the journals.
use crate::runs::{put_script, put_word, put_words};
use crate::sink::{Counter, Unit};
use crate::work::{Order, Work};
use anyhow::Result;
use dom_io::{MemSink, MemSource, Sink};
use node_threads::OpenGate;
use script_runner::run_domain;
use std::alloc::Global;
use std::sync::Wait;
use std::thread::Threads;
use uid_names::ByteList;

/// The most bytes that a journal of the work has.
const JOURNAL_ROOM: usize = 8_388_608;

/// Puts the journal of the script's run behind it, and how many events that has.
fn put_journal<R: Threads + Wait + Sync>(
    threads: &R,
    alloc: Global,
    script: &mut ByteList,
) -> Result<u32> {
    let mut words = Vec::new(alloc);
    put_words(alloc, &mut words, Order::Turns, 1)?;
    let mut source = MemSource::new(alloc, script.bytes(), &[])?;
    let mut out = Counter::new(Unit::Bytes);
    let mut journal = MemSink::new(alloc, JOURNAL_ROOM, &[])?;
    let status = run_domain(
        threads,
        alloc,
        words.as_slice(),
        &mut source,
        &mut out,
        &mut journal,
        &OpenGate,
    );
    anyhow::ensure!(status == 0, "no run");
    script.extend(b"--- journal\n")?;
    script.extend(journal.bytes())?;
    let mut lines = Counter::new(Unit::Lines);
    let _taken = lines.write(journal.bytes());
    Ok(u32::try_from(lines.count())?)
}

/// Checks a script's journal.
fn check_once<R: Threads + Wait + Sync>(threads: &R, alloc: Global, bytes: &[u8]) -> Result<()> {
    let mut words = Vec::new(alloc);
    put_word(alloc, &mut words, "check")?;
    let mut source = MemSource::new(alloc, bytes, &[])?;
    let (mut out, mut journal) = (Counter::new(Unit::Bytes), Counter::new(Unit::Bytes));
    let status = run_domain(
        threads,
        alloc,
        words.as_slice(),
        &mut source,
        &mut out,
        &mut journal,
        &OpenGate,
    );
    anyhow::ensure!(status == 0, "not the journal of the script");
    Ok(())
}

/// The journal of a script of the work, so often.
pub fn check<R: Threads + Wait + Sync>(
    rt: &HostRuntime,
    threads: &R,
    work: Work,
    count: u32,
) -> Result<(u64, u64)> {
    let mut bytes = ByteList::new(rt.alloc());
    put_script(rt.alloc(), &mut bytes, work)?;
    let events = put_journal(threads, rt.alloc(), &mut bytes)?;
    timed!(rt, count, _i => {
        check_once(threads, rt.alloc(), bytes.bytes())?;
        events
    })
}
