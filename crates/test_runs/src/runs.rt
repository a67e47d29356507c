//! What no case of run_cases tries: calls in memory that find what they want, streams in memory that fail, and the last tick.
use dom_io::{MemSink, MemSource};
use node_core::RunFault;
use node_threads::OpenGate;
use script_reader::read_script;
use script_runner::{run_domain, run_script, run_script_in_turns};
use std::alloc::Global;
use std::sync::Wait;
use std::test::Fail;
use std::thread::Threads;
use uid_names::NodeId;

const FIRST_RUN: &[u8] =
    b"node a\na.1 new x 1\na.1 lock x w\na.1 store x 0 \"hi\"\na.1 load x 0 2\na.1 unlock x\n";

const FIRST_REPORT: &[u8] =
    b"a.1 1 ok 0000000000200001\na.1 2 ok\na.1 3 ok\na.1 4 ok \"hi\"\na.1 5 ok\n";

/// The status of the first run, from a source whose calls of these numbers fail.
fn first_run<R: Threads + Wait + Sync>(
    rt: &R,
    alloc: Global,
    reads: &[u64],
    out: &mut MemSink,
    journal: &mut MemSink,
) -> Result<u8, Fail> {
    let mut words = Vec::new(alloc);
    words.push(String::from_str(alloc, "run")?)?;
    let mut source = MemSource::new(alloc, FIRST_RUN, reads)?;
    let words = words.as_slice();
    Ok(run_domain(rt, alloc, words, &mut source, out, journal, &OpenGate))
}

#[test]
fn a_text_is_stored_and_loaded(rt: HostRuntime) -> Result<(), Fail> {
    let mut out = MemSink::new(rt.alloc(), 100, &[])?;
    let mut journal = MemSink::new(rt.alloc(), 1000, &[])?;
    assert_eq!(rt; first_run(&rt, rt.alloc(), &[], &mut out, &mut journal)?, 0);
    assert_eq!(rt; out.bytes(), FIRST_REPORT);
    assert!(rt; journal.bytes().ends_with(b"\n19 a ready 1\n"));
    Ok(())
}

#[test]
fn a_stream_that_fails_is_told(rt: HostRuntime) -> Result<(), Fail> {
    // The read, the write or the write of the journal that fails; the status; and how much of the report was written.
    let rows: [(&[u64], &[u64], &[u64], u8, usize); 3] = [
        (&[2], &[], &[], 4, 0),
        (&[], &[1], &[], 5, 0),
        (&[], &[], &[1], 6, FIRST_REPORT.len()),
    ];
    for (reads, writes, lines, status, written) in rows {
        let mut out = MemSink::new(rt.alloc(), 100, writes)?;
        let mut journal = MemSink::new(rt.alloc(), 1000, lines)?;
        assert_eq!(rt;
            first_run(&rt, rt.alloc(), reads, &mut out, &mut journal)?,
            status
        );
        assert_eq!(rt; out.bytes().len(), written);
        assert!(rt; journal.bytes().is_empty());
    }
    Ok(())
}

#[test]
fn the_last_tick_ends_a_run(rt: HostRuntime) -> Result<(), Fail> {
    let script = read_script(rt.alloc(), FIRST_RUN)?;
    let node = NodeId::new(1).ok_or("no node")?;
    let early = run_script_in_turns(rt.alloc(), &script, 0, 10).map(|_| ());
    assert_eq!(rt; early, Err(RunFault::TickLimit(node)));
    let last = run_script_in_turns(rt.alloc(), &script, 0, 19).map(|_| ());
    assert_eq!(rt; last, Err(RunFault::TickLimit(node)));
    let whole = run_script_in_turns(rt.alloc(), &script, 0, 20).map(|_| ());
    assert_eq!(rt; whole, Ok(()));
    Ok(())
}

#[test]
fn threads_run_a_script_too(rt: HostRuntime) -> Result<(), Fail> {
    let script = read_script(rt.alloc(), FIRST_RUN)?;
    let node = NodeId::new(1).ok_or("no node")?;
    let late = run_script(&rt, rt.alloc(), &script, None, 19, &OpenGate).map(|_| 0);
    assert_eq!(rt; late, Err(RunFault::TickLimit(node)));
    let whole = run_script(&rt, rt.alloc(), &script, None, 20, &OpenGate);
    assert_eq!(rt; whole.map(|ran| ran.events.items().len()), Ok(19));
    let turns = run_script(&rt, rt.alloc(), &script, Some(7), 20, &OpenGate);
    assert_eq!(rt; turns.map(|ran| ran.events.items().len()), Ok(19));
    Ok(())
}

#[test]
fn a_line_that_parts_has_no_cr(rt: HostRuntime) -> Result<(), Fail> {
    // The source of `check`, its status, and what it writes.
    let rows: [(&[u8], u8, &[u8]); 4] = [
        (b"node a\r\n--- journal\n1 a ready 1\n", 0, b"yes 1\n"),
        (
            b"node a\r\n--- journal\r\n1 a ready 1\n",
            9,
            b"line 0: no journal\n",
        ),
        (
            b"node a\n--- journal\r\n--- journal\n",
            3,
            b"line 2: word\n",
        ),
        (
            b"node a\r\n--- journal\n1 a ready 1\r\n",
            9,
            b"line 1: form\n",
        ),
    ];
    let mut words = Vec::new(rt.alloc());
    words.push(String::from_str(rt.alloc(), "check")?)?;
    let words = words.as_slice();
    for (bytes, status, text) in rows {
        let mut source = MemSource::new(rt.alloc(), bytes, &[])?;
        let mut out = MemSink::new(rt.alloc(), 100, &[])?;
        let mut journal = MemSink::new(rt.alloc(), 100, &[])?;
        let answer = run_domain(
            &rt,
            rt.alloc(),
            words,
            &mut source,
            &mut out,
            &mut journal,
            &OpenGate,
        );
        assert_eq!(rt; answer, status);
        assert_eq!(rt; out.bytes(), text);
        assert!(rt; journal.bytes().is_empty());
    }
    Ok(())
}
