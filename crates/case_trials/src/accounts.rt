//! What the events of a run say of link faults, and what its processes answered, as a call that runs scripts has them.
use anyhow::{Context, Result};
use dom_text::decimal;
use script_reader::{Script, read_script};
use script_runner::{AnswerRow, OpenGate, run_script};
use std::alloc::Global;
use std::sync::Wait;
use std::thread::Threads;
use uid_names::ByteList;
use world_core::{Account, account};

/// No event of a case gives a node this tick.
const LAST_TICK: u64 = 1 << 40;

/// The number of turns of the words of a line, which are those of a run.
fn turns_of(line: &str) -> Result<Option<u64>> {
    match line.strip_prefix("run --turns ") {
        Some(turns) => Ok(Some(decimal(turns.as_bytes())?)),
        None => {
            anyhow::ensure!(line == "run", "an account of what is no run of a script");
            Ok(None)
        }
    }
}

/// Puts the lines of a process behind a report.
fn put_lines(alloc: Global, script: &Script, row: &AnswerRow, report: &mut ByteList) -> Result<()> {
    let place = usize::from(row.proc.node().number()).wrapping_sub(1);
    let node = script.nodes().get(place).context("a node without a name")?;
    let number = row.proc.number();
    for (i, answer) in row.answers.items().iter().enumerate() {
        let index = i.wrapping_add(1);
        report.extend(node.name.bytes())?;
        report.extend(format!(in alloc; ".{number} {index} ")?.as_bytes())?;
        report.extend(answer.bytes())?;
        report.push(b'\n')?;
    }
    Ok(())
}

/// What of a run of a script with the words of a line is otherwise than this account and this report say.
pub(crate) fn account_otherwise<R: Threads + Wait + Sync>(
    rt: &R,
    alloc: Global,
    bytes: &[u8],
    line: &str,
    expected: Account,
    report: &[u8],
) -> Result<Option<&'static str>> {
    let script = read_script(alloc, bytes)?;
    let Ok(ran) = run_script(rt, alloc, &script, turns_of(line)?, LAST_TICK, &OpenGate) else {
        return Ok(Some("its run"));
    };
    if account(&ran.events, script.plan()) != expected {
        return Ok(Some("its account"));
    }
    let mut answers = ByteList::new(alloc);
    for row in ran.answers.items() {
        put_lines(alloc, &script, row, &mut answers)?;
    }
    Ok(if answers.bytes() == report {
        None
    } else {
        Some("its answers")
    })
}
