//! The program `run_cases`: runs the scripts of files of cases as `domain` does, and compares what they come to with what their
//! cases say. Standard input has the names of the files, one a line. Each case that was tried is named on standard output, and the
//! exit status is 1 where one came out otherwise than it says.
//!
//! How a case is written, and what the lines of its head say, stands in docs/SCRIPTS.md, section 17. A new case needs no proof: write
//! it into a file of `data/`, and its name into `stdout`.
#![tactic(auto)]

use anyhow::Result;
use case_files::{FileCase, read_cases};
use case_trials::{Case, Tried, try_case};
use std::fs;
use std::sync::Wait;
use std::thread::Threads;

/// How many cases were tried, in how many runs, and how many of them came out otherwise than they are to.
#[derive(Clone, Copy)]
struct Tally {
    cases: u64,
    runs: u64,
    wrong: u64,
}

/// What is told of a case.
fn told(case: &Case, tried: Tried) -> (&'static str, &'static str) {
    match (tried.otherwise, case.is_spoiled()) {
        (None, false) => ("as it says", ""),
        (None, true) => ("WRONG, as it says though it is spoiled", ""),
        (Some(part), true) => ("seen to be spoiled, by ", part),
        (Some(part), false) => ("WRONG, by ", part),
    }
}

/// Tries a case, and tells of it.
fn try_one<R: Threads + Wait + Sync>(
    rt: &HostRuntime,
    threads: &R,
    case: FileCase,
    tally: Tally,
) -> Result<Tally> {
    let case = Case::new(rt.alloc(), case)?;
    let tried = try_case(threads, rt.alloc(), &case)?;
    let (end, part) = told(&case, tried);
    println!(rt; "  {}: {end}{part}", case.name())?;
    Ok(Tally {
        cases: tally.cases.saturating_add(1),
        runs: tally.runs.saturating_add(tried.runs),
        wrong: tally
            .wrong
            .saturating_add(u64::from(tried.otherwise.is_some() != case.is_spoiled())),
    })
}

/// Tries each case of a file.
fn try_file<R: Threads + Wait + Sync>(
    rt: &HostRuntime,
    threads: &R,
    path: &str,
    mut tally: Tally,
) -> Result<Tally> {
    let text = fs::read_to_string(rt, path)?;
    for case in read_cases(rt.alloc(), text.as_str())? {
        tally = try_one(rt, threads, case, tally)?;
    }
    Ok(tally)
}

fn main(rt: HostRuntime) -> Result<()> {
    let mut tally = Tally {
        cases: 0,
        runs: 0,
        wrong: 0,
    };
    for line in rt.lines(rt.alloc()) {
        let path = line?;
        println!(rt; "{path}")?;
        tally = try_file(&rt, &rt, path.as_str(), tally)?;
    }
    println!(rt;
        "{} cases in {} runs, {} of them wrong",
        tally.cases, tally.runs, tally.wrong
    )?;
    anyhow::ensure!(tally.wrong == 0, "a case came out otherwise than it is to");
    Ok(())
}
