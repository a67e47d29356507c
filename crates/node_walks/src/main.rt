//! The program `node_walks`: does the events of journals at the nodes of their scripts, one after the other, and compares what
//! each does with its line. Standard input has the names of files of cases, one a line. Each case that was tried is named on
//! standard output, and the exit status is 1 where one came out otherwise than it says.
//!
//! A file of cases is written by hand, and needs no proof: put it into `data/`, its name into `stdin`, and what is to be written
//! into `stdout`. How a case is written, the crate case_files says. The journal goes up to the end of the script's last phase, and the
//! report is what the processes answer:
//!
//! ```text
//! == one object
//! -- script
//! node a
//! a.1 new x 1
//! -- journal
//! 1 a begin 1; send a 1 make 1
//! 2 a take a 1; send a 2 made 1
//! 3 a take a 2; end 1 ok
//! 4 a begin 1
//! 5 a ready 1
//! -- report
//! a.1 1 ok 0000000000200001
//! ```
//!
//! A head has no line but `spoiled`. The nodes of a script are `a` and `b`.
#![tactic(auto)]

use anyhow::{Result, bail};
use case_files::{FileCase, read_cases};
use node_plays::play::{Found, play_case};
use std::fs;

/// How many cases were tried, how many events their journals have, and how many cases came out otherwise than they are to.
#[derive(Clone, Copy)]
struct Tally {
    cases: u64,
    events: u64,
    wrong: u64,
}

/// Whether all was as a case says.
fn is_as_said(found: Found) -> bool {
    matches!(found, Found::AsSaid)
}

/// Tells of a case.
fn tell(rt: &HostRuntime, case: &FileCase, found: Found) -> Result<()> {
    let wrong = if is_as_said(found) == case.spoiled {
        "WRONG, "
    } else {
        ""
    };
    match found {
        Found::AsSaid => println!(rt; "  {}: {wrong}as it says", case.name)?,
        Found::Event(tick) => println!(rt; "  {}: {wrong}otherwise at tick {tick}", case.name)?,
        Found::End => println!(rt; "  {}: {wrong}another end", case.name)?,
        Found::Answers => println!(rt; "  {}: {wrong}other answers", case.name)?,
    }
    Ok(())
}

/// Tries a case, and tells of it.
fn try_one(rt: &HostRuntime, case: &FileCase, tally: Tally) -> Result<Tally> {
    if let Some(line) = case.head.first() {
        bail!("no case has a line {line} before its script");
    }
    let (found, events) = play_case(rt.alloc(), case)?;
    tell(rt, case, found)?;
    Ok(Tally {
        cases: tally.cases.saturating_add(1),
        events: tally.events.saturating_add(events),
        wrong: tally
            .wrong
            .saturating_add(u64::from(is_as_said(found) == case.spoiled)),
    })
}

/// Tries each case of a file.
fn try_file(rt: &HostRuntime, path: &str, mut tally: Tally) -> Result<Tally> {
    let text = fs::read_to_string(rt, path)?;
    for case in read_cases(rt.alloc(), text.as_str())? {
        tally = try_one(rt, &case, tally)?;
    }
    Ok(tally)
}

fn main(rt: HostRuntime) -> Result<()> {
    let mut tally = Tally {
        cases: 0,
        events: 0,
        wrong: 0,
    };
    for line in rt.lines(rt.alloc()) {
        let path = line?;
        println!(rt; "{path}")?;
        tally = try_file(&rt, path.as_str(), tally)?;
    }
    println!(rt;
        "{} cases of {} events, {} of them wrong",
        tally.cases, tally.events, tally.wrong
    )?;
    anyhow::ensure!(tally.wrong == 0, "a case came out otherwise than it is to");
    Ok(())
}
