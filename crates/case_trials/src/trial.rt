//! How a case is tried: each of its runs, and what comes of it beside what the case says.
use crate::accounts::account_otherwise;
use crate::case::{Case, Journals};
use crate::running::{Limits, Outcome, Streams, run};
use anyhow::Result;
use std::alloc::Global;
use std::sync::Wait;
use std::thread::Threads;

/// In how many runs a case was tried, and the part of one that is otherwise than the case says.
#[derive(Clone, Copy)]
pub struct Tried {
    pub runs: u64,
    pub otherwise: Option<&'static str>,
}

impl Tried {
    /// So many runs more were tried, and whether each came to what is said of them.
    fn and(self, tried: (u64, bool), part: &'static str) -> Tried {
        let (runs, is_so) = tried;
        Tried {
            runs: self.runs.saturating_add(runs),
            otherwise: if is_so { self.otherwise } else { Some(part) },
        }
    }
}

/// The first bytes of a text, for which there is this room.
fn first_of<'a>(text: &'a [u8], limits: Limits<'_>) -> &'a [u8] {
    &text[..limits.room.min(text.len())]
}

/// What was written to standard output, what was read, or how the run ended, where that is otherwise.
fn end_otherwise(case: &Case, outcome: &Outcome) -> Option<&'static str> {
    let due = first_of(case.report(), case.streams().out);
    if outcome.status != case.status {
        return Some("its status");
    }
    if outcome.out.bytes.as_slice() != due {
        return Some("its report");
    }
    let taken = case.taken.unwrap_or(outcome.taken);
    if (case.unread && outcome.reads != 0) || outcome.taken != taken {
        return Some("what it read");
    }
    None
}

/// What is otherwise of a journal: its lines or a fact. It is empty but where it was begun to be written, and then the report was.
fn journal_otherwise(case: &Case, journal: &[u8]) -> Option<&'static str> {
    if case.status != 0 && case.status != 6 && !journal.is_empty() {
        return Some("a journal");
    }
    if let Some(lines) = case.journal()
        && journal != first_of(lines, case.streams().journal)
    {
        return Some("its journal");
    }
    for fact in case.facts.as_slice() {
        if !fact.holds(journal) {
            return Some("a fact on its journal");
        }
    }
    None
}

/// Whether the journal that was cut is how that of the whole run begins.
fn is_first_part<R: Threads + Wait + Sync>(
    rt: &R,
    alloc: Global,
    case: &Case,
    line: &str,
    journal: &[u8],
) -> Result<bool> {
    let streams = case.streams();
    if streams.journal.room == usize::MAX || case.status != 6 {
        return Ok(true);
    }
    let wide = Limits {
        room: usize::MAX,
        fails: &[],
    };
    let journals = Streams {
        journal: wide,
        ..streams
    };
    let whole = run(rt, alloc, journals, line)?;
    Ok(journal == first_of(whole.journal.bytes.as_slice(), streams.journal))
}

/// Whether the journals of two runs go together as a case says.
fn go_together(case: &Case, before: &Option<Outcome>, journal: &[u8]) -> bool {
    match (case.journals, before) {
        (Journals::Any, _) | (_, None) => true,
        (Journals::Same, Some(before)) => before.journal.bytes.as_slice() == journal,
        (Journals::Other, Some(before)) => before.journal.bytes.as_slice() != journal,
    }
}

/// What is otherwise in a run with the words of a line.
fn run_otherwise<R: Threads + Wait + Sync>(
    rt: &R,
    alloc: Global,
    case: &Case,
    line: &str,
    before: &Option<Outcome>,
    outcome: &Outcome,
) -> Result<Option<&'static str>> {
    let journal = outcome.journal.bytes.as_slice();
    if let Some(part) = end_otherwise(case, outcome) {
        return Ok(Some(part));
    }
    if let Some(part) = journal_otherwise(case, journal) {
        return Ok(Some(part));
    }
    if !is_first_part(rt, alloc, case, line, journal)? {
        return Ok(Some("where its journal is cut"));
    }
    if !go_together(case, before, journal) {
        return Ok(Some("how its journals go together"));
    }
    match case.account {
        Some(account) => {
            account_otherwise(rt, alloc, case.source(), line, account, case.report())
        }
        None => Ok(None),
    }
}

/// Tries the runs that stop early, and those of first bytes of the script, with the words of a line.
fn try_parts<R: Threads + Wait + Sync>(
    rt: &R,
    alloc: Global,
    case: &Case,
    line: &str,
    whole: &Outcome,
    before: Tried,
) -> Result<Tried> {
    let streams = case.streams();
    let mut tried = before;
    for stops in case.stops.as_slice() {
        let stopped = stops.try_all(rt, alloc, streams, line, whole)?;
        tried = tried.and(stopped, "a run that stops early");
    }
    for cut in case.cuts.as_slice() {
        let short = cut.try_all(rt, alloc, streams, line, case.report())?;
        tried = tried.and(short, "what first bytes come to");
    }
    Ok(tried)
}

/// Tries a case: its runs, up to the first in which something is otherwise.
pub fn try_case<R: Threads + Wait + Sync>(rt: &R, alloc: Global, case: &Case) -> Result<Tried> {
    let mut tried = Tried {
        runs: 0,
        otherwise: None,
    };
    let mut before = None;
    for words in case.words.as_slice() {
        let line = words.as_str();
        let outcome = run(rt, alloc, case.streams(), line)?;
        tried.runs = tried.runs.saturating_add(1);
        tried.otherwise = run_otherwise(rt, alloc, case, line, &before, &outcome)?;
        if tried.otherwise.is_none() {
            tried = try_parts(rt, alloc, case, line, &outcome, tried)?;
        }
        if tried.otherwise.is_some() {
            return Ok(tried);
        }
        before = Some(outcome);
    }
    Ok(tried)
}
