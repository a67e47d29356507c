//! What a desk keeps, asked from outside.
use crate::driver::proc;
use crate::texts::{Part, told};
use crate::words::{number8, number32, object};
use anyhow::{Result, bail};
use fault_handler::{Desk, LockState};
use std::alloc::{AllocError, Global};
use uid_names::Uid;

/// The answer to a question, about a process or the whole desk.
pub fn ask(alloc: Global, desk: &Desk, number: &str, words: [&str; 3]) -> Result<String> {
    let [verb, first, second] = words;
    match verb {
        "state" => state(alloc, desk, number, first),
        "grant" => grant(alloc, desk, number, first),
        "has-call" => has_call(alloc, desk, number),
        "in-transit" => in_transit(alloc, desk, first, second),
        _ => of_object(alloc, desk, verb, object(first)?),
    }
}

/// The answer to a question about an object.
fn of_object(alloc: Global, desk: &Desk, verb: &str, uid: Uid) -> Result<String> {
    let number = match verb {
        "seen" => desk.seen(uid),
        "dirty-page" => desk.dirty_page(uid).map(u64::from),
        "changed-length" => desk.changed_length(uid).map(u64::from),
        _ => bail!("no such call"),
    };
    Ok(number_text(alloc, number)?)
}

fn state(alloc: Global, desk: &Desk, number: &str, word: &str) -> Result<String> {
    let proc = proc(desk, number8(number)?)?;
    let state = desk.state(proc, object(word)?);
    Ok(state_text(alloc, state)?)
}

fn grant(alloc: Global, desk: &Desk, number: &str, word: &str) -> Result<String> {
    let proc = proc(desk, number8(number)?)?;
    let grant = desk.grant(proc, object(word)?);
    Ok(number_text(alloc, grant)?)
}

fn has_call(alloc: Global, desk: &Desk, number: &str) -> Result<String> {
    let proc = proc(desk, number8(number)?)?;
    let has_call = desk.open_call(proc).is_some();
    Ok(truth_text(alloc, has_call)?)
}

fn in_transit(alloc: Global, desk: &Desk, word: &str, page: &str) -> Result<String> {
    let is_there = desk.in_transit(object(word)?, number32(page)?);
    Ok(truth_text(alloc, is_there)?)
}

fn number_text(alloc: Global, number: Option<u64>) -> Result<String, AllocError> {
    match number {
        Some(number) => format!(in alloc; "{number}"),
        None => told(alloc, "none", &[]),
    }
}

fn truth_text(alloc: Global, is: bool) -> Result<String, AllocError> {
    format!(in alloc; "{is}")
}

fn state_text(alloc: Global, state: LockState) -> Result<String, AllocError> {
    match state {
        LockState::Free => told(alloc, "free", &[]),
        LockState::Held(mode) => told(alloc, "held", &[Part::Letter(mode)]),
        LockState::Taking(mode) => told(alloc, "taking", &[Part::Letter(mode)]),
        LockState::Releasing(mode) => told(alloc, "releasing", &[Part::Letter(mode)]),
        LockState::Deleting => told(alloc, "deleting", &[]),
    }
}
