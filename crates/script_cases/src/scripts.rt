//! What is said of scripts.
use crate::row::{first_number, first_text, pieces};
use anyhow::Result;
use dom_text::Token;
use script_reader::{Script, ScriptFault, read_script};
use std::alloc::Global;

/// How much a script has of each kind.
#[derive(Clone, Copy, PartialEq, Eq)]
pub(crate) struct Counts {
    nodes: u64,
    objects: u64,
    fates: u64,
    phases: u64,
    commands: u64,
}

/// The counts that stand first in a row, and what stands behind them.
pub(crate) fn first_counts(row: &[Token]) -> Result<(Counts, &[Token])> {
    let (nodes, row) = first_number(row)?;
    let (objects, row) = first_number(row)?;
    let (fates, row) = first_number(row)?;
    let (phases, row) = first_number(row)?;
    let (commands, row) = first_number(row)?;
    let counts = Counts {
        nodes,
        objects,
        fates,
        phases,
        commands,
    };
    Ok((counts, row))
}

/// How much this script has of each kind.
pub(crate) fn counts_of(script: &Script) -> Counts {
    Counts {
        nodes: script.nodes().len() as u64,
        objects: script.objects().len() as u64,
        fates: script.plan().rows().len() as u64,
        phases: script.phases() as u64,
        commands: script.commands().len() as u64,
    }
}

/// Whether a script has its first bad line there, for that cause.
pub(crate) fn is_bad(alloc: Global, before: &[u8], row: &[Token]) -> Result<bool> {
    let (number, row) = first_number(row)?;
    let (text, row) = first_text(row)?;
    let script = pieces(alloc, before, row)?;
    match read_script(alloc, script.bytes()) {
        Ok(_) => Ok(false),
        Err(ScriptFault::Bad { line, cause }) => {
            Ok(line as u64 == number && cause.text().as_bytes() == text)
        }
        Err(ScriptFault::NoMemory) => Err(ScriptFault::NoMemory.into()),
    }
}

/// Whether a script is read, and has so much of each kind.
pub(crate) fn has(alloc: Global, before: &[u8], row: &[Token]) -> Result<bool> {
    let (counts, row) = first_counts(row)?;
    let script = pieces(alloc, before, row)?;
    match read_script(alloc, script.bytes()) {
        Ok(script) => Ok(counts_of(&script) == counts),
        Err(ScriptFault::Bad { .. }) => Ok(false),
        Err(ScriptFault::NoMemory) => Err(ScriptFault::NoMemory.into()),
    }
}
