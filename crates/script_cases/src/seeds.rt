//! What is said of the scripts of seeds.
use crate::row::first_number;
use crate::scripts::{counts_of, first_counts};
use anyhow::Result;
use dom_text::Token;
use script_maker::generate;
use script_reader::{Command, Script, read_script};
use std::alloc::Global;
use std::fs;

/// What a command says, in a number.
fn weight(command: &Command) -> u64 {
    match command {
        Command::Load { offset, .. } => *offset as u64,
        Command::Store { offset, text, .. } => {
            let digits = text
                .bytes()
                .iter()
                .fold(0_u64, |sum, b| sum.wrapping_add(*b as u64));
            digits.wrapping_add(*offset as u64)
        }
        _ => 0,
    }
}

/// What all commands say, each by its place.
fn weight_of_all(script: &Script) -> u64 {
    let mut sum: u64 = 0;
    for (at, row) in script.commands().iter().enumerate() {
        let place = (at as u64).wrapping_add(1);
        sum = sum.wrapping_add(place.wrapping_mul(weight(&row.command)));
    }
    sum
}

/// Whether the script of a seed has so much of each kind, and all that its commands say is this number.
pub(crate) fn has(alloc: Global, row: &[Token]) -> Result<bool> {
    let (seed, row) = first_number(row)?;
    let (counts, row) = first_counts(row)?;
    let (weight, _) = first_number(row)?;
    let script = generate(alloc, seed)?;
    Ok(counts_of(&script) == counts && weight_of_all(&script) == weight)
}

/// Whether both have the same nodes and the same objects.
fn have_same_declarations(some: &Script, others: &Script) -> bool {
    for (node, other) in some.nodes().iter().zip(others.nodes().iter()) {
        if node.name.bytes() != other.name.bytes() || node.frames != other.frames {
            return false;
        }
    }
    for (object, other) in some.objects().iter().zip(others.objects().iter()) {
        if object.var.bytes() != other.var.bytes() || object.uid != other.uid {
            return false;
        }
    }
    some.nodes().len() == others.nodes().len() && some.objects().len() == others.objects().len()
}

/// Whether the commands of one are the first of the other.
fn begins_with(alloc: Global, some: &Script, others: &Script) -> Result<bool> {
    for (row, other) in some.commands().iter().zip(others.commands().iter()) {
        if format!(in alloc; "{row:?}")? != format!(in alloc; "{other:?}")? {
            return Ok(false);
        }
    }
    Ok(others.commands().len() <= some.commands().len())
}

/// Whether the script in the file `seed-N`, where N is the seed, has so much of each kind, and the script of the seed has its nodes
/// and objects, and begins with its commands.
pub(crate) fn begins(rt: &HostRuntime, row: &[Token]) -> Result<bool> {
    let (seed, row) = first_number(row)?;
    let (counts, _) = first_counts(row)?;
    let file = format!(in rt.alloc(); "seed-{seed}")?;
    let text = fs::read_to_string(rt, file.as_str())?;
    let read = read_script(rt.alloc(), text.as_bytes())?;
    let script = generate(rt.alloc(), seed)?;
    if counts_of(&read) != counts || !have_same_declarations(&script, &read) {
        return Ok(false);
    }
    begins_with(rt.alloc(), &script, &read)
}
