//! The processes of a script.
ghost use Rattle.std.specs.Prelude.{◌≡◌, ◌≤◌, ◌<◌, ◌∷◌, ◌++◌, length, take, drop, MatchOption, Some, IsTrue, IfOk, OnOk};
ghost use Rattle.script_runs.specs.Processes.{procs_with, processes_of};
ghost use Rattle.script_runner.specs.PutProcesses.{AreThere};

use script_reader::CommandRow;
use std::alloc::Global;
use uid_names::{NODE_PROCESSES, NoMemory, PROCESSES, ProcId};

/// The place of a process among others in order; None where it is one of them.
fn place_of(procs: &[ProcId], proc: ProcId) -> Option<usize>
    ensures { MatchOption result
        (procs_with proc procs.now ≡ procs.now)
        (λ i. (i ≤ length procs.now) × (procs_with proc procs.now ≡ take i procs.now ++ proc ∷ drop i procs.now)) }
{
    for (i, other) in procs.iter().enumerate() {
        if other.is(proc) {
            return None;
        }
        if !other.is_below(proc) {
            return Some(i);
        }
    }
    Some(procs.len())
}

/// Puts a process in its place, unless it is there.
fn add(procs: &mut Vec<ProcId>, proc: ProcId) -> Result<(), NoMemory>
    ensures { OnOk result (procs.new.items ≡ procs_with proc procs.old.items) }
{
    if let Some(i) = place_of(procs, proc) {
        procs.insert(i, proc)?;
    }
    Ok(())
}

/// Where a table of processes that were put names this one, if any.
fn entry_of(proc: ProcId) -> usize
    ensures { result < PROCESSES }
{
    (usize::from(proc.node().number()) * NODE_PROCESSES + usize::from(proc.number())) % PROCESSES
}

/// Whether an entry of the table names this process.
fn names(entry: Option<ProcId>, proc: ProcId) -> bool
    ensures { IsTrue result → entry ≡ Some proc }
{
    match entry {
        Some(named) => named.is(proc),
        None => false,
    }
}

/// Puts a process in its place, unless it is there, as those are that the table names.
#[tactic(auto, using(crate::proofs::Again::added_again, crate::proofs::Again::there_again, crate::proofs::Again::put_there))]
fn add_named(
    procs: &mut Vec<ProcId>,
    table: &mut [Option<ProcId>; PROCESSES],
    proc: ProcId,
) -> Result<(), NoMemory>
    requires { AreThere procs.old.items table.old }
    ensures added { OnOk result (procs.new.items ≡ procs_with proc procs.old.items) }
    ensures there { OnOk result (AreThere procs.new.items table.new) }
{
    let at = entry_of(proc);
    if names(table[at], proc) {
        return Ok(());
    }
    add(procs, proc)?;
    table[at] = Some(proc);
    Ok(())
}

/// The processes that have a command, each once, in order of node and number.
pub fn processes_in(alloc: Global, rows: &[CommandRow]) -> Result<Vec<ProcId>, NoMemory>
    ensures { IfOk result (λ procs. procs.items ≡ processes_of rows.now) }
{
    let mut procs = Vec::new(alloc);
    // Most commands are of a process that has some before.
    let mut table = [None; PROCESSES];
    for row in rows {
        add_named(&mut procs, &mut table, row.proc)?;
    }
    Ok(procs)
}
