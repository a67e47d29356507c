//! Runs a script that was read.
ghost use Rattle.std.specs.Prelude.{◌≡◌, ◌≤◌, ◌^◌, ℕ, Option, Some, None, All, IsSome, map, IfOk, IfErr, option_copied};
ghost use Rattle.aegis_shell.specs.Shells.{shell_answers};
ghost use Rattle.ended_nodes.specs.Ended.{named};
ghost use Rattle.script_runner.specs.EndedShells.{AreEndedShells, CameOf};
ghost use Rattle.script_runner.specs.Answered.{row_in};
ghost use Rattle.journal_text.specs.Lines.{Names};
ghost use Rattle.script_runs.specs.Reports.{names_of};
ghost use Rattle.script_runner.specs.Reports.{RunOf, answers_in};
ghost use Rattle.script_runner.specs.Faults.{IsFaultOf};

use crate::nodes::nodes_of;
use crate::processes::processes_in;
use aegis_shell::Shell;
use aegis_shell::laws::shells_go_by_all_they_heard;
use dom_history::{EventList, MergedLogs};
use local_runs::merge;
use local_runs::merged::logs_of_local_runs_may_be_merged;
use mail_runs::laws::ended_runs_keep_mailboxes;
use node_core::RunFault;
use node_threads::{Gate, make_posts, run_all};
use script_reader::Script;
use script_runs::laws::{
    a_seed_picks_one_run_of_a_script, answers_are_functions_of_histories,
    ended_runs_of_scripts_are_as_one_store, ended_runs_of_scripts_name_their_nodes,
    scripts_set_nodes_up,
};
use std::alloc::Global;
use std::sync::Wait;
use std::thread::Threads;
use uid_names::{ByteList, ItemList, NoMemory, ProcId};
use world_core::World;

/// A process, and the answers of its commands in order.
#[derive(Drop, Debug)]
pub struct AnswerRow {
    pub proc: ProcId,
    pub answers: ItemList<ByteList>,
}

/// The answers of processes, in order of node and number.
pub type AnswerRows = ItemList<AnswerRow>;

/// What came of a script: the events of all nodes by rising place, and the answers of all processes.
#[derive(Drop, Debug)]
pub struct Ran {
    pub events: EventList,
    pub answers: AnswerRows,
}

/// The same, with the events in the logs of their nodes.
#[derive(Drop)]
pub(crate) struct MergedRan {
    pub(crate) events: MergedLogs,
    pub(crate) answers: AnswerRows,
}

/// Copies of a process's answers.
pub(crate) fn answers_of(alloc: Global, shell: &Shell) -> Result<ItemList<ByteList>, NoMemory>
    ensures { IfOk result (λ answers. answers ≡ shell_answers shell.now) }
{
    let mut answers = ItemList::new(alloc);
    for answer in shell.answers() {
        answers.push(answer.copy(alloc)?)?;
    }
    Ok(answers)
}

/// The shell of a process.
fn shell_in<'a, 'b>(shells: &'a [(ProcId, Shell<'b>)], proc: ProcId) -> Option<&'a Shell<'b>>
    ensures { option_copied result ≡ named shells.now proc }
{
    for (other, shell) in shells {
        if other.is(proc) {
            return Some(shell);
        }
    }
    None
}

/// The answers of these processes, each of which has a shell.
fn answers(
    alloc: Global,
    shells: &[(ProcId, Shell<'_>)],
    procs: &[ProcId],
) -> Result<AnswerRows, NoMemory>
    requires { All (λ p. IsSome (named shells.now p)) procs.now }
    ensures { IfOk result (λ rows. map answers_in rows ≡ map (row_in shells.now) procs.now) }
{
    let mut rows = AnswerRows::new(alloc);
    for proc in procs {
        let Some(shell) = shell_in(shells, *proc) else {
            unreachable!()
        };
        let answers = answers_of(alloc, shell)?;
        rows.push(AnswerRow {
            proc: *proc,
            answers,
        })?;
    }
    Ok(rows)
}

/// The events of a script's nodes that have ended, and the shells as they are then.
type Ended<'a> = (MergedLogs, Vec<(ProcId, Shell<'a>)>);

/// The run of a script's nodes in the turns of a number, on one thread.
fn run_in_turns(
    alloc: Global,
    script: &Script,
    number: u64,
    last_tick: u64,
) -> Result<Ended<'_>, RunFault>
    requires some { 1 ≤ last_tick }
    requires few { last_tick ≤ 2 ^ 40 }
    ensures run { IfOk result (λ r. AreEndedShells script.now (Some number) last_tick r.0.events r.1.items) }
    ensures limit { IfErr result (IsFaultOf script.now (Some number) last_tick) }
{
    let nodes = nodes_of(alloc, script)?;
    let plan = script.plan().copy(alloc)?;
    let world = World::new(alloc, nodes, plan)?;
    // So the run is planned and has ended, and there is no other of that number.
    let _start = script.opening().nodes();
    a_seed_picks_one_run_of_a_script();
    world.run_merged(alloc, number, last_tick)
}

/// A run of a script's nodes, each in a thread of its own.
fn run_in_threads<'a, K: Gate, R: Threads + Wait + Sync>(
    rt: &R,
    alloc: Global,
    script: &'a Script,
    last_tick: u64,
    gate: &K,
) -> Result<Ended<'a>, RunFault>
    requires some { 1 ≤ last_tick }
    requires few { last_tick ≤ 2 ^ 40 }
    ensures run { IfOk result (λ r. AreEndedShells script.now None last_tick r.0.events r.1.items) }
    ensures limit { IfErr result (IsFaultOf script.now None last_tick) }
{
    let nodes = nodes_of(alloc, script)?;
    let posts = make_posts(alloc, nodes, script.plan())?;
    let (logs, shells) = run_all(rt, alloc, posts, gate, last_tick)?;
    // So the logs may be merged, and are then a recent run of the script that has ended.
    let _start = script.opening().nodes();
    scripts_set_nodes_up();
    logs_of_local_runs_may_be_merged();
    let events = merge(alloc, logs)?;
    Ok((events, shells))
}

/// What came of a script whose nodes have ended.
fn what_came(alloc: Global, script: &Script, ended: Ended<'_>) -> Result<MergedRan, NoMemory>
    requires ended { (turns : Option ℕ) × (last : ℕ) × AreEndedShells script.now turns last ended.0.events ended.1.items }
    ensures named { IfOk result (λ ran. All (Names (names_of script.now)) ran.events.events) }
    ensures ran { IfOk result (λ ran. CameOf script.now ended.entry.0.events ended.entry.1.items (record { events = ran.events.events; answers = ran.answers })) }
{
    let (events, shells) = ended;
    let procs = processes_in(alloc, script.commands())?;
    let answers = answers(alloc, shells.as_slice(), procs.as_slice())?;
    // So the run names its own nodes and is as one store would have it, and the shells were answered what its history says.
    let _start = script.opening().nodes();
    ended_runs_of_scripts_name_their_nodes();
    ended_runs_of_scripts_are_as_one_store();
    ended_runs_keep_mailboxes();
    answers_are_functions_of_histories();
    shells_go_by_all_they_heard();
    Ok(MergedRan { events, answers })
}

/// Runs a script on nodes, as `run_script_in_turns` does, and leaves the events in the logs of their nodes.
fn merged_in_turns(
    alloc: Global,
    script: &Script,
    number: u64,
    last_tick: u64,
) -> Result<MergedRan, RunFault>
    requires some { 1 ≤ last_tick }
    requires few { last_tick ≤ 2 ^ 40 }
    ensures named { IfOk result (λ ran. All (Names (names_of script.now)) ran.events.events) }
    ensures ran { IfOk result (λ ran. RunOf script.now (Some number) last_tick (record { events = ran.events.events; answers = ran.answers })) }
    ensures limit { IfErr result (IsFaultOf script.now (Some number) last_tick) }
{
    let ended = run_in_turns(alloc, script, number, last_tick)?;
    Ok(what_came(alloc, script, ended)?)
}

/// Runs a script on nodes that each have a thread of their own, and leaves the events in the logs of the nodes.
fn merged_in_threads<K: Gate, R: Threads + Wait + Sync>(
    rt: &R,
    alloc: Global,
    script: &Script,
    last_tick: u64,
    gate: &K,
) -> Result<MergedRan, RunFault>
    requires some { 1 ≤ last_tick }
    requires few { last_tick ≤ 2 ^ 40 }
    ensures named { IfOk result (λ ran. All (Names (names_of script.now)) ran.events.events) }
    ensures ran { IfOk result (λ ran. RunOf script.now None last_tick (record { events = ran.events.events; answers = ran.answers })) }
    ensures limit { IfErr result (IsFaultOf script.now None last_tick) }
{
    let ended = run_in_threads(rt, alloc, script, last_tick, gate)?;
    Ok(what_came(alloc, script, ended)?)
}

/// Runs a script on nodes, as `run_script` does, and leaves the events in the logs of their nodes.
pub(crate) fn run_merged<K: Gate, R: Threads + Wait + Sync>(
    rt: &R,
    alloc: Global,
    script: &Script,
    turns: Option<u64>,
    last_tick: u64,
    gate: &K,
) -> Result<MergedRan, RunFault>
    requires some { 1 ≤ last_tick }
    requires few { last_tick ≤ 2 ^ 40 }
    ensures named { IfOk result (λ ran. All (Names (names_of script.now)) ran.events.events) }
    ensures ran { IfOk result (λ ran. RunOf script.now turns last_tick (record { events = ran.events.events; answers = ran.answers })) }
    ensures limit { IfErr result (IsFaultOf script.now turns last_tick) }
{
    match turns {
        Some(number) => merged_in_turns(alloc, script, number, last_tick),
        None => merged_in_threads(rt, alloc, script, last_tick, gate),
    }
}

/// Runs a script on nodes, on one thread, in the turns that a number picks. It waits for nothing, and returns. TickLimit is answered
/// where an event gave that node the tick `last_tick`, 1 to 2 ^ 40.
pub fn run_script_in_turns(
    alloc: Global,
    script: &Script,
    turns: u64,
    last_tick: u64,
) -> Result<Ran, RunFault>
    requires some { 1 ≤ last_tick }
    requires few { last_tick ≤ 2 ^ 40 }
    ensures named { IfOk result (λ ran. All (Names (names_of script.now)) ran.events) }
    ensures ran { IfOk result (RunOf script.now (Some turns) last_tick) }
    ensures limit { IfErr result (IsFaultOf script.now (Some turns) last_tick) }
{
    let ran = merged_in_turns(alloc, script, turns, last_tick)?;
    Ok(Ran {
        events: ran.events.to_list(alloc)?,
        answers: ran.answers,
    })
}

/// Runs a script on nodes: in the turns that a number picks, as `run_script_in_turns` does; where none is given each node has a thread of
/// its own, and the gate delays commands. What then comes is some run of the script's nodes, by its faults, that has ended.
pub fn run_script<K: Gate, R: Threads + Wait + Sync>(
    rt: &R,
    alloc: Global,
    script: &Script,
    turns: Option<u64>,
    last_tick: u64,
    gate: &K,
) -> Result<Ran, RunFault>
    requires some { 1 ≤ last_tick }
    requires few { last_tick ≤ 2 ^ 40 }
    ensures named { IfOk result (λ ran. All (Names (names_of script.now)) ran.events) }
    ensures ran { IfOk result (RunOf script.now turns last_tick) }
    ensures limit { IfErr result (IsFaultOf script.now turns last_tick) }
{
    let ran = run_merged(rt, alloc, script, turns, last_tick, gate)?;
    Ok(Ran {
        events: ran.events.to_list(alloc)?,
        answers: ran.answers,
    })
}
