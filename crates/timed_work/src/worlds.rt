//! Worlds of nodes whose processes go round lists of operations: there is no script of commands, and no shell. What is counted
//! are events, and what is timed are the run with the merge of its logs, and the journal as it is written.
ghost use Rattle.std.specs.Prelude.{◌≡◌, ◌≤◌, ◌^◌, ℕ, Option, List, IfOk, length, map};
ghost use Rattle.dom_history.specs.NodeTexts.{AreNodeNames};
ghost use Rattle.dom_history.specs.declared.plan.FateRow.{FateRow};
ghost use Rattle.uid_names.specs.Openings.{IsStart};
ghost use Rattle.node_runs.specs.Setups.{Setup};
ghost use Rattle.node_runs.specs.Runs.{first_world};
ghost use Rattle.script_reader.specs.Scripts.{IsContent};
ghost use Rattle.world_core.specs.Stands.{Stands};
ghost use Rattle.node_threads.specs.Starts.{ArePosts, AreRings};
ghost use Rattle.timed_work.specs.Rounds.{Round, round_wants, round_after};
ghost use Rattle.timed_work.specs.Teams.{IsTeam, IsMade, AreMade};

use crate::micros;
use crate::rounds::Rounds;
use crate::sink::{Counter, Unit};
use crate::teams::team;
use crate::work::{Order, PHASES, Work, put_head};
use anyhow::Result;
use dom_history::{FaultPlan, MergedLogs, NodeNames};
use journal_text::{JournalLines, are_merged_named};
use local_runs::merge;
use local_runs::merged::logs_of_local_runs_may_be_merged;
use node_core::{Node, NodeSetup};
use node_threads::{OpenGate, Post, make_posts, run_all};
use page_store::BlockPages;
use script_reader::{NodeRow, Script, read_script};
use std::alloc::Global;
use std::sync::Wait;
use std::thread::Threads;
use uid_names::{ByteList, NoMemory, NodeId};
use world_core::World;

/// No event gives a node this tick.
const LAST_TICK: u64 = 1 << 40;

/// What a script declares for the work: the nodes, the objects and the phases.
fn put_declared(
    alloc: Global,
    script: &mut ByteList,
    work: Work,
    units: u32,
) -> Result<(), NoMemory> {
    put_head(alloc, script, work)?;
    if let Work::Mixed = work {
        for _ in 1..units.saturating_mul(PHASES) {
            script.extend(b"phase\n")?;
        }
    }
    Ok(())
}

/// The same as it is read.
fn declared(alloc: Global, work: Work, units: u32) -> Result<Script> {
    let mut script = ByteList::new(alloc);
    put_declared(alloc, &mut script, work, units)?;
    Ok(read_script(alloc, script.bytes())?)
}

/// A node, with the programs of its processes.
fn node_of(
    alloc: Global,
    script: &Script,
    work: Work,
    units: u32,
    node: NodeId,
) -> Result<Node<Rounds, BlockPages>, NoMemory>
    requires node { node ≤ length script.now.nodes }
    requires few { units ≤ 100 }
    ensures { IfOk result (λ x. (team : List (ℕ × Round)) × IsTeam team × IsMade script.now node team x) }
{
    let setup = NodeSetup {
        node,
        nodes: script.opening().nodes(),
        wire: script.wire(),
        frames: script.nodes()[node.number() as usize - 1].frames,
        phases: script.phases(),
    };
    let programs = team(alloc, work, node, units)?;
    Node::new(
        alloc,
        setup,
        script.opening(),
        BlockPages::new(alloc),
        programs,
    )
}

/// All nodes, by number.
fn nodes_of(
    alloc: Global,
    script: &Script,
    work: Work,
    units: u32,
) -> Result<Vec<Node<Rounds, BlockPages>>, NoMemory>
    requires few { units ≤ 100 }
    ensures made { IfOk result (λ nodes. (teams : List (List (ℕ × Round))) × AreMade script.now teams nodes.items) }
    ensures count { IfOk result (λ nodes. length nodes.items ≡ script.now.opening.nodes) }
    ensures content { IfOk result (λ _. IsContent script.now × IsStart script.now.opening) }
{
    let count = script.opening().nodes();
    let mut nodes = Vec::with_capacity(alloc, count as usize)?;
    for i in 0..count {
        match NodeId::new(i + 1) {
            Some(node) => nodes.push(node_of(alloc, script, work, units, node)?)?,
            None => unreachable!(),
        }
    }
    Ok(nodes)
}

/// The world at the start.
fn world_of(
    alloc: Global,
    script: &Script,
    work: Work,
    units: u32,
) -> Result<World<Rounds, BlockPages>, NoMemory>
    requires few { units ≤ 100 }
    ensures { IfOk result (λ world. (made : ℕ → ℕ → Option Round) × (s : Setup) × Stands round_wants round_after made s world (first_world s)) }
{
    let nodes = nodes_of(alloc, script, work, units)?;
    World::new(alloc, nodes, FaultPlan::new(alloc))
}

/// The posts of the nodes at the start.
fn posts_of(
    alloc: Global,
    script: &Script,
    work: Work,
    units: u32,
) -> Result<Vec<Post<Rounds, BlockPages>>, NoMemory>
    requires few { units ≤ 100 }
    ensures posts { IfOk result (λ posts. (made : ℕ → ℕ → Option Round) × (s : Setup) × (plan : List FateRow) × ArePosts round_wants round_after (2 ^ 40) made s plan posts.items) }
    ensures rings { IfOk result (λ posts. AreRings posts.items) }
{
    let nodes = nodes_of(alloc, script, work, units)?;
    let plan = FaultPlan::new(alloc);
    make_posts(alloc, nodes, &plan)
}

/// The names of nodes.
fn names_of(alloc: Global, rows: &[NodeRow]) -> Result<NodeNames, NoMemory>
    requires { AreNodeNames (map (λ n. n.name) rows.now) }
{
    let mut names = Vec::new(alloc);
    for row in rows {
        names.push(row.name.copy(alloc)?)?;
    }
    NodeNames::from_list(alloc, names.as_slice())
}

/// How long it takes to write the journal into a sink that counts its bytes.
fn write(rt: &HostRuntime, script: &Script, events: &MergedLogs) -> Result<u64> {
    let names = names_of(rt.alloc(), script.nodes())?;
    if !are_merged_named(rt.alloc(), events, &names)? {
        anyhow::bail!("no such node");
    }
    let mut sink = Counter::new(Unit::Bytes);
    let start = micros(rt)?;
    JournalLines::new(rt.alloc(), events, &names)?.write(&mut sink)?;
    let end = micros(rt)?;
    anyhow::ensure!(sink.count() > 0, "no journal");
    Ok(end.saturating_sub(start))
}

/// The events of a world of so many units of some ten thousand events, in the turns of a number; and how long the run takes.
fn run_in_turns(
    rt: &HostRuntime,
    script: &Script,
    work: Work,
    units: u32,
    turns: u32,
) -> Result<(MergedLogs, u64)>
    requires few { units ≤ 100 }
{
    let world = world_of(rt.alloc(), script, work, units)?;
    let start = micros(rt)?;
    let (events, _programs) = world.run_merged(rt.alloc(), u64::from(turns), LAST_TICK)?;
    Ok((events, micros(rt)?.saturating_sub(start)))
}

/// The same with a thread for each node.
fn run_in_threads<R: Threads + Wait + Sync>(
    rt: &HostRuntime,
    threads: &R,
    script: &Script,
    work: Work,
    units: u32,
) -> Result<(MergedLogs, u64)>
    requires few { units ≤ 100 }
{
    let posts = posts_of(rt.alloc(), script, work, units)?;
    let start = micros(rt)?;
    let (logs, _programs) = run_all(threads, rt.alloc(), posts, &OpenGate, LAST_TICK)?;
    // So the logs may be merged.
    logs_of_local_runs_may_be_merged();
    let events = merge(rt.alloc(), logs)?;
    Ok((events, micros(rt)?.saturating_sub(start)))
}

/// Runs a world of so many units: how many events there are, and how long the run and the journal take.
fn run_once<R: Threads + Wait + Sync>(
    rt: &HostRuntime,
    threads: &R,
    work: Work,
    order: Order,
    units: u32,
    turns: u32,
) -> Result<(u64, u64)>
    requires few { units ≤ 100 }
{
    let script = declared(rt.alloc(), work, units)?;
    let (events, micros) = match order {
        Order::Turns => run_in_turns(rt, &script, work, units, turns)?,
        Order::Threads => run_in_threads(rt, threads, &script, work, units)?,
    };
    let written = write(rt, &script, &events)?;
    Ok((events.len() as u64, micros.saturating_add(written)))
}

/// So many units, as many as there may be of them in one run.
pub fn run<R: Threads + Wait + Sync>(
    rt: &HostRuntime,
    threads: &R,
    work: Work,
    order: Order,
    count: u32,
) -> Result<(u64, u64)> {
    let most = match work {
        Work::Mixed => 50,
        _ => 100,
    };
    let (mut events, mut micros) = (0_u64, 0_u64);
    for turns in 0..count.div_ceil(most) {
        let units = count.saturating_sub(turns.saturating_mul(most)).min(most);
        let (more, longer) = run_once(rt, threads, work, order, units, turns)?;
        events = events.saturating_add(more);
        micros = micros.saturating_add(longer);
    }
    Ok((events, micros))
}
