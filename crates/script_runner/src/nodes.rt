//! The nodes of a script at the start.
ghost use Rattle.std.specs.Prelude.{◌≡◌, ◌≤◌, IfOk, length};
ghost use Rattle.aegis_shell.specs.Shells.{shell_wants, shell_after};
ghost use Rattle.world_core.specs.Stands.{AreNodes};
ghost use Rattle.script_runs.specs.Processes.{processes_of};
ghost use Rattle.script_runs.specs.Setups.{setup_of};
ghost use Rattle.script_runner.specs.Nodes.{shells_among, made_shell, IsFirstNode};

use crate::processes::processes_in;
use aegis_shell::Shell;
use aegis_shell::laws::shells_go_by_all_they_heard;
use node_core::{Node, NodeSetup};
use page_store::BlockPages;
use script_reader::Script;
use script_runs::laws::scripts_set_nodes_up;
use std::alloc::Global;
use uid_names::{NoMemory, NodeId, ProcId};

/// The shells of a node's processes among these, each with its number there.
fn shells<'a>(
    alloc: Global,
    script: &'a Script,
    procs: &[ProcId],
    node: NodeId,
) -> Result<Vec<(u8, Shell<'a>)>, NoMemory>
    ensures { IfOk result (λ shells. shells.items ≡ shells_among script.now node procs.now) }
{
    let mut shells = Vec::new(alloc);
    for proc in procs {
        if proc.node().number() == node.number() {
            shells.push((proc.number(), Shell::new(alloc, script, *proc)?))?;
        }
    }
    Ok(shells)
}

/// A node of a script.
fn node_of<'a>(
    alloc: Global,
    script: &'a Script,
    procs: &[ProcId],
    node: NodeId,
) -> Result<Node<Shell<'a>, BlockPages>, NoMemory>
    requires procs { procs.now ≡ processes_of script.now.commands }
    requires node { node ≤ length script.now.nodes }
    ensures { IfOk result (IsFirstNode script.now node) }
{
    let setup = NodeSetup {
        node,
        nodes: script.opening().nodes(),
        wire: script.wire(),
        frames: script.nodes()[node.number() as usize - 1].frames,
        phases: script.phases(),
    };
    let shells = shells(alloc, script, procs, node)?;
    // So the node can begin, and its shells ask what the script's processes ask.
    scripts_set_nodes_up();
    shells_go_by_all_they_heard();
    Node::new(
        alloc,
        setup,
        script.opening(),
        BlockPages::new(alloc),
        shells,
    )
}

/// All nodes of a script, by number.
pub fn nodes_of(
    alloc: Global,
    script: &Script,
) -> Result<Vec<Node<Shell<'_>, BlockPages>>, NoMemory>
    ensures { IfOk result (λ nodes. AreNodes shell_wants shell_after (made_shell script.now) (setup_of script.now) nodes.items) }
{
    // So they are nodes of one set-up.
    scripts_set_nodes_up();
    let procs = processes_in(alloc, script.commands())?;
    let count = script.opening().nodes();
    let mut nodes = Vec::with_capacity(alloc, count as usize)?;
    for i in 0..count {
        match NodeId::new(i + 1) {
            Some(node) => nodes.push(node_of(alloc, script, procs.as_slice(), node)?)?,
            None => unreachable!(),
        }
    }
    Ok(nodes)
}
