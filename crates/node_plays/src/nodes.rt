//! The nodes of a script at the start.
ghost use Rattle.std.specs.Prelude.{◌≡◌, ◌+◌, ◌≤◌, IfOk, OnOk};
ghost use Rattle.dom_history.specs.Ranges.{IsProcNumber};
ghost use Rattle.script_reader.specs.Scripts.{IsContent};
ghost use Rattle.node_plays.specs.Beginners.{AreBeginners};

use crate::fault::PlayFault;
use aegis_shell::Shell;
use node_core::{Node, NodeSetup};
use page_store::ListPages;
use script_reader::Script;
use std::alloc::Global;
use uid_names::{NoMemory, NodeId, ProcId};

/// A node whose processes are shells.
pub(crate) type ShellNode<'a> = Node<Shell<'a>, ListPages>;

/// Adds the program of a process, if it has commands.
fn add<'a>(
    alloc: Global,
    script: &'a Script,
    proc: ProcId,
    programs: &mut Vec<(u8, Shell<'a>)>,
) -> Result<(), NoMemory>
    requires number { IsProcNumber proc.number }
    requires before { AreBeginners proc.number programs.old.items }
    ensures { OnOk result (AreBeginners (proc.number + 1) programs.new.items) }
{
    if !script.places_of(proc).is_empty() {
        programs.push((proc.number(), Shell::new(alloc, script, proc)?))?;
    }
    Ok(())
}

/// The programs of a node.
fn programs(alloc: Global, script: &Script, node: NodeId) -> Result<Vec<(u8, Shell<'_>)>, PlayFault>
    ensures { IfOk result (λ programs. AreBeginners 5 programs.items) }
{
    let mut programs = Vec::new(alloc);
    for number in 1..5 {
        let Some(proc) = ProcId::new(node, number) else {
            return Err(PlayFault::NoProcess);
        };
        add(alloc, script, proc, &mut programs)?;
    }
    Ok(programs)
}

/// A node at the start.
fn node(alloc: Global, script: &Script, number: u8, frames: u16) -> Result<ShellNode<'_>, PlayFault>
    requires content { IsContent script.now }
    requires number { number ≤ script.now.opening.nodes }
    requires few { 5 ≤ frames }
    requires many { frames ≤ 256 }
{
    let Some(node) = NodeId::new(number) else {
        return Err(PlayFault::NoNode);
    };
    let opening = script.opening();
    let setup = NodeSetup {
        node,
        nodes: opening.nodes(),
        wire: script.wire(),
        frames,
        phases: script.phases(),
    };
    let programs = programs(alloc, script, node)?;
    Ok(Node::new(alloc, setup, opening, ListPages::new(alloc), programs)?)
}

/// All nodes of a script, by number.
pub(crate) fn nodes(alloc: Global, script: &Script) -> Result<Vec<ShellNode<'_>>, PlayFault> {
    let mut nodes = Vec::new(alloc);
    for (i, row) in script.nodes().iter().enumerate() {
        nodes.push(node(alloc, script, i as u8 + 1, row.frames)?)?;
    }
    Ok(nodes)
}
