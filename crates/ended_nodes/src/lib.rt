//! Nodes taken apart at the end of a run: their journals, and their programs under the names of their processes.
#![tactic(auto)]

ghost use Rattle.std.specs.Prelude.{◌≡◌, ◌++◌, ◌∷◌, [], OnOk, IfOk, All, map};
ghost use Rattle.uid_names.specs.Names.{ProcName, IsProcNumber};
ghost use Rattle.ended_nodes.specs.Ended.{named, with_name, own_of, or_else, program_at, AreNumbered};

use dom_history::{NodeLog, Program};
use node_core::Node;
use page_store::Pages;
use std::alloc::Global;
use uid_names::{NoMemory, NodeId, ProcId};

/// Puts a program last, under the name of its process.
fn put_program<P: Program>(
    programs: &mut Vec<(ProcId, P)>,
    node: NodeId,
    own: (u8, P),
) -> Result<(), NoMemory>
    requires { IsProcNumber own.0 }
    ensures { OnOk result (programs.new.items ≡ programs.old.items ++ with_name node own ∷ []) }
{
    let (number, program) = own;
    match ProcId::new(node, number) {
        Some(proc) => programs.push((proc, program))?,
        None => unreachable!(),
    }
    Ok(())
}

/// Puts the programs of a node last.
fn put_programs<P: Program>(
    programs: &mut Vec<(ProcId, P)>,
    node: NodeId,
    own: Vec<(u8, P)>,
) -> Result<(), NoMemory>
    requires { All (λ e. IsProcNumber e.0) own.items }
    ensures { OnOk result (programs.new.items ≡ programs.old.items ++ map (with_name node) own.items) }
{
    for program in own {
        put_program(programs, node, program)?;
    }
    Ok(())
}

/// Takes the journal and the programs of a node apart.
fn take_one<P: Program, G: Pages>(
    node: Node<P, G>,
    logs: &mut Vec<NodeLog>,
    programs: &mut Vec<(ProcId, P)>,
) -> Result<(), NoMemory>
    requires { AreNumbered node }
    ensures log { OnOk result (logs.new.items ≡ logs.old.items ++ node.log ∷ []) }
    ensures programs { OnOk result ((p : ProcName) → named programs.new.items p ≡ or_else (named programs.old.items p) (own_of node p)) }
{
    let (log, own) = node.into_parts();
    put_programs(programs, log.node, own)?;
    logs.push(log)?;
    Ok(())
}

/// The journals of these nodes, in their order, and their programs, each of which is that of a process.
pub fn take_apart<P: Program, G: Pages>(
    alloc: Global,
    nodes: Vec<Node<P, G>>,
) -> Result<(Vec<NodeLog>, Vec<(ProcId, P)>), NoMemory>
    requires numbers { All AreNumbered nodes.items }
    ensures logs { IfOk result (λ r. r.0.items ≡ map (λ x. x.log) nodes.items) }
    ensures programs { IfOk result (λ r. (p : ProcName) → named r.1.items p ≡ program_at nodes.items p) }
{
    let mut logs = Vec::new(alloc);
    let mut programs = Vec::new(alloc);
    for node in nodes {
        take_one(node, &mut logs, &mut programs)?;
    }
    Ok((logs, programs))
}
