//! The commands that verbs and their arguments say, among the nodes of a script.
ghost use Rattle.std.specs.Prelude.{◌≡◌, ◌≤◌, ◌<◌, length, IfOk, IfSome};
ghost use Rattle.uid_names.specs.declared.limits.TheConstants.{MAX_NODES};
ghost use Rattle.script_reader.specs.NodeNames.{place_of};
ghost use Rattle.script_reader.specs.SaidCommands.{bytes_of, command_said, command_with as command_with_those, home_of as home_of_argument, mode_of, node_of as node_of_argument, number_of, pages_of};
ghost use Rattle.script_reader.specs.declared.command.Command.TheVariants.{New as NewCommand, Lock as LockCommand, Load as LoadCommand, Store as StoreCommand, Loadat as LoadatCommand, Storeat as StoreatCommand, Bind as BindCommand, Crf as CrfCommand, Crl as CrlCommand, Apf as ApfCommand, Cpf as CpfCommand, Putm as PutmCommand};
ghost use Rattle.script_reader.specs.Walk.Found.{IsNodeOf};
ghost use Rattle.script_reader.specs.Walk.Seen.{seen_argument, seen_arguments};

use crate::arguments::{Argument, argument_at};
use crate::command::Command;
use crate::script::NodeRow;
use crate::words::Verb;
use std::alloc::Global;
use uid_names::{ByteList, NoMemory, NodeId};

/// The place of a node's name among the nodes, counted from 0.
fn place(nodes: &[NodeRow], name: &[u8]) -> Option<usize>
    ensures value { result ≡ place_of nodes.now name.now }
    ensures within { IfSome result (λ at. at < length nodes.now) }
{
    nodes.iter().position(|row| row.name.bytes() == name)
}

/// The node of this name.
pub(crate) fn node_named(nodes: &[NodeRow], name: &[u8]) -> Option<NodeId>
    requires { length nodes.now ≤ MAX_NODES }
    ensures { IsNodeOf nodes.now name.now result }
{
    let at = place(nodes, name)?;
    NodeId::new(at as u8 + 1)
}

/// The command of these arguments.
pub(crate) fn command_of(
    alloc: Global,
    nodes: &[NodeRow],
    verb: Verb,
    arguments: &[Argument<'_>],
) -> Result<Command, NoMemory>
    requires { length nodes.now ≤ MAX_NODES }
    ensures { IfOk result (λ command. command ≡ command_said nodes.now verb (seen_arguments arguments.now)) }
{
    command_with(
        alloc,
        nodes,
        verb,
        argument_at(arguments, 0),
        argument_at(arguments, 1),
        argument_at(arguments, 2),
    )
}

/// The command of a verb and of its first, second and third argument.
fn command_with(
    alloc: Global,
    nodes: &[NodeRow],
    verb: Verb,
    first: Argument<'_>,
    second: Argument<'_>,
    third: Argument<'_>,
) -> Result<Command, NoMemory>
    requires { length nodes.now ≤ MAX_NODES }
    ensures { IfOk result (λ command. command ≡ command_with_those nodes.now verb (seen_argument first.entry) (seen_argument second.entry) (seen_argument third.entry)) }
{
    // Where the first has no bytes, the copy of none takes no memory.
    let var = first.copy(alloc)?;
    Ok(match verb {
        Verb::New => new_of(nodes, var, second, third),
        Verb::Lock => lock_of(var, second),
        Verb::Unlock => Command::Unlock { var },
        Verb::Delete => Command::Delete { var },
        Verb::Load => load_of(var, second, third),
        Verb::Store => store_of(alloc, var, second, third)?,
        Verb::Length => Command::Length { var },
        Verb::Map => Command::Map { var },
        Verb::Unmap => Command::Unmap { var },
        Verb::Loadat => loadat_of(first, second),
        Verb::Storeat => storeat_of(alloc, first, second)?,
        Verb::Bind => bind_of(alloc, var, second)?,
        Verb::Crf => crf_of(var, second),
        Verb::Crd => Command::Crd { path: var },
        Verb::Crl => crl_of(alloc, var, second)?,
        Verb::Dlf => Command::Dlf { path: var },
        Verb::Catf => Command::Catf { path: var },
        Verb::Lnf => Command::Lnf { path: var },
        Verb::Apf => apf_of(alloc, var, second)?,
        Verb::Cpf => cpf_of(alloc, var, second)?,
        Verb::Crm => Command::Crm { path: var },
        Verb::Putm => putm_of(alloc, var, second)?,
        Verb::Takem => Command::Takem { path: var },
        Verb::Ld => Command::Ld { path: var },
        Verb::Wd => Command::Wd {
            path: first.path(alloc)?,
        },
        Verb::Llkob => Command::Llkob {
            node: node_of(nodes, first),
        },
    })
}

/// A `new` of a variable.
fn new_of(nodes: &[NodeRow], var: ByteList, room: Argument<'_>, home: Argument<'_>) -> Command
    requires { length nodes.now ≤ MAX_NODES }
    ensures { result ≡ NewCommand var (number_of (seen_argument room.entry)) (home_of_argument nodes.now (seen_argument home.entry)) }
{
    Command::New {
        var,
        room: room.number(),
        home: home_of(nodes, home),
    }
}

/// The node of an argument, where it is a home that is named.
fn home_of(nodes: &[NodeRow], argument: Argument<'_>) -> Option<NodeId>
    requires { length nodes.now ≤ MAX_NODES }
    ensures { result ≡ home_of_argument nodes.now (seen_argument argument.entry) }
{
    match argument {
        Argument::Home(Some(name)) => node_named(nodes, name),
        _ => None,
    }
}

/// The node of an argument that is one, where it was declared; else the first.
fn node_of(nodes: &[NodeRow], argument: Argument<'_>) -> NodeId
    requires { length nodes.now ≤ MAX_NODES }
    ensures { result ≡ node_of_argument nodes.now (seen_argument argument.entry) }
{
    let found = match argument {
        Argument::HomeNode(name) => node_named(nodes, name),
        _ => None,
    };
    match found {
        Some(node) => node,
        None => first_node(),
    }
}

/// Node 1.
fn first_node() -> NodeId
    ensures { result ≡ 1 }
{
    match NodeId::new(1) {
        Some(node) => node,
        None => unreachable!(),
    }
}

/// A lock of a variable's object.
fn lock_of(var: ByteList, mode: Argument<'_>) -> Command
    ensures { result ≡ LockCommand var (mode_of (seen_argument mode.entry)) }
{
    Command::Lock {
        var,
        mode: mode.mode(),
    }
}

/// A load from a variable's object.
fn load_of(var: ByteList, offset: Argument<'_>, count: Argument<'_>) -> Command
    ensures { result ≡ LoadCommand var (number_of (seen_argument offset.entry)) (number_of (seen_argument count.entry)) }
{
    Command::Load {
        var,
        offset: offset.number(),
        count: count.number(),
    }
}

/// A store to a variable's object.
fn store_of(
    alloc: Global,
    var: ByteList,
    offset: Argument<'_>,
    text: Argument<'_>,
) -> Result<Command, NoMemory>
    ensures { IfOk result (λ command. command ≡ StoreCommand var (number_of (seen_argument offset.entry)) (bytes_of (seen_argument text.entry))) }
{
    Ok(Command::Store {
        var,
        offset: offset.number(),
        text: text.copy(alloc)?,
    })
}

/// A load by address.
fn loadat_of(address: Argument<'_>, count: Argument<'_>) -> Command
    ensures { result ≡ LoadatCommand (number_of (seen_argument address.entry)) (number_of (seen_argument count.entry)) }
{
    Command::Loadat {
        address: address.number(),
        count: count.number(),
    }
}

/// A store by address.
fn storeat_of(alloc: Global, address: Argument<'_>, text: Argument<'_>) -> Result<Command, NoMemory>
    ensures { IfOk result (λ command. command ≡ StoreatCommand (number_of (seen_argument address.entry)) (bytes_of (seen_argument text.entry))) }
{
    Ok(Command::Storeat {
        address: address.number(),
        text: text.copy(alloc)?,
    })
}

/// A `bind` of a variable to what a path leads to.
fn bind_of(alloc: Global, var: ByteList, path: Argument<'_>) -> Result<Command, NoMemory>
    ensures { IfOk result (λ command. command ≡ BindCommand var (bytes_of (seen_argument path.entry))) }
{
    Ok(Command::Bind {
        var,
        path: path.copy(alloc)?,
    })
}

/// A file by a path.
fn crf_of(path: ByteList, room: Argument<'_>) -> Command
    ensures { result ≡ CrfCommand path (pages_of (seen_argument room.entry)) }
{
    Command::Crf {
        path,
        room: room.pages(),
    }
}

/// A link by a path.
fn crl_of(alloc: Global, path: ByteList, target: Argument<'_>) -> Result<Command, NoMemory>
    ensures { IfOk result (λ command. command ≡ CrlCommand path (bytes_of (seen_argument target.entry))) }
{
    Ok(Command::Crl {
        path,
        target: target.copy(alloc)?,
    })
}

/// A text behind the end of the file of a path.
fn apf_of(alloc: Global, path: ByteList, text: Argument<'_>) -> Result<Command, NoMemory>
    ensures { IfOk result (λ command. command ≡ ApfCommand path (bytes_of (seen_argument text.entry))) }
{
    let text = text.copy(alloc)?;
    Ok(Command::Apf { path, text })
}

/// A text into the mailbox of a path.
fn putm_of(alloc: Global, path: ByteList, text: Argument<'_>) -> Result<Command, NoMemory>
    ensures { IfOk result (λ command. command ≡ PutmCommand path (bytes_of (seen_argument text.entry))) }
{
    let text = text.copy(alloc)?;
    Ok(Command::Putm { path, text })
}

/// A copy by a path.
fn cpf_of(alloc: Global, path: ByteList, target: Argument<'_>) -> Result<Command, NoMemory>
    ensures { IfOk result (λ command. command ≡ CpfCommand path (bytes_of (seen_argument target.entry))) }
{
    let target = target.copy(alloc)?;
    Ok(Command::Cpf { path, target })
}
