//! The commands of a script as they are shown.
use aegis_shell::Shell;
use dom_history::NodeNames;
use event_views::{CommandName, CommandView, words_of};
use node_core::Node;
use node_texts::put_process;
use page_store::BlockPages;
use script_reader::Script;
use std::alloc::Global;
use uid_names::{ByteList, ItemList, NODE_PROCESSES, NoMemory, NodeId, PROCESSES, ProcId};

/// The processes that have a command, in order of node and number.
pub(crate) fn processes_of(alloc: Global, script: &Script) -> Result<Vec<ProcId>, NoMemory> {
    let mut procs = Vec::new(alloc);
    for place in 0..PROCESSES {
        let number = (place % NODE_PROCESSES) as u8 + 1;
        let Some(node) = NodeId::new((place / NODE_PROCESSES) as u8 + 1) else {
            continue;
        };
        let Some(proc) = ProcId::new(node, number) else {
            continue;
        };
        if !script.places_of(proc).is_empty() {
            procs.push(proc)?;
        }
    }
    Ok(procs)
}

/// The shell of a process among nodes, by number.
pub(crate) fn shell_at<'a, 'b>(
    nodes: &'a [Node<Shell<'b>, BlockPages>],
    proc: ProcId,
) -> Option<&'a Shell<'b>> {
    let at = proc.node().number() as usize - 1;
    match nodes.get(at) {
        Some(node) => node.program(proc.number()),
        None => None,
    }
}

/// A copy of the list of this place, if there is one.
fn copy_at(alloc: Global, lists: &[ByteList], at: usize) -> Result<Option<ByteList>, NoMemory> {
    match lists.get(at) {
        Some(list) => Ok(Some(list.copy(alloc)?)),
        None => Ok(None),
    }
}

/// How a process is written.
fn process_text(alloc: Global, names: &NodeNames, proc: ProcId) -> Result<ByteList, NoMemory> {
    let mut text = ByteList::new(alloc);
    put_process(&mut text, names, proc)?;
    Ok(text)
}

/// The command of a process that has this place among its own.
fn command_at(
    alloc: Global,
    proc: ProcId,
    at: usize,
    index: u32,
    phase: u32,
    words: &[ByteList],
    answers: &[ByteList],
) -> Result<CommandView, NoMemory> {
    let words = match copy_at(alloc, words, at)? {
        Some(words) => words,
        None => ByteList::new(alloc),
    };
    let answer = copy_at(alloc, answers, at)?;
    Ok(CommandView {
        name: CommandName { proc, index },
        phase,
        words,
        answer,
    })
}

/// Puts the commands of a process last.
fn add_commands(
    alloc: Global,
    to: &mut ItemList<CommandView>,
    script: &Script,
    source: &[u8],
    names: &NodeNames,
    proc: ProcId,
    answers: &[ByteList],
) -> Result<(), NoMemory> {
    let process = process_text(alloc, names, proc)?;
    let words = words_of(alloc, source, process.bytes())?;
    let rows = script.commands();
    let mut index: u32 = 0;
    for (at, place) in script.places_of(proc).iter().enumerate() {
        index = index.saturating_add(1);
        if let Some(row) = rows.get(*place as usize) {
            to.push(command_at(alloc, proc, at, index, row.phase, words.items(), answers)?)?;
        }
    }
    Ok(())
}

/// The commands of these processes, each with its words in the source and what its process was answered at these nodes.
pub(crate) fn commands_of(
    alloc: Global,
    script: &Script,
    source: &[u8],
    names: &NodeNames,
    procs: &[ProcId],
    nodes: &[Node<Shell<'_>, BlockPages>],
) -> Result<ItemList<CommandView>, NoMemory> {
    let mut commands = ItemList::new(alloc);
    for proc in procs {
        let answers = match shell_at(nodes, *proc) {
            Some(shell) => shell.answers(),
            None => &[],
        };
        add_commands(alloc, &mut commands, script, source, names, *proc, answers)?;
    }
    Ok(commands)
}
