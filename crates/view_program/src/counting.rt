//! Tells what a run counts.
ghost use Rattle.std.specs.Prelude.{◌≡◌, IfOk};

use crate::reading::{Said, read_run};
use dom_io::Source;
use dom_text::{cut, put_decimal};
use event_counts::{
    Became, Cause, Errand, commands_of_kind, frames_noticed, frames_sent, locks_refused, page_hits,
    pages_asked, pages_dropped, pages_dropped_for, pages_sent_home, pages_sent_home_for,
    spans_of_kind,
};
use event_views::RunView;
use std::alloc::Global;
use uid_names::{ByteList, FrameKind, ItemList, NoMemory, NodeId};

/// Puts a name and a number.
fn put_number(to: &mut ByteList, name: &[u8], number: usize) -> Result<(), NoMemory> {
    to.extend(name)?;
    put_decimal(to, number as u64)?;
    Ok(())
}

/// Puts the name of a node.
fn put_node(to: &mut ByteList, run: &RunView, node: NodeId) -> Result<(), NoMemory> {
    match run.names().name(node) {
        Some(name) => to.extend(name),
        None => Ok(()),
    }
}

/// Puts a line for the frames of a kind that went from a node to another, if any did.
fn put_frames(
    to: &mut ByteList,
    run: &RunView,
    from: NodeId,
    home: NodeId,
    kind: FrameKind,
) -> Result<(), NoMemory> {
    let sent = frames_sent(run, from, home, kind, Became::Any);
    if sent == 0 {
        return Ok(());
    }
    put_node(to, run, from)?;
    to.extend(b" to ")?;
    put_node(to, run, home)?;
    to.extend(b" ")?;
    to.extend(kind.name().as_bytes())?;
    put_number(to, b": sent ", sent)?;
    put_number(
        to,
        b", lost ",
        frames_sent(run, from, home, kind, Became::Lost),
    )?;
    put_number(
        to,
        b", late ",
        frames_sent(run, from, home, kind, Became::Late),
    )?;
    put_number(
        to,
        b", twice ",
        frames_sent(run, from, home, kind, Became::Twice),
    )?;
    put_number(to, b", noticed ", frames_noticed(run, from, home, kind))?;
    to.extend(b"\n")
}

/// Puts the lines of all kinds of frames that went from a node to another.
fn put_link(to: &mut ByteList, run: &RunView, from: NodeId, home: NodeId) -> Result<(), NoMemory> {
    for number in 1..=u8::MAX {
        let Some(kind) = FrameKind::from_number(number) else {
            continue;
        };
        put_frames(to, run, from, home, kind)?;
    }
    Ok(())
}

/// The nodes of a run, by number.
fn nodes_of(alloc: Global, run: &RunView) -> Result<Vec<NodeId>, NoMemory> {
    let mut nodes = Vec::new(alloc);
    for number in 1..=8 {
        match NodeId::new(number) {
            Some(node) if usize::from(number) <= run.names().len() => nodes.push(node)?,
            _ => {}
        }
    }
    Ok(nodes)
}

/// Puts how many pages a node dropped, and how many of these for each cause.
fn put_dropped(to: &mut ByteList, run: &RunView, node: NodeId) -> Result<(), NoMemory> {
    let all = pages_dropped(run, node).unwrap_or(usize::MAX);
    let for_room = pages_dropped_for(run, node, Cause::Room).unwrap_or(usize::MAX);
    let written = pages_dropped_for(run, node, Cause::Written).unwrap_or(usize::MAX);
    let gone = pages_dropped_for(run, node, Cause::Gone).unwrap_or(usize::MAX);
    put_number(to, b"; dropped ", all)?;
    put_number(to, b": for room ", for_room)?;
    put_number(to, b", written elsewhere ", written)?;
    put_number(to, b", of removed objects ", gone)
}

/// Puts how many pages a node sent home, and how many of these on each errand.
fn put_sent_home(to: &mut ByteList, run: &RunView, node: NodeId) -> Result<(), NoMemory> {
    let for_room = pages_sent_home_for(run, node, Errand::Room);
    let released = pages_sent_home_for(run, node, Errand::Release);
    let others = pages_sent_home_for(run, node, Errand::Other);
    put_number(to, b"; sent home ", pages_sent_home(run, node))?;
    put_number(to, b": for room ", for_room)?;
    put_number(to, b", before a lock was given up ", released)?;
    put_number(to, b", by other commands ", others)
}

/// Puts how often a node had the page that it wanted, and what it asked for, dropped and gave back.
fn put_pages(to: &mut ByteList, run: &RunView, node: NodeId) -> Result<(), NoMemory> {
    put_node(to, run, node)?;
    put_number(to, b": page hits ", page_hits(run, node))?;
    put_number(to, b", pages asked for ", pages_asked(run, node))?;
    put_dropped(to, run, node)?;
    put_sent_home(to, run, node)?;
    to.extend(b"\n")
}

/// The first word of a command, which is its kind.
fn first_word(words: &[u8]) -> &[u8] {
    match cut(words, b' ') {
        Some((word, _)) => word,
        None => words,
    }
}

/// Whether this is one of these words.
fn is_known(known: &[ByteList], word: &[u8]) -> bool {
    for other in known {
        if other.bytes() == word {
            return true;
        }
    }
    false
}

/// The kinds of a run's commands, each once.
fn kinds_of(alloc: Global, run: &RunView) -> Result<ItemList<ByteList>, NoMemory> {
    let mut kinds = ItemList::new(alloc);
    for row in run.commands() {
        let word = first_word(row.words.bytes());
        if !is_known(kinds.items(), word) {
            kinds.push(ByteList::from_slice(alloc, word)?)?;
        }
    }
    Ok(kinds)
}

/// The sum of numbers, or the greatest number that there is.
fn sum_of(numbers: &[usize]) -> usize {
    let mut sum: usize = 0;
    for number in numbers {
        sum = sum.saturating_add(*number);
    }
    sum
}

/// The greatest of numbers, 0 where there is none.
fn most_of(numbers: &[usize]) -> usize {
    let mut most = 0;
    for number in numbers {
        most = most.max(*number);
    }
    most
}

/// Puts how many commands of a kind there are, and how many events each took, on average and at most.
fn put_kind(alloc: Global, to: &mut ByteList, run: &RunView, kind: &[u8]) -> Result<(), NoMemory> {
    let spans = spans_of_kind(alloc, run, kind)?;
    let tenths = sum_of(spans.items()).saturating_mul(10) / spans.items().len().max(1);
    to.extend(kind)?;
    put_number(to, b": ", commands_of_kind(run, kind))?;
    put_number(to, b", events on average ", tenths / 10)?;
    put_number(to, b".", tenths % 10)?;
    put_number(to, b", at most ", most_of(spans.items()))?;
    to.extend(b"\n")
}

/// Puts the commands by kind.
fn put_commands(alloc: Global, to: &mut ByteList, run: &RunView) -> Result<(), NoMemory> {
    let kinds = kinds_of(alloc, run)?;
    for kind in kinds.items() {
        put_kind(alloc, to, run, kind.bytes())?;
    }
    put_number(to, b"locks refused: ", locks_refused(run))?;
    to.extend(b"\n")
}

/// What a run counts.
fn count_text(alloc: Global, run: &RunView) -> Result<ByteList, NoMemory> {
    let nodes = nodes_of(alloc, run)?;
    let mut text = ByteList::new(alloc);
    for from in &nodes {
        for home in &nodes {
            put_link(&mut text, run, *from, *home)?;
        }
    }
    for node in &nodes {
        put_pages(&mut text, run, *node)?;
    }
    put_commands(alloc, &mut text, run)?;
    Ok(text)
}

/// What the run counts that a source and a number pick.
pub(crate) fn said_of_counts<S: Source>(
    alloc: Global,
    source: &mut S,
    turns: u64,
) -> Result<Said, Said>
    ensures { IfOk result (λ said. said.status ≡ 0) }
{
    let read = read_run(alloc, source, turns)?;
    Ok(Said::new(0, count_text(alloc, &read.run)?))
}
