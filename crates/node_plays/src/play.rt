//! Plays a journal at the nodes of its script, event by event.
use crate::fault::PlayFault;
use crate::nodes::{ShellNode, nodes};
use case_files::FileCase;
use dom_history::{Event, EventList, NodeNames, What};
use journal_text::read_journal;
use node_core::{Emitted, Incoming};
use ring_messages::{Frame, read, write};
use script_reader::{Script, read_script};
use std::alloc::Global;
use uid_names::{ByteList, NoMemory, NodeId};

/// What was found of a case.
#[derive(Clone, Copy)]
pub enum Found {
    AsSaid,
    /// The event of this tick was not enabled, or did something else.
    Event(u64),
    /// A node has not ended.
    End,
    /// The processes answered something else.
    Answers,
}

/// A frame that was sent, as bytes, with its index on its link, its number and its tick.
#[derive(Drop)]
struct SentFrame {
    from: NodeId,
    to: NodeId,
    index: u64,
    number: u64,
    tick: u64,
    bytes: ByteList,
}

/// Nodes, all frames that they sent, and the marks: their node, phase and tick.
#[derive(Drop)]
struct Play<'a> {
    alloc: Global,
    nodes: Vec<ShellNode<'a>>,
    frames: Vec<SentFrame>,
    marks: Vec<(NodeId, u32, u64)>,
}

impl<'a> Play<'a> {
    fn new(alloc: Global, nodes: Vec<ShellNode<'a>>) -> Play<'a> {
        Play {
            alloc,
            nodes,
            frames: Vec::new(alloc),
            marks: Vec::new(alloc),
        }
    }

    fn frame(&self, from: NodeId, to: NodeId, index: u64) -> Option<&SentFrame> {
        let mut frames = self.frames.iter();
        frames.find(|f| f.from == from && f.to == to && f.index == index)
    }

    fn mark_tick(&self, from: NodeId, phase: u32) -> Option<u64> {
        let mark = self.marks.iter().find(|m| m.0 == from && m.1 == phase)?;
        Some(mark.2)
    }

    /// What an event at a node receives. Where nothing of that kind was sent it receives nothing, and is not enabled.
    fn incoming(&self, at: NodeId, what: What) -> Result<Incoming, PlayFault> {
        Ok(match what {
            What::Take(from, index) => match self.frame(from, at, index) {
                Some(frame) => Incoming::Frame(read(self.alloc, frame.bytes.bytes())?),
                None => Incoming::Nothing,
            },
            What::Notice(_, from, to, index) => match self.frame(from, to, index) {
                Some(frame) => Incoming::Gone {
                    number: frame.number,
                    tick: frame.tick,
                },
                None => Incoming::Nothing,
            },
            What::Mark(from, phase) => match self.mark_tick(from, phase) {
                Some(tick) => Incoming::Mark { tick },
                None => Incoming::Nothing,
            },
            What::Begin(_) | What::Go(_) | What::Ready(_) => Incoming::Nothing,
        })
    }

    /// Keeps what an event emitted.
    fn keep(&mut self, event: &Event, emitted: &Emitted) -> Result<(), NoMemory> {
        if let Some((index, frame)) = &emitted.frame {
            self.frames.push(sent(self.alloc, *index, frame)?)?;
        }
        if let Some(phase) = emitted.mark {
            let place = event.place();
            self.marks.push((place.node, phase, place.tick))?;
        }
        Ok(())
    }

    /// Does an event; whether it was enabled and did what was written of it.
    fn step(&mut self, event: &Event) -> Result<bool, PlayFault> {
        let at = event.place().node;
        let incoming = self.incoming(at, event.what())?;
        let number = usize::from(at.number());
        if number > self.nodes.len() {
            return Ok(false);
        }
        match happen(self.alloc, &mut self.nodes[number - 1], event, &incoming)? {
            Some(emitted) => {
                self.keep(event, &emitted)?;
                Ok(true)
            }
            None => Ok(false),
        }
    }

    /// Whether each node has ended, behind the last of so many phases.
    fn has_ended(&self, phases: u32) -> bool {
        let last = phases.wrapping_add(1);
        self.nodes
            .iter()
            .all(|node| node.ended() && node.phase() == last)
    }

    /// What the processes answered.
    fn report(self) -> Result<ByteList, NoMemory> {
        let (alloc, mut nodes) = (self.alloc, self.nodes);
        let mut report = ByteList::new(alloc);
        for name in ["a", "b"] {
            if !nodes.is_empty() {
                tell(alloc, name, nodes.remove(0), &mut report)?;
            }
        }
        Ok(report)
    }
}

fn sent(alloc: Global, index: u64, frame: &Frame) -> Result<SentFrame, NoMemory> {
    Ok(SentFrame {
        from: frame.from(),
        to: frame.to(),
        index,
        number: frame.number(),
        tick: frame.tick(),
        bytes: write(alloc, frame)?,
    })
}

/// An event at a node; what it emits, if it was enabled and did what was written of it.
fn happen(
    alloc: Global,
    node: &mut ShellNode<'_>,
    event: &Event,
    incoming: &Incoming,
) -> Result<Option<Emitted>, NoMemory> {
    const LATEST: u64 = 1 << 40;
    let what = event.what();
    if !node.enabled(&what, incoming) || node.tick() >= LATEST || incoming.tick() >= LATEST {
        return Ok(None);
    }
    let emitted = node.step(alloc, what, incoming)?;
    match node.log().events.items().last() {
        Some(done) if is_same(done, event) => Ok(Some(emitted)),
        _ => Ok(None),
    }
}

fn is_same(a: &Event, b: &Event) -> bool {
    let (left, right) = (a.effects(), b.effects());
    a.place() == b.place()
        && a.what() == b.what()
        && left.sent == right.sent
        && left.ended == right.ended
        && left.dropped.items() == right.dropped.items()
}

/// The names of the nodes of each case, as far as it has them.
fn names(alloc: Global) -> Result<NodeNames, NoMemory> {
    let a = ByteList::from_slice(alloc, b"a")?;
    let b = ByteList::from_slice(alloc, b"b")?;
    NodeNames::from_list(alloc, &[a, b])
}

/// Adds the answers of a node's processes to a report.
fn tell(
    alloc: Global,
    name: &str,
    node: ShellNode<'_>,
    report: &mut ByteList,
) -> Result<(), NoMemory> {
    let (_, programs) = node.into_parts();
    for (proc, shell) in programs.iter() {
        for (i, answer) in shell.answers().iter().enumerate() {
            let number = i.wrapping_add(1);
            report.extend(format!(in alloc; "{name}.{proc} {number} ")?.as_bytes())?;
            report.extend(answer.bytes())?;
            report.push(b'\n')?;
        }
    }
    Ok(())
}

/// The events of a journal.
fn events(alloc: Global, journal: &[u8]) -> Result<EventList, PlayFault> {
    let names = names(alloc)?;
    Ok(read_journal(alloc, journal, &names)?)
}

/// Does events; the tick of the first that was not enabled, or did something else.
fn first_wrong(play: &mut Play<'_>, events: &[Event]) -> Result<Option<u64>, PlayFault> {
    for event in events {
        if !play.step(event)? {
            return Ok(Some(event.place().tick));
        }
    }
    Ok(None)
}

/// What is found behind the last event.
fn found_at_end(play: Play<'_>, phases: u32, report: &[u8]) -> Result<Found, NoMemory> {
    if !play.has_ended(phases) {
        return Ok(Found::End);
    }
    let told = play.report()?;
    Ok(if told.bytes() == report {
        Found::AsSaid
    } else {
        Found::Answers
    })
}

/// Does events at the nodes of a script; what was found of them.
fn found_in(
    alloc: Global,
    script: &Script,
    events: &[Event],
    report: &[u8],
) -> Result<Found, PlayFault> {
    let mut play = Play::new(alloc, nodes(alloc, script)?);
    match first_wrong(&mut play, events)? {
        Some(tick) => Ok(Found::Event(tick)),
        None => Ok(found_at_end(play, script.phases(), report)?),
    }
}

/// The journal of a case; one of no events where it has none.
fn journal(case: &FileCase) -> &[u8] {
    match &case.journal {
        Some(journal) => journal.bytes(),
        None => b"",
    }
}

/// Plays a case; what was found of it, and how many events its journal has.
pub fn play_case(alloc: Global, case: &FileCase) -> Result<(Found, u64), PlayFault> {
    let script = read_script(alloc, case.script.bytes())?;
    let events = events(alloc, journal(case))?;
    let found = found_in(alloc, &script, events.items(), case.report.bytes())?;
    Ok((found, events.items().len() as u64))
}
