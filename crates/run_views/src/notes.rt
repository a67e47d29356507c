//! What is noted as the events of a run go by.
ghost use Rattle.std.specs.Prelude.{◌≤◌, vec_len};

use crate::commands::shell_at;
use crate::links::SentFrames;
use aegis_shell::Shell;
use dom_history::What;
use event_views::{CommandName, FrameSaid, FrameView, said_of};
use journal_check::{is_among, link_of};
use node_core::Node;
use page_store::BlockPages;
use ring_messages::Frame;
use script_reader::Script;
use std::alloc::Global;
use uid_names::{FrameKind, ItemList, MAX_NODES, NoMemory, NodeId, ProcId};

/// A process: how many of its commands were answered, and whether the next one has begun.
#[derive(Clone, Copy)]
struct Course {
    proc: ProcId,
    answered: u32,
    begun: bool,
}

/// How many answers a process has at these nodes.
fn answers_at(nodes: &[Node<Shell<'_>, BlockPages>], proc: ProcId) -> u32 {
    match shell_at(nodes, proc) {
        Some(shell) => shell.answers().len().min(u32::MAX as usize) as u32,
        None => 0,
    }
}

/// Puts the commands last that are answered behind so many of a process.
fn add_answered(
    to: &mut ItemList<CommandName>,
    proc: ProcId,
    before: u32,
    answered: u32,
) -> Result<(), NoMemory> {
    for at in before..answered {
        to.push(CommandName {
            proc,
            index: at + 1,
        })?;
    }
    Ok(())
}

impl Course {
    /// The command that is next answered.
    fn next(self) -> CommandName {
        CommandName {
            proc: self.proc,
            index: self.answered.saturating_add(1),
        }
    }

    /// Puts the commands last that are answered by now and were not before.
    fn answer(
        &mut self,
        names: &mut ItemList<CommandName>,
        nodes: &[Node<Shell<'_>, BlockPages>],
    ) -> Result<(), NoMemory> {
        let answered = answers_at(nodes, self.proc);
        if self.answered < answered {
            add_answered(names, self.proc, self.answered, answered)?;
            self.answered = answered;
            self.begun = false;
        }
        Ok(())
    }
}

/// How far each process is, the phase that each node is in, and the frames that were sent on each link.
#[derive(Drop)]
pub(crate) struct Notes<'a> {
    script: &'a Script,
    courses: Vec<Course>,
    phases: Vec<u32>,
    links: Vec<SentFrames>,
    ghost few: { vec_len phases ≤ 8 },
}

/// What a frame says that was sent, a reply with what its request said.
fn said_in(frame: &Frame, met: &Option<FrameView>) -> FrameSaid {
    let said = said_of(frame);
    match met {
        Some(met) if !said.kind.is_request() => met.said.answered_by(said),
        _ => said,
    }
}

/// The command for which a frame was sent.
fn command_of(frame: &Option<FrameView>) -> Option<CommandName> {
    match frame {
        Some(frame) => frame.command,
        None => None,
    }
}

impl<'a> Notes<'a> {
    /// What is noted before any event.
    pub(crate) fn new(
        alloc: Global,
        script: &'a Script,
        procs: &[ProcId],
    ) -> Result<Notes<'a>, NoMemory> {
        let mut courses = Vec::new(alloc);
        for proc in procs {
            courses.push(Course {
                proc: *proc,
                answered: 0,
                begun: false,
            })?;
        }
        let count = script.nodes().len().min(MAX_NODES as usize);
        let phases = Vec::from_elem(alloc, 1, count)?;
        let mut links = Vec::new(alloc);
        for _link in 0..count * count {
            links.push(SentFrames::new(alloc))?;
        }
        Ok(Notes {
            script,
            courses,
            phases,
            links,
        })
    }

    /// The frame of this number on a link.
    fn frame(&self, from: NodeId, to: NodeId, index: u64) -> Option<FrameView> {
        let count = self.phases.len();
        if !is_among(from, count) || !is_among(to, count) {
            return None;
        }
        self.links.get(link_of(from, to, count))?.at(index)
    }

    /// The frame that an event of a node takes or is told of.
    pub(crate) fn met(&self, node: NodeId, what: &What) -> Option<FrameView> {
        match what {
            What::Take(from, index) => self.frame(*from, node, *index),
            What::Notice(_, from, to, index) => self.frame(*from, *to, *index),
            What::Begin(_) | What::Go(_) | What::Ready(_) | What::Mark(_, _) => None,
        }
    }

    /// The phase of a command, if the script has it.
    fn phase_of(&self, command: CommandName) -> Option<u32> {
        let at = (command.index as usize).checked_sub(1)?;
        let place = *self.script.places_of(command.proc).get(at)?;
        Some(self.script.commands().get(place as usize)?.phase)
    }

    /// The command that a process begins now, in the phase of its node, if it has one left there and has not begun it.
    fn begin(&mut self, proc: ProcId) -> Option<CommandName> {
        let now = *self.phases.get(proc.node().number() as usize - 1)?;
        let at = self.courses.iter().position(|course| course.proc.is(proc))?;
        let course = self.courses[at];
        if course.begun || now < self.phase_of(course.next())? {
            return None;
        }
        self.courses[at].begun = true;
        Some(course.next())
    }

    /// The command that begins with an event.
    pub(crate) fn begun(&mut self, node: NodeId, what: &What) -> Option<CommandName> {
        match what {
            What::Begin(number) => self.begin(ProcId::new(node, *number)?),
            What::Ready(phase) => {
                let at = node.number() as usize - 1;
                if at < self.phases.len() {
                    self.phases[at] = phase.saturating_add(1);
                }
                None
            }
            _ => None,
        }
    }

    /// The command that a process is at.
    fn at(&self, proc: ProcId) -> Option<CommandName> {
        for course in &self.courses {
            if course.proc.is(proc) {
                return Some(course.next());
            }
        }
        None
    }

    /// The command for which a frame of this kind was sent: a request for that which its process is at, a reply for that of the request.
    fn sent_for(
        &self,
        kind: FrameKind,
        frame: &Frame,
        met: &Option<FrameView>,
    ) -> Option<CommandName> {
        if kind.is_request() {
            self.at(frame.caller())
        } else {
            command_of(met)
        }
    }

    /// A frame that was sent, as it is shown.
    pub(crate) fn shown(&self, frame: &Frame, met: &Option<FrameView>) -> FrameView {
        let said = said_in(frame, met);
        let command = self.sent_for(said.kind, frame, met);
        FrameView { said, command }
    }

    /// Notes a frame that was sent, as it is shown, on its link.
    pub(crate) fn send(&mut self, frame: &Frame, met: &Option<FrameView>) -> Result<(), NoMemory> {
        let count = self.phases.len();
        if !is_among(frame.from(), count) || !is_among(frame.to(), count) {
            return Ok(());
        }
        let link = link_of(frame.from(), frame.to(), count);
        if link >= self.links.len() {
            return Ok(());
        }
        let FrameSaid {
            kind,
            uid,
            page,
            mode,
        } = said_in(frame, met);
        let command = self.sent_for(kind, frame, met);
        self.links[link].put(kind, uid, page, mode, command)
    }

    /// The commands that are answered before any event.
    pub(crate) fn early(
        &mut self,
        alloc: Global,
        nodes: &[Node<Shell<'_>, BlockPages>],
    ) -> Result<ItemList<CommandName>, NoMemory> {
        let mut names = ItemList::new(alloc);
        for course in &mut self.courses {
            course.answer(&mut names, nodes)?;
        }
        Ok(names)
    }

    /// The commands of a node's processes that are answered by now and were not before.
    pub(crate) fn answered(
        &mut self,
        alloc: Global,
        nodes: &[Node<Shell<'_>, BlockPages>],
        node: NodeId,
    ) -> Result<ItemList<CommandName>, NoMemory> {
        let mut names = ItemList::new(alloc);
        for course in &mut self.courses {
            if course.proc.node().number() == node.number() {
                course.answer(&mut names, nodes)?;
            }
        }
        Ok(names)
    }
}
