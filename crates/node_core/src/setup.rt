//! What a node is given, what an event receives, and what it emits.
ghost use Rattle.std.specs.Prelude.{◌≡◌};
ghost use Rattle.node_runs.specs.Incomings.{tick_of};
ghost use Rattle.node_runs.specs.SentFrames.{IsNamedBody, IsFrame, IsIncoming};
ghost use Rattle.node_core.specs.Receivings.{seen};

use ring_messages::{Body, Copied, Frame};
use std::alloc::Global;
use uid_names::{NoMemory, NodeId};

/// What a node is given beside the opening: its number and that of all nodes, the version of its frames, 1 or 2, its page
/// frames, 5 to 256, and the number of phases, 1 to 1,000.
#[derive(Clone, Copy, Debug, PartialEq, Eq)]
pub struct NodeSetup {
    pub node: NodeId,
    pub nodes: u8,
    pub wire: u8,
    pub frames: u16,
    pub phases: u32,
}

/// What an event receives: the frame that is taken, the call number and the tick of one that was lost or is late, or the
/// tick of a mark. The other events receive nothing.
#[derive(Drop, Debug)]
pub enum Incoming {
    Nothing,
    Frame(Frame),
    Gone { number: u64, tick: u64 },
    Mark { tick: u64 },
}

/// What an event emits: a frame with its index on its link, or the mark of this phase to every other node. No event emits
/// two.
#[derive(Drop, Debug)]
pub struct Emitted {
    pub frame: Option<(u64, Frame)>,
    pub mark: Option<u32>,
}

impl Incoming {
    /// The tick of what is received, 0 where nothing is. Takes no memory.
    pub fn tick(&self) -> u64
        ensures { result ≡ tick_of (seen self.now) }
    {
        match self {
            Incoming::Nothing => 0,
            Incoming::Frame(frame) => frame.tick(),
            Incoming::Gone { tick, .. } | Incoming::Mark { tick } => *tick,
        }
    }

    /// A frame that is received is one as nodes send them. For the check alone: nothing is done.
    pub fn known(&self)
        ensures { IsIncoming (seen self.now) }
    {
        if let Incoming::Frame(frame) = self {
            frame_known(frame);
        }
    }
}

impl Copied for Incoming {
    fn copy(&self, alloc: Global) -> Result<Incoming, NoMemory> {
        match self {
            Incoming::Nothing => Ok(Incoming::Nothing),
            Incoming::Frame(frame) => Ok(Incoming::Frame(frame.copy(alloc)?)),
            Incoming::Gone { number, tick } => Ok(Incoming::Gone {
                number: *number,
                tick: *tick,
            }),
            Incoming::Mark { tick } => Ok(Incoming::Mark { tick: *tick }),
        }
    }
}

/// What a frame is like: for the check alone.
fn frame_known(frame: &Frame)
    ensures { IsFrame frame.now }
{
    body_known(frame.body());
}

/// What a body names, if it names an object that was made: for the check alone.
fn body_known(body: &Body)
    ensures { IsNamedBody body.now }
{
    if let Body::Made { uid } = body {
        let _counter = uid.counter();
        let _home = uid.home();
    }
}
