//! Notices: of frames that were lost or are late.
ghost use Rattle.std.specs.Prelude.{◌≡◌};
ghost use Rattle.node_runs.specs.Deliveries.{is_gone as is_gone_fate};
ghost use Rattle.ring_links.specs.Notices.{notice_for, notice_what};

use dom_history::{Fate, What};
use ring_messages::Frame;
use uid_names::NodeId;

/// Whether a frame of this fate is lost or late: its calling process gets a notice.
pub fn is_gone(fate: Fate) -> bool
    ensures { result ≡ is_gone_fate fate }
{
    match fate {
        Fate::Lose | Fate::Late(_) => true,
        Fate::Pass | Fate::Twice(_) => false,
    }
}

/// A frame that was lost or is late: the number of its process, its link, its number there, the number of its call, and
/// its tick.
#[derive(Clone, Copy, Debug, PartialEq, Eq)]
pub struct Notice {
    pub proc: u8,
    pub from: NodeId,
    pub to: NodeId,
    pub index: u64,
    pub number: u64,
    pub tick: u64,
}

impl Notice {
    /// The notice of a frame with this number on its link. Takes no memory.
    pub fn of(frame: &Frame, index: u64) -> Notice
        ensures { result ≡ notice_for frame.now index }
    {
        Notice {
            proc: frame.proc(),
            from: frame.from(),
            to: frame.to(),
            index,
            number: frame.number(),
            tick: frame.tick(),
        }
    }

    /// Its event. Takes no memory.
    pub fn what(&self) -> What
        ensures { result ≡ notice_what self.now }
    {
        What::Notice(self.proc, self.from, self.to, self.index)
    }
}
