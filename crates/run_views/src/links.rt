//! The frames of a link as they are shown.
ghost use Rattle.std.specs.Prelude.{◌≡◌, [], ◌∷◌, ◌++◌, OnOk};

use event_views::{CommandName, FrameSaid, FrameView};
use std::alloc::Global;
use std::marker::Model;
use uid_names::{FrameKind, ItemList, Mode, NoMemory, Uid};

/// The frames that were sent on a link, by their numbers there, from 1.
// A type of its own, so that who keeps many of them need not know what a frame's view is made of.
#[derive(Drop)]
pub(crate) struct SentFrames {
    views: ItemList<FrameView>,
}

impl Model for SentFrames {
    ghost use Rattle.std.specs.Prelude.{List};
    ghost use Rattle.event_views.specs.declared.run.FrameView.{FrameView};

    ghost Value = { List FrameView };

    ghost view = { λ s. s.views };
}

impl SentFrames {
    /// No frame. Takes no memory.
    pub(crate) fn new(alloc: Global) -> SentFrames
        ensures { result ≡ [] }
    {
        SentFrames {
            views: ItemList::new(alloc),
        }
    }

    /// Puts the next frame last: what it says, and the command for which it was sent.
    // By its parts: a view of a frame that is handed in whole gets no generated proof.
    pub(crate) fn put(
        &mut self,
        kind: FrameKind,
        uid: Option<Uid>,
        page: Option<u32>,
        mode: Option<Mode>,
        command: Option<CommandName>,
    ) -> Result<(), NoMemory>
        ensures { OnOk result (self.new ≡ self.old ++ record { said = record { kind = kind; uid = uid; page = page; mode = mode }; command = command } ∷ []) }
    {
        let said = FrameSaid {
            kind,
            uid,
            page,
            mode,
        };
        self.views.push(FrameView { said, command })
    }

    /// The frame of this number.
    pub(crate) fn at(&self, index: u64) -> Option<FrameView> {
        if index == 0 {
            return None;
        }
        self.views.items().get((index - 1) as usize).copied()
    }
}
