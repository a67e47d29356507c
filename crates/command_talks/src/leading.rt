//! Where what a command drove leads it, once that has come to something.
ghost use Rattle.std.specs.Prelude.{◌≡◌, Some, IfOk};
ghost use Rattle.command_talks.specs.FileTurns.{led as led_by, named_led, streamed_led, Asks};

use crate::checking::{guarded, on_directory, on_text};
use crate::come::Come;
use crate::copying::added;
use crate::file_talk::{FileTalk, FileTurn};
use crate::mailed::mail_over;
use crate::outcome::Outcome;
use mapped_streams::StreamResult;
use naming_tree::NameResult;
use std::alloc::Global;
use uid_names::NoMemory;

impl FileTalk {
    /// A walk or a directory has come to this.
    fn on_name(self, alloc: Global, come: NameResult) -> Result<FileTurn, NoMemory>
        ensures turn { IfOk result (λ turn. Some turn ≡ named_led self come) }
        ensures asks { IfOk result Asks }
    {
        match self {
            FileTalk::Seeks(_walk, errand, guard) => guarded(alloc, guard, errand, come),
            FileTalk::Reaches(_walk, errand, guard) => guarded(alloc, guard, errand, come),
            FileTalk::Adds(source, _change) => added(alloc, source, come),
            _ => Ok(FileTurn::Comes(Outcome::Came(come))),
        }
    }

    /// A stream has come to this.
    fn on_stream(self, alloc: Global, come: StreamResult) -> Result<FileTurn, NoMemory>
        ensures turn { IfOk result (λ turn. Some turn ≡ streamed_led self come) }
        ensures asks { IfOk result Asks }
    {
        match self {
            FileTalk::LooksUp(_stream, pending) => on_directory(alloc, pending, come),
            FileTalk::ReadsList(_stream, pending) => on_text(alloc, pending, come),
            talk => Ok(talk.over(come)),
        }
    }

    /// What it drove has come to this.
    pub fn led(self, alloc: Global, come: Come) -> Result<FileTurn, NoMemory>
        ensures turn { IfOk result (λ turn. Some turn ≡ led_by self come) }
        ensures asks { IfOk result Asks }
    {
        match come {
            Come::Named(come) => self.on_name(alloc, come),
            Come::Streamed(come) => self.on_stream(alloc, come),
            Come::Mailed(come) => mail_over(alloc, come),
        }
    }
}
