//! How the machines of files go on while bytes are read, counted, appended or copied.
ghost use Rattle.std.specs.Prelude.{◌≡◌, Some};
ghost use Rattle.command_talks.specs.FileTalks.{copied as copied_so, file_asks, over_turn, stream_turn};
ghost use Rattle.command_talks.specs.FileTurns.{Asks, AsksBy};

use crate::closing::close;
use crate::file_talk::{FileTalk, FileTurn};
use crate::outcome::Outcome;
use mapped_streams::{StreamResult, StreamStep};

/// What a copy of bytes has come to; None where all was done.
fn copied(come: StreamResult) -> Option<Outcome>
    ensures { result ≡ copied_so come }
{
    match come {
        StreamResult::Fine => None,
        come => Some(Outcome::Streamed(come)),
    }
}

impl FileTalk {
    /// Its stream has come to this: behind a copy the source is closed.
    pub fn over(&self, come: StreamResult) -> FileTurn
        ensures turn { result ≡ over_turn self.now come }
        ensures asks { Asks result }
    {
        match self {
            FileTalk::Copies(source, _machine) => close(source.again(), copied(come)),
            _ => FileTurn::Comes(Outcome::Streamed(come)),
        }
    }
}

/// A machine whose stream says this goes on, or has come to its end.
pub fn turned(talk: FileTalk, step: StreamStep) -> FileTurn
    requires { AsksBy (file_asks talk) step }
    ensures turn { Some result ≡ stream_turn (Some step) talk }
    ensures asks { Asks result }
{
    match step {
        StreamStep::Do(op) => FileTurn::Goes(talk, op),
        StreamStep::Over(come) => talk.over(come),
    }
}
