//! What frames say. No function takes memory.
ghost use Rattle.std.specs.Prelude.{◌≡◌, Option};
ghost use Rattle.event_views.specs.Said.{uid_in as object_in, page_in as page_of, mode_in as mode_of, said_of as said_by, or_else as first_there, answering as answer_said};

use ring_messages::{Body, Frame};
use uid_names::{FrameKind, Mode, Uid};

/// What a frame says: its kind, and the object, its page and the mode of a lock, as far as it names them.
#[derive(Clone, Copy, Debug, PartialEq, Eq)]
pub struct FrameSaid {
    pub kind: FrameKind,
    pub uid: Option<Uid>,
    pub page: Option<u32>,
    pub mode: Option<Mode>,
}

fn uid_in(body: &Body) -> Option<Uid>
    ensures { result ≡ object_in body.now }
{
    match body {
        Body::PageIn { uid, .. }
        | Body::PageOut { uid, .. }
        | Body::AttrOut { uid, .. }
        | Body::Lock { uid, .. }
        | Body::Unlock { uid }
        | Body::Remove { uid }
        | Body::Made { uid } => Some(*uid),
        _ => None,
    }
}

fn page_in(body: &Body) -> Option<u32>
    ensures { result ≡ page_of body.now }
{
    match body {
        Body::PageIn { page, .. } | Body::PageOut { page, .. } => Some(*page),
        _ => None,
    }
}

fn mode_in(body: &Body) -> Option<Mode>
    ensures { result ≡ mode_of body.now }
{
    match body {
        Body::Lock { mode, .. } | Body::Conflict { mode, .. } => Some(*mode),
        _ => None,
    }
}

/// What a frame says.
pub fn said_of(frame: &Frame) -> FrameSaid
    ensures { result ≡ said_by frame.now }
{
    let body = frame.body();
    FrameSaid {
        kind: body.kind(),
        uid: uid_in(body),
        page: page_in(body),
        mode: mode_in(body),
    }
}

/// The first of two that is there.
fn or_else<T: Copy>(first: Option<T>, second: Option<T>) -> Option<T>
    ensures { result ≡ first_there first second }
{
    match first {
        Some(there) => Some(there),
        None => second,
    }
}

impl FrameSaid {
    /// What a reply says that answers this request: what it does not say itself is as the request has it.
    pub fn answered_by(self, reply: FrameSaid) -> FrameSaid
        ensures { result ≡ answer_said self reply }
    {
        FrameSaid {
            kind: reply.kind,
            uid: or_else(reply.uid, self.uid),
            page: or_else(reply.page, self.page),
            mode: or_else(reply.mode, self.mode),
        }
    }
}
