//! The page that a process moves.
ghost use Rattle.std.specs.Prelude.{◌≡◌};
ghost use Rattle.fault_handler.specs.Unseen.{fits_way};

use ring_messages::Body;
use uid_names::Uid;

/// A page on its way: from its home where it is inward, and home where it is not.
#[derive(Clone, Copy, Debug, PartialEq, Eq)]
pub struct Transit {
    pub uid: Uid,
    pub page: u32,
    pub inward: bool,
}

impl Transit {
    /// Whether a body is an answer to what it was asked or sent with.
    pub(crate) fn takes(self, body: &Body) -> bool
        ensures { result ≡ fits_way self.inward body.now }
    {
        match body {
            Body::Page { .. } => self.inward,
            Body::Stored { .. } | Body::Stale { .. } => !self.inward,
            _ => false,
        }
    }
}
