//! The stamp of an object.
use uid_names::{Uid, UidRow};

/// The stamp of an object.
#[derive(Clone, Copy, Debug, PartialEq, Eq)]
pub struct Stamp {
    pub uid: Uid,
    pub stamp: u64,
}

impl UidRow for Stamp {
    ghost use Rattle.version_stamps.specs.Stamps.{object_of};

    ghost name = { object_of };

    fn uid(&self) -> Uid {
        self.uid
    }
}
