//! What a node knows of the rooms and the lengths of objects.
ghost use Rattle.std.specs.Prelude.{◌≡◌};
ghost use Rattle.fault_handler.specs.Lengths.{grown, sent_length};

use uid_names::{Uid, UidRow};

/// An object's room in pages, its length in bytes, and whether the length was changed at this node.
#[derive(Clone, Copy, Debug, PartialEq, Eq)]
pub struct Known {
    pub uid: Uid,
    pub room: u32,
    pub length: u32,
    pub changed: bool,
}

impl Known {
    /// As it is after a store that ended there.
    pub(crate) fn grown(self, end: u32) -> Known
        ensures { result ≡ grown end self }
    {
        if self.length < end {
            Known {
                uid: self.uid,
                room: self.room,
                length: end,
                changed: true,
            }
        } else {
            self
        }
    }

    /// As it is after the home took this length.
    pub(crate) fn sent(self, length: u32) -> Known
        ensures { result ≡ sent_length length self }
    {
        if self.length == length {
            Known {
                uid: self.uid,
                room: self.room,
                length: self.length,
                changed: false,
            }
        } else {
            self
        }
    }
}

impl UidRow for Known {
    ghost name = { λ row. row.uid };

    fn uid(&self) -> Uid {
        self.uid
    }
}
