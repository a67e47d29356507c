//! The two versions in which scripts and frames are written.
ghost use Rattle.std.specs.Prelude.{◌≡◌, ◌≤◌};
ghost use Rattle.uid_names.specs.Wires.{wire_room};
ghost use Rattle.uid_names.specs.declared.limits.TheConstants.{MAX_ROOM};

use crate::limits::{FIRST_ROOM, MAX_ROOM};

/// The greatest room that a version can write, in pages.
#[tactic(auto, unfolding(crate::specs::Wires::wire_room))]
pub fn wire_room(wire: u8) -> u32
    ensures value { result ≡ wire_room wire }
    ensures least { 1 ≤ result }
    ensures greatest { result ≤ MAX_ROOM }
{
    if wire == 1 { FIRST_ROOM } else { MAX_ROOM }
}
