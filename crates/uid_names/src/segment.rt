//! Segments: the address space of a process is mapped by whole ones.
ghost use Rattle.std.specs.Prelude.{◌≡◌, ◌≤◌};
ghost use Rattle.uid_names.specs.Segments.{segments};
ghost use Rattle.uid_names.specs.declared.limits.TheConstants.{MAX_ROOM};

/// How many segments an address space has.
pub const SEGMENTS: u16 = 256;

/// How many pages a segment has.
pub const SEGMENT_PAGES: u32 = 32;

/// How many bytes a segment has.
pub const SEGMENT_SIZE: u32 = 32_768;

/// How many segments an object of this room takes.
pub fn segments(room: u32) -> u16
    requires least { 1 ≤ room }
    requires greatest { room ≤ MAX_ROOM }
    ensures count { result ≡ segments room }
    ensures some { 1 ≤ result }
{
    room.div_ceil(SEGMENT_PAGES) as u16
}
