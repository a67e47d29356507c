//! The numbers that words spell, each in its range. No function takes memory.
ghost use Rattle.std.specs.Prelude.{◌≡◌, ◌≤◌, IfSome};
ghost use Rattle.uid_names.specs.Rooms.{IsRoom};
ghost use Rattle.uid_names.specs.Wires.{IsWire};
ghost use Rattle.dom_text.specs.Numbers.{number_spelled};
ghost use Rattle.script_reader.specs.SpelledNumbers.{within, wire_spelled, frames_spelled, process_spelled, index_spelled, late_spelled, room_spelled, offset_spelled, count_spelled, address_spelled};
ghost use Rattle.script_reader.specs.Walk.Formed.{AreFrames, IsProcessNumber, IsIndex, IsLate};
ghost use Rattle.script_reader.specs.Walk.Seen.{seen_option};

use dom_text::{decimal, hex8};
use uid_names::{MAX_LENGTH, MAX_ROOM, NODE_PROCESSES, PAGE_BYTES};

/// The fewest and the most page frames of a node, and those of one whose line says no number.
const MIN_FRAMES: u32 = 5;

const MAX_FRAMES: u32 = 256;

const USUAL_FRAMES: u32 = 64;

/// The greatest number of a process at its node.
const MAX_PROCESS: u32 = NODE_PROCESSES as u32;

/// The greatest number of a frame whose fate is given.
const MAX_INDEX: u32 = 1_000_000;

/// The greatest number of a fate.
const MAX_LATE: u32 = 1000;

/// The greatest address of a command.
const MAX_ADDRESS: u32 = 0x00ff_ffff;

/// The last version.
const LAST_WIRE: u32 = 2;

/// The greatest offset of a command, in bytes: the last byte of the greatest room.
const MAX_OFFSET: u32 = MAX_LENGTH - 1;

/// The most bytes that a command loads or stores.
const MAX_COUNT: u32 = PAGE_BYTES as u32;

/// The number of this range that a word spells.
fn number_within(word: &[u8], low: u32, high: u32) -> Option<u32>
    ensures value { result ≡ within low high (number_spelled word.now) }
    ensures least { IfSome result (λ n. low ≤ n) }
    ensures greatest { IfSome result (λ n. n ≤ high) }
{
    match decimal(word) {
        Ok(n) => {
            if low as u64 <= n && n <= high as u64 {
                Some(n as u32)
            } else {
                None
            }
        }
        Err(_) => None,
    }
}

/// The version that a word spells.
pub(crate) fn wire(word: &[u8]) -> Option<u32>
    ensures value { result ≡ wire_spelled word.now }
    ensures range { IfSome result IsWire }
{
    number_within(word, 1, LAST_WIRE)
}

/// The page frames that a node's line says, or the usual ones where it says none.
pub(crate) fn frames(word: Option<&[u8]>) -> Option<u32>
    ensures value { result ≡ frames_spelled (seen_option word.entry) }
    ensures range { IfSome result AreFrames }
{
    match word {
        Some(word) => number_within(word, MIN_FRAMES, MAX_FRAMES),
        None => Some(USUAL_FRAMES),
    }
}

/// The number of a process at its node that digits spell.
pub(crate) fn process(word: &[u8]) -> Option<u32>
    ensures value { result ≡ process_spelled word.now }
    ensures range { IfSome result IsProcessNumber }
{
    number_within(word, 1, MAX_PROCESS)
}

/// The number of a frame that a word spells.
pub(crate) fn index(word: &[u8]) -> Option<u32>
    ensures value { result ≡ index_spelled word.now }
    ensures range { IfSome result IsIndex }
{
    number_within(word, 1, MAX_INDEX)
}

/// The number of a fate that a word spells.
pub(crate) fn late(word: &[u8]) -> Option<u32>
    ensures value { result ≡ late_spelled word.now }
    ensures range { IfSome result IsLate }
{
    number_within(word, 1, MAX_LATE)
}

/// The room that a word spells, in pages.
pub(crate) fn room(word: &[u8]) -> Option<u32>
    ensures value { result ≡ room_spelled word.now }
    ensures range { IfSome result IsRoom }
{
    number_within(word, 1, MAX_ROOM)
}

/// The offset that a word spells, in bytes.
pub(crate) fn offset(word: &[u8]) -> Option<u32>
    ensures { result ≡ offset_spelled word.now }
{
    number_within(word, 0, MAX_OFFSET)
}

/// The count of bytes that a word spells.
pub(crate) fn count(word: &[u8]) -> Option<u32>
    ensures { result ≡ count_spelled word.now }
{
    number_within(word, 1, MAX_COUNT)
}

/// The address that a word spells.
pub(crate) fn address(word: &[u8]) -> Option<u32>
    ensures { result ≡ address_spelled word.now }
{
    match hex8(word) {
        Ok(address) => {
            if address <= MAX_ADDRESS {
                Some(address)
            } else {
                None
            }
        }
        Err(_) => None,
    }
}
