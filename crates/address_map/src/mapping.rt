//! Mappings, and the runs of segments that they leave free.
ghost use Rattle.std.specs.Prelude.{◌≡◌, ◌+◌, ◌*◌, ◌<◌, ◌≤◌, true, IfSome};
ghost use Rattle.std.specs.List.{list_all};
ghost use Rattle.address_map.specs.Mappings.{address_of, lies_in, mapping_of, mapping_at};
ghost use Rattle.address_map.specs.Runs.{is_apart, is_free_run, lowest_run};

use uid_names::{SEGMENT_SIZE, SEGMENTS, Uid};

/// An object that is mapped: its first segment, and how many it takes.
#[derive(Clone, Copy, Debug, PartialEq, Eq)]
pub struct Mapping {
    pub uid: Uid,
    pub first: u16,
    pub segments: u16,
}

impl Mapping {
    /// Its first address.
    pub fn address(&self) -> u32
        ensures { result ≡ address_of self.now }
    {
        u32::from(self.first) * SEGMENT_SIZE
    }

    /// The segment behind its last one.
    fn end(&self) -> u32
        ensures { result ≡ self.now.first + self.now.segments }
    {
        u32::from(self.first) + u32::from(self.segments)
    }

    /// Whether an address lies in its segments.
    pub fn covers(&self, address: u32) -> bool
        ensures { result ≡ lies_in address self.now }
    {
        self.address() <= address && address < self.end() * SEGMENT_SIZE
    }

    /// Whether it takes none of so many segments.
    fn is_apart(&self, count: u16, first: u16) -> bool
        ensures { result ≡ is_apart count first self.now }
    {
        let end = u32::from(first) + u32::from(count);
        end <= u32::from(self.first) || self.end() <= u32::from(first)
    }
}

/// The mapping of an object.
pub(crate) fn mapping_of(mappings: &[Mapping], uid: Uid) -> Option<Mapping>
    ensures { result ≡ mapping_of uid mappings.now }
{
    for mapping in mappings {
        if uid.is(mapping.uid) {
            return Some(*mapping);
        }
    }
    None
}

/// The mapping in whose segments an address lies.
pub(crate) fn mapping_at(mappings: &[Mapping], address: u32) -> Option<Mapping>
    ensures covers { result ≡ mapping_at address mappings.now }
    ensures begins { IfSome result (λ mapping. address_of mapping ≤ address) }
{
    for mapping in mappings {
        if mapping.covers(address) {
            return Some(*mapping);
        }
    }
    None
}

/// Whether no mapping takes one of so many segments from one on.
fn is_free(mappings: &[Mapping], count: u16, first: u16) -> bool
    ensures { result ≡ list_all (is_apart count first) mappings.now }
{
    mappings
        .iter()
        .all(|mapping| mapping.is_apart(count, first))
}

/// Whether so many segments from one on are there and free.
fn is_free_run(mappings: &[Mapping], count: u16, first: u16) -> bool
    ensures { result ≡ is_free_run count first mappings.now }
{
    let end = u32::from(first) + u32::from(count);
    end <= u32::from(SEGMENTS) && is_free(mappings, count, first)
}

/// The lowest run of so many free segments.
pub(crate) fn lowest_run(mappings: &[Mapping], count: u16) -> Option<u16>
    ensures lowest { result ≡ lowest_run count mappings.now }
    ensures free { IfSome result (λ first. is_free_run count first mappings.now ≡ true) }
{
    for first in 0..SEGMENTS {
        if is_free_run(mappings, count, first) {
            return Some(first);
        }
    }
    None
}
