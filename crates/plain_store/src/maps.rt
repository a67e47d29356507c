//! The mappings of the plain store.
ghost use Rattle.std.specs.Prelude.{◌≡◌, ◌+◌, ◌*◌, ◌%◌, ◌<◌, ◌≤◌, ◌&&◌, not, List, [], None, IsTrue, IfSome, OnOk, filter, find, length};
ghost use Rattle.std.specs.List.{list_all};
ghost use Rattle.std.specs.Option.{option_map};
ghost use Rattle.uid_names.specs.Names.{same_proc, same_uid};
ghost use Rattle.uid_names.specs.Openings.{Start};
ghost use Rattle.uid_names.specs.Segments.{segments, lies_in, is_apart, is_free_run, lowest_run};
ghost use Rattle.dom_history.specs.StoreEffects.{StoreEffect};
ghost use Rattle.dom_history.specs.Fitting.{Fits, is_address};
ghost use Rattle.dom_history.specs.Objects.{IsOfMade};
ghost use Rattle.dom_history.specs.Mappings.{mappings, target, lowest_run as lowest_run_of};
ghost use Rattle.dom_history.specs.Ranges.{offset_in_page};
ghost use Rattle.plain_store.specs.KeptObjects.{HoldObjects, with_deed};
ghost use Rattle.plain_store.specs.KeptMaps.{stretch_in, mappings_of, stretches_of, target_given, ChangesMaps};

use crate::objects::ObjectTable;
use dom_history::{Deed, Op, Reply, Spot};
use std::alloc::Global;
use uid_names::{NoMemory, PAGE_BYTES, ProcId, SEGMENT_PAGES, SEGMENT_SIZE, SEGMENTS, Uid};

/// An object that a process has mapped: its first segment, and how many it takes.
#[derive(Clone, Copy, Debug)]
pub struct Mapped {
    pub proc: ProcId,
    pub uid: Uid,
    pub first: u8,
    pub segments: u32,
}

impl Mapped {
    /// Its first address.
    fn low(&self) -> u32
        ensures { result ≡ self.now.first * SEGMENT_SIZE }
    {
        u32::from(self.first) * SEGMENT_SIZE
    }

    /// The address behind its last segment.
    fn high(&self) -> u64
        ensures { result ≡ self.now.first * SEGMENT_SIZE + self.now.segments * SEGMENT_SIZE }
    {
        u64::from(self.low()) + u64::from(self.segments) * u64::from(SEGMENT_SIZE)
    }

    /// Whether an address lies in its segments.
    fn covers(&self, address: u32) -> bool
        ensures { result ≡ lies_in address (stretch_in self.now) }
    {
        self.low() <= address && u64::from(address) < self.high()
    }

    /// Whether it takes none of so many segments from one on.
    fn is_apart(&self, count: u32, first: u16) -> bool
        ensures { result ≡ is_apart count first (stretch_in self.now) }
    {
        let end = (u64::from(first) + u64::from(count)) * u64::from(SEGMENT_SIZE);
        end <= u64::from(self.low()) || self.high() <= u64::from(first) * u64::from(SEGMENT_SIZE)
    }
}

/// How many segments an object of a room takes, were it of no range.
fn segments_of(room: u32) -> u32
    ensures { result ≡ segments room }
{
    room.div_ceil(SEGMENT_PAGES)
}

/// The mapping of an object.
fn mapping_of(maps: &[Mapped], p: ProcId, uid: Uid) -> Option<Mapped>
    ensures { result ≡ find (λ m. same_proc p m.proc && same_uid uid m.uid) maps.now }
{
    for mapped in maps {
        if p.is(mapped.proc) && uid.is(mapped.uid) {
            return Some(*mapped);
        }
    }
    None
}

/// The mapping in whose segments an address lies.
fn mapping_at(maps: &[Mapped], p: ProcId, address: u32) -> Option<Mapped>
    ensures covers { result ≡ find (λ m. same_proc p m.proc && lies_in address (stretch_in m)) maps.now }
    ensures begins { IfSome result (λ m. m.first * SEGMENT_SIZE ≤ address) }
{
    for mapped in maps {
        if p.is(mapped.proc) && mapped.covers(address) {
            return Some(*mapped);
        }
    }
    None
}

/// How many mappings a process has.
fn count_maps(maps: &[Mapped], p: ProcId) -> usize
    ensures { result ≡ length (mappings_of p maps.now) }
{
    let mut count = 0;
    for mapped in maps {
        if p.is(mapped.proc) {
            count += 1;
        }
    }
    count
}

/// Whether no mapping of a process takes one of so many segments from one on.
fn is_free(maps: &[Mapped], p: ProcId, count: u32, first: u16) -> bool
    ensures { result ≡ list_all (is_apart count first) (stretches_of p maps.now) }
{
    for mapped in maps {
        if p.is(mapped.proc) && !mapped.is_apart(count, first) {
            return false;
        }
    }
    true
}

/// Whether so many segments from one on are there and free.
fn is_free_run(maps: &[Mapped], p: ProcId, count: u32, first: u16) -> bool
    ensures { result ≡ is_free_run count first (stretches_of p maps.now) }
{
    let end = u64::from(first) + u64::from(count);
    end <= u64::from(SEGMENTS) && is_free(maps, p, count, first)
}

/// The lowest run of so many free segments.
fn lowest_run(maps: &[Mapped], p: ProcId, count: u32) -> Option<u16>
    ensures lowest { result ≡ lowest_run count (stretches_of p maps.now) }
    ensures bound { IfSome result (λ first. first < 256) }
{
    for first in 0..SEGMENTS {
        if is_free_run(maps, p, count, first) {
            return Some(first);
        }
    }
    None
}

/// What a deed does to the mappings.
#[derive(Clone, Copy, Debug)]
enum MapChange {
    Mapping(Mapped),
    Unmapping(ProcId, Uid),
    Same,
}

/// What a deed does, whose reply fits.
fn change_of(deed: &Deed, objects: &ObjectTable) -> MapChange
    requires fits { Fits deed.now.op deed.now.reply }
    requires made { IsOfMade objects.now.made.items deed.now.op deed.now.reply }
    ensures { ChangesMaps result objects.now deed.now }
{
    match &deed.op {
        Op::Map { uid } => match &deed.reply {
            Reply::At {
                address,
                fresh: true,
            } => MapChange::Mapping(Mapped {
                proc: deed.proc,
                uid: *uid,
                first: (*address / SEGMENT_SIZE) as u8,
                segments: segments_of(objects.room_of(*uid)),
            }),
            _ => MapChange::Same,
        },
        Op::Unmap { uid } => match &deed.reply {
            Reply::Fine => MapChange::Unmapping(deed.proc, *uid),
            _ => MapChange::Same,
        },
        _ => MapChange::Same,
    }
}

fn remove_mapping(p: ProcId, uid: Uid, maps: &mut Vec<Mapped>)
    ensures { maps.new.items ≡ filter (λ m. not (same_proc p m.proc && same_uid uid m.uid)) maps.old.items }
{
    maps.retain(|mapped| !(p.is(mapped.proc) && uid.is(mapped.uid)));
}

/// The mappings of all processes, the newest first.
#[derive(Drop, Debug)]
pub struct MapTable {
    items: Vec<Mapped>,
}

impl MapTable {
    ghost use Rattle.plain_store.specs.KeptMaps.{HoldMaps, HasRoom};

    /// Nothing is mapped. Takes no memory.
    pub fn new(alloc: Global) -> MapTable
        ensures { (opening : Start) → HoldMaps result opening [] }
    {
        MapTable {
            items: Vec::new(alloc),
        }
    }

    /// The first address of an object that a process has mapped.
    pub fn address_of(&self, p: ProcId, uid: Uid) -> Option<u32>
        ensures segment { IfSome result (λ a. (a % SEGMENT_SIZE ≡ 0) × (a < SEGMENTS * SEGMENT_SIZE)) }
        ensures mapped { (opening : Start) → (past : List StoreEffect) → HoldMaps self.now opening past → result ≡ option_map (λ m. m.address) (find (λ m. same_uid uid m.uid) (mappings p past)) }
    {
        match mapping_of(&self.items, p, uid) {
            Some(mapped) => Some(mapped.low()),
            None => None,
        }
    }

    /// The object and the offset in it that a spot of a process names; None where nothing is mapped there.
    pub fn target_of(&self, p: ProcId, spot: Spot) -> Option<(Uid, u32)>
        ensures named { (opening : Start) → (past : List StoreEffect) → HoldMaps self.now opening past → target_given result ≡ target opening past p spot }
        ensures page { IfSome result (λ t. t.1 % PAGE_BYTES ≡ offset_in_page spot) }
        ensures unmapped { result ≡ None → IsTrue (is_address spot) }
    {
        match spot {
            Spot::Of(uid, offset) => Some((uid, offset)),
            Spot::Addr(address) => match mapping_at(&self.items, p, address) {
                Some(mapped) => Some((mapped.uid, address - mapped.low())),
                None => None,
            },
        }
    }

    /// How many mappings a process has.
    pub fn count_of(&self, p: ProcId) -> usize
        ensures { (opening : Start) → (past : List StoreEffect) → HoldMaps self.now opening past → result ≡ length (mappings p past) }
    {
        count_maps(&self.items, p)
    }

    /// The first of the lowest run of free segments that an object of a room takes.
    pub fn run_of(&self, p: ProcId, room: u32) -> Option<u16>
        ensures lowest { (opening : Start) → (past : List StoreEffect) → HoldMaps self.now opening past → result ≡ lowest_run_of opening past p (segments room) }
        ensures bound { IfSome result (λ first. first < 256) }
    {
        lowest_run(&self.items, p, segments_of(room))
    }

    /// Makes room for one change.
    pub fn reserve(&mut self) -> Result<(), NoMemory>
        ensures room { OnOk result (HasRoom self.new) }
        ensures held { (opening : Start) → (past : List StoreEffect) → HoldMaps self.old opening past → HoldMaps self.new opening past }
    {
        self.items.reserve(1)?;
        Ok(())
    }

    /// Takes in what a deed does, for which there is room.
    pub fn change(&mut self, deed: &Deed, objects: &ObjectTable)
        requires room { HasRoom self.old }
        requires fits { Fits deed.now.op deed.now.reply }
        requires made { IsOfMade objects.now.made.items deed.now.op deed.now.reply }
        ensures { (opening : Start) → (past : List StoreEffect) → HoldObjects objects.now opening past → HoldMaps self.old opening past → HoldMaps self.new opening (with_deed deed.now past) }
    {
        match change_of(deed, objects) {
            MapChange::Mapping(mapped) => match self.items.insert(0, mapped) {
                Ok(()) => {}
                Err(_) => unreachable!(),
            },
            MapChange::Unmapping(p, uid) => remove_mapping(p, uid, &mut self.items),
            MapChange::Same => {}
        }
    }
}
