//! The address space of a process.
ghost use Rattle.std.specs.Prelude.{◌≡◌, ◌≤◌, [], Some, None, is_ok, is_some, IfOk, OnErr};
ghost use Rattle.uid_names.specs.declared.limits.TheConstants.{MAX_ROOM};
ghost use Rattle.uid_names.specs.Segments.{segments};
ghost use Rattle.address_map.specs.Mappings.{mapping_of, mapping_at, target_in, without_mapping};
ghost use Rattle.address_map.specs.Runs.{lowest_run};
ghost use Rattle.address_map.specs.Maps.{is_full, map_answer, mappings_after};

use crate::mapping::{Mapping, lowest_run, mapping_at, mapping_of};
use std::alloc::Global;
use std::marker::Model;
use thiserror::Error;
use uid_names::{NoMemory, PROCESS_MAPPINGS, Uid, segments};

/// Why an object is not mapped.
#[derive(Clone, Copy, Debug, PartialEq, Eq, Error)]
pub enum MapRefusal {
    /// As many mappings stand as there can be.
    #[error("too many mappings")]
    TooManyMaps,
    /// No run of free segments is long enough.
    #[error("no run of free segments is long enough")]
    NoSegment,
}

/// Nothing is mapped there.
#[derive(Clone, Copy, Debug, PartialEq, Eq, Error)]
#[error("nothing is mapped there")]
pub struct NotMapped;

/// The mappings of a process, in the order in which they were made.
#[derive(Drop, Debug)]
pub struct AddressMap {
    mappings: Vec<Mapping>,
}

impl Model for AddressMap {
    ghost use Rattle.std.specs.Prelude.{◌≤◌, List, vec_capacity};
    ghost use Rattle.uid_names.specs.declared.limits.TheConstants.{PROCESS_MAPPINGS};
    ghost use Rattle.address_map.specs.declared.mapping.Mapping.{Mapping};
    ghost use Rattle.address_map.specs.Maps.{IsLayout};

    ghost Value = { List Mapping };

    ghost view = { λ m. m.mappings.items };

    ghost invariant = { λ m. IsLayout m.mappings.items × (PROCESS_MAPPINGS ≤ vec_capacity m.mappings) };
}

impl AddressMap {
    /// Nothing is mapped. Makes room for as many mappings as there can be.
    pub fn new(alloc: Global) -> Result<AddressMap, NoMemory>
        ensures { IfOk result (λ map. map ≡ []) }
    {
        let mappings = Vec::with_capacity(alloc, PROCESS_MAPPINGS)?;
        Ok(AddressMap { mappings })
    }

    /// Maps an object of a room in pages, and answers its first address and whether the mapping is a new one.
    /// An object that is mapped stays where it is. TooManyMaps and NoSegment come in this order, and change nothing.
    /// Takes no memory.
    pub fn map(&mut self, uid: Uid, room: u32) -> Result<(u32, bool), MapRefusal>
        requires least { 1 ≤ room }
        requires greatest { room ≤ MAX_ROOM }
        ensures answer { result
            ≡ map_answer (mapping_of uid self.old) (is_full self.old) (lowest_run (segments room) self.old) }
        ensures mapped { self.new
            ≡ mappings_after uid (segments room) (mapping_of uid self.old) (is_full self.old) (lowest_run (segments room) self.old) self.old }
    {
        if let Some(mapping) = mapping_of(&self.mappings, uid) {
            return Ok((mapping.address(), false));
        }
        if self.mappings.len() >= PROCESS_MAPPINGS {
            return Err(MapRefusal::TooManyMaps);
        }
        let segments = segments(room);
        match lowest_run(&self.mappings, segments) {
            None => Err(MapRefusal::NoSegment),
            Some(first) => {
                let mapping = Mapping {
                    uid,
                    first,
                    segments,
                };
                match self.mappings.push(mapping) {
                    Ok(()) => Ok((mapping.address(), true)),
                    // There is room for as many as there can be.
                    Err(_) => unreachable!(),
                }
            }
        }
    }

    /// Ends the mapping of an object; NotMapped exactly where it has none. Takes no memory.
    pub fn unmap(&mut self, uid: Uid) -> Result<(), NotMapped>
        ensures answer { is_ok result ≡ is_some (mapping_of uid self.old) }
        ensures unmapped { self.new ≡ without_mapping uid self.old }
        ensures refused { OnErr result (self.new ≡ self.old) }
    {
        if mapping_of(&self.mappings, uid).is_none() {
            return Err(NotMapped);
        }
        self.mappings.retain(|mapping| !uid.is(mapping.uid));
        Ok(())
    }

    /// The object that is mapped at an address, and the offset there in bytes; NotMapped exactly where
    /// the address lies in the segments of no mapping. Takes no memory.
    pub fn find(&self, address: u32) -> Result<(Uid, u32), NotMapped>
        ensures found { IfOk result (λ target. target_in address (mapping_at address self.now) ≡ Some target) }
        ensures refused { OnErr result (mapping_at address self.now ≡ None) }
    {
        match mapping_at(&self.mappings, address) {
            Some(mapping) => Ok((mapping.uid, address - mapping.address())),
            None => Err(NotMapped),
        }
    }
}
