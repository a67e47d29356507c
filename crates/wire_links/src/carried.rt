//! What goes through a ring.
use crate::spelled::{Spelled, Tick};
use ring_links::Entry;
use ring_messages::Copied;
use std::alloc::Global;
use uid_names::NoMemory;

/// What an entry of a link carries: the bytes of a frame, or a mark's tick.
#[derive(Debug)]
pub enum Parcel {
    Frame(Spelled),
    Mark(Tick),
}

// Of its own, so that what drops one calls this and does not take it apart in place.
impl Drop for Parcel {
    fn drop(self) {
        match self {
            Parcel::Frame(_) | Parcel::Mark(_) => {}
        }
    }
}

impl Copied for Parcel {
    fn copy(&self, alloc: Global) -> Result<Parcel, NoMemory> {
        match self {
            Parcel::Frame(bytes) => Ok(Parcel::Frame(bytes.copy(alloc)?)),
            Parcel::Mark(tick) => Ok(Parcel::Mark(*tick)),
        }
    }
}

/// An entry of the link; or in the place of a reply that is lost or late, its process, its call's number, its number on the link and its
/// tick.
#[derive(Drop, Debug)]
pub enum Carried {
    Put(Entry<Parcel>),
    Gone {
        proc: u8,
        number: u64,
        index: u64,
        tick: Tick,
    },
}
