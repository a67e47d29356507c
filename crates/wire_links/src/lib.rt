//! The two ends of a link between nodes over a ring, as waiting links have it: frames as bytes, marks and lost places, by the fates of frames.
#![tactic(auto)]

pub mod carried;
pub mod fates;
pub mod laws;
pub mod spelled;
pub mod wire;

pub use carried::{Carried, Parcel};
pub use fates::LinkFates;
pub use spelled::{Spelled, Tick};
pub use wire::{RING_ROOM, WireIn, WireOut, pair, pair_with_room};
