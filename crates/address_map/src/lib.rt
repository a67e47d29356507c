//! The mappings of a process: which objects stand at which addresses.
#![tactic(auto)]

pub mod laws;
pub mod map;
pub mod mapping;

pub use map::{AddressMap, MapRefusal, NotMapped};
pub use mapping::Mapping;
