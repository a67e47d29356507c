//! Bytes from outside and to outside: sources, sinks, and reading and writing them whole.
#![tactic(auto)]

mod calls;
pub mod memory;
pub mod outside;
pub mod real;
pub mod whole;

pub use memory::{MemSink, MemSource};
pub use outside::{Sink, Source, Took};
pub use real::{RealSink, RealSource};
pub use whole::{ReadEnd, WriteFault, read_all, write_all};
