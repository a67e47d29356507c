//! The limits of a store, each said here alone.

/// The bytes of a page.
pub const PAGE_BYTES: usize = 1024;

/// The greatest room of an object, in pages.
pub const MAX_ROOM: u32 = 4096;

/// The greatest length of an object, in bytes: all pages of the greatest room.
pub const MAX_LENGTH: u32 = MAX_ROOM * PAGE_BYTES as u32;

/// The greatest room that scripts and frames of version 1 can write, in pages. Those of version 2 can write each room.
pub const FIRST_ROOM: u32 = 1024;

/// The room of a node's entry directory, in pages.
pub const ENTRY_ROOM: u32 = 8;

/// The greatest sum of the rooms of a node's objects, in pages.
pub const VOLUME_ROOM: u32 = 16_384;

/// The greatest number of nodes.
pub const MAX_NODES: u8 = 8;

/// The greatest number of processes of a node.
pub const NODE_PROCESSES: usize = 4;

/// The greatest number of processes of all nodes.
pub const PROCESSES: usize = 32;

/// The greatest number of objects on which a process is not free.
pub const PROCESS_LOCKS: usize = 8;

/// The greatest number of mappings of a process.
pub const PROCESS_MAPPINGS: usize = 16;

/// The greatest number of lock rows that one answer lists.
pub const LISTED_ROWS: usize = 64;

/// The greatest number of phases.
pub const MAX_PHASES: u32 = 1000;

/// The greatest number of bytes of a script.
pub const SCRIPT_BYTES: u32 = 1_048_576;
