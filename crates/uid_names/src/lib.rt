//! Names of nodes, processes and objects, and the plain types that all layers share.
#![tactic(auto)]

pub mod byte_list;
pub mod frame_kind;
pub mod ids;
pub mod item_list;
pub mod laws;
pub mod limits;
pub mod lock_row;
pub mod mode;
pub mod no_memory;
pub mod opening;
pub mod segment;
pub mod table;
pub mod wire;

pub use byte_list::{ByteList, ByteRoom};
pub use frame_kind::FrameKind;
pub use ids::{BadUid, NodeId, Place, ProcId, Uid, UidSource};
pub use item_list::ItemList;
pub use limits::{
    ENTRY_ROOM, FIRST_ROOM, LISTED_ROWS, MAX_LENGTH, MAX_NODES, MAX_PHASES, MAX_ROOM,
    NODE_PROCESSES, PAGE_BYTES, PROCESS_LOCKS, PROCESS_MAPPINGS, PROCESSES, SCRIPT_BYTES,
    VOLUME_ROOM,
};
pub use lock_row::{LockRow, LockRows};
pub use mode::{Mode, ObjKind, clash};
pub use no_memory::NoMemory;
pub use opening::{Object, Opening};
pub use segment::{SEGMENT_PAGES, SEGMENT_SIZE, SEGMENTS, segments};
pub use table::{UidRow, UidTable};
pub use wire::wire_room;
