//! Directories as their bytes, and paths as their texts.
#![tactic(auto)]

mod component;
mod directory;
pub mod laws;
mod listing;
mod names;
mod path;
mod row;
mod slot;

pub use component::Component;
pub use directory::{DirFault, DirRows, Directory, MOST_RECORDS, read_dir};
pub use listing::by_name;
pub use names::Names;
pub use path::{Route, Start, is_path};
pub use row::{DirRow, RECORD_BYTES, write_row};
