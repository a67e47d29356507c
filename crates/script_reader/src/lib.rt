//! Reads scripts: from bytes to nodes, objects, a fault plan and commands, or to the first bad line.
#![tactic(auto)]

mod arguments;
pub mod cause;
pub mod command;
pub mod draft;
mod forms;
mod index;
pub mod laws;
mod line;
mod numbers;
mod reader;
mod said;
pub mod script;
mod words;

pub use cause::{Cause, ScriptFault};
pub use command::Command;
pub use draft::Draft;
pub use reader::read_script;
pub use script::{CommandRow, NodeRow, Script, SubjectRow, VarRow};
