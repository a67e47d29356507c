//! The shell of a process: what the commands of a script ask of the store, and how they are answered.
#![tactic(auto)]

mod answer;
mod begin;
mod bindings;
mod go;
pub mod laws;
mod names;
mod operation;
mod progress;
mod shell;
mod stage;
mod talking;
mod work;
mod working;

pub use shell::Shell;
