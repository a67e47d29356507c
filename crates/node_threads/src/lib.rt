//! Nodes, each served in a thread of its own, until all have ended: their logs, and the programs of their processes.
#![tactic(auto)]

pub mod alone;
pub mod flag;
pub mod gate;
pub mod group;
pub mod joining;
pub mod laws;
pub mod looks;
pub mod run;
pub mod serving;
pub mod threads;
mod told;

pub use flag::StopFlag;
pub use gate::{Gate, OpenGate};
pub use group::serve_group;
pub use node_posts::{Post, make_posts};
pub use run::run_all;
