//! Nodes at which the events of a journal are done, one after the other, and what each does compared with its line. The program
//! `node_walks` reads cases and plays them; what plays them is this library, so that it is proved once.
#![tactic(auto)]

pub mod fault;
mod nodes;
pub mod play;
