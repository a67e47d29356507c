//! Laws of what processes read. Histories: what a process that reads an object is told, in any history of one store. Lists: what an
//! access list said to a command is what one store had in it, also in every run of a script.
#![tactic(auto)]

pub mod histories;
pub mod lists;
