//! What a node keeps by objects and processes, under test: its locks, its calls, the stamps that it saw and its mappings. They are
//! tried here since a crate that has tests is proved twice. No program stands on it.
#![tactic(auto)]

#[cfg(test)]
mod calls;
#[cfg(test)]
mod locks;
#[cfg(test)]
mod mappings;
#[cfg(test)]
mod stamps;
