//! Access lists under test: which texts are lists, and what they decide. They are tried here since a crate that has tests is
//! proved twice. No program stands on it.
#![tactic(auto)]

#[cfg(test)]
mod decisions;
#[cfg(test)]
mod texts;
