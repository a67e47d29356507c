//! aegis_shell under test: shells that one store serves. They are tried here since a crate that has tests is proved twice. No program
//! stands on it.
#![tactic(auto)]

#[cfg(test)]
mod shells;
