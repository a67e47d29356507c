//! Caches and stores of pages under test. They are tried here since a crate that has tests is proved twice. No program stands on it.
#![tactic(auto)]

#[cfg(test)]
mod caches;
#[cfg(test)]
mod stores;
