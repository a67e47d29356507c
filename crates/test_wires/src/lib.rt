//! What waits on a link, the two ends of one over a ring, and the places of events, under test. They are tried here since a crate that has tests is
//! proved twice. No program stands on it.
#![tactic(auto)]

#[cfg(test)]
mod links;
#[cfg(test)]
mod places;
#[cfg(test)]
mod rings;
