//! script_runner and node_threads under test: streams in memory, streams that fail, and the last tick; stop flags, gates, and nodes that
//! run at once. They stand apart since a crate that has tests is proved twice. No program stands on it.
#![tactic(auto)]

#[cfg(test)]
mod flags;
#[cfg(test)]
mod gates;
#[cfg(test)]
mod runs;
