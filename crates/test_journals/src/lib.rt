//! journal_text under test: journals that were worked out by hand are written and read. It stands apart since a crate that has tests
//! is proved twice. No program stands on it.
#![tactic(auto)]

#[cfg(test)]
mod journals;
