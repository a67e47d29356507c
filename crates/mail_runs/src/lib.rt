//! Mailboxes in the runs of scripts: what was taken out of one is what was put into it first, by the history alone.
#![tactic(auto)]

pub mod laws;
