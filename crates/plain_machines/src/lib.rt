//! Machines of names, streams and mailboxes that one plain store serves, from their first operation to their result. It is
//! for tests: the program `name_walks` and the walks of `test_names` stand on it, so that it is proved once.
#![tactic(auto)]

pub mod machines;
pub mod mails;
pub mod refusals;
pub mod streams;
pub mod undone;
pub mod world;
