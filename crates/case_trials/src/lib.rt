//! Cases of whole scripts, tried: each is run as `domain` runs it, over streams that take few bytes at a time, fail or never end where
//! its head says so, and what it comes to is compared with what it says. The program `run_cases` reads cases and tells of them; what
//! tries them is this library, so that it is proved once.
#![tactic(auto)]

mod accounts;
mod case;
mod cuts;
mod facts;
mod running;
mod stops;
mod streams;
mod trial;

pub use case::Case;
pub use trial::{Tried, try_case};
