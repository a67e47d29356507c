//! All nodes on one thread: what they send one another waits on links by a fault plan, and one event of one node is done
//! after the other.
#![tactic(auto)]

pub mod account_row;
pub mod accounting;
mod coming;
pub mod laws;
mod notices;
mod run;
mod sending;
mod station;
pub mod world;

pub use account_row::Account;
pub use accounting::account;
pub use world::World;
