//! Laws of all runs. Calls, desks and homes: the answers, the acts and the phases of runs, what the events of a node do to its desk and
//! what its open calls carry, and that homes are what the history says. Effects: what a run did and told is what the history says.
//! Contents: what objects held at their stamps. Moves: desks and homes reply as one store does. Left: what processes leave at home.
//! Ends: where no event is enabled, all nodes have ended. Faults and accounts: what link faults come to. Every: all of it by one law.
#![tactic(auto)]

pub mod accounts;
pub mod calls;
pub mod contents;
pub mod desks;
pub mod effects;
pub mod ends;
pub mod every;
pub mod faults;
pub mod homes;
pub mod left;
pub mod moves;
