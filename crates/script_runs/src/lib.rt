//! What a script gives its nodes; its runs that have ended, and the one that a seed picks; their answers and reports, by their history
//! alone; and laws of them.
#![tactic(auto)]

pub mod laws;
