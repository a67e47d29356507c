//! From bytes to a run, and from a run to the bytes of its journal. What a journal must be that is one of a script: an ended, planned and
//! recent run of it; and where one that is not is at fault.
#![tactic(auto)]

pub mod checked;
pub mod laws;
