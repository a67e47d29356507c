//! The numbers that give an account of the link faults of a run.

/// How many operations were ended by a link fault, how many notices told of a frame that did not arrive in time, and how many
/// frames that were sent are lost or late.
#[derive(Clone, Copy, Debug, PartialEq, Eq)]
pub struct Account {
    pub link_faults: u64,
    pub notices: u64,
    pub marked: u64,
}
