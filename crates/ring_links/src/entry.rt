//! What waits on a link.

/// What waits: a copy of the frame of this number on the link, or the mark of a phase.
#[derive(Clone, Copy, Debug, PartialEq, Eq)]
pub enum Waiting {
    Copy(u64),
    Mark(u32),
}

/// What waits, with what the event receives that takes it.
#[derive(Drop, Debug)]
pub struct Entry<T> {
    pub waiting: Waiting,
    pub received: T,
}
