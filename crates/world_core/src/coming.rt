//! The events that may come to a node.
use dom_history::What;

/// Where an event finds what it receives: it receives nothing, or a notice of the node's, or the oldest entry of a link,
/// by their places.
#[derive(Clone, Copy, Debug, PartialEq, Eq)]
pub enum Source {
    Nothing,
    Notice(usize),
    Link(usize),
}

/// An event that may come to a node.
#[derive(Clone, Copy, Debug, PartialEq, Eq)]
pub struct Coming {
    pub what: What,
    pub source: Source,
}
