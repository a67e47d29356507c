//! What is asked of the program.
ghost use Rattle.std.specs.Prelude.{◌≤◌};

use uid_names::{ByteList, ItemList};

/// Numbers of turns, from the first up to the end, which is none of them, and how many threads run them, if that is said.
#[derive(Clone, Copy, Debug, PartialEq, Eq)]
pub struct Numbers {
    pub first: u64,
    pub end: u64,
    pub threads: Option<u64>,
    ghost order: { first ≤ end },
}

/// Two numbers of turns whose runs are compared, and how wide lanes are drawn, if that is said.
#[derive(Clone, Copy, Debug, PartialEq, Eq)]
pub struct Compared {
    pub first: u64,
    pub second: u64,
    pub width: Option<u64>,
}

/// Which events of a run are shown, by names, and how.
#[derive(Drop, Debug)]
pub struct Shown {
    pub is_picture: bool,
    pub width: Option<u64>,
    pub from: Option<u64>,
    pub to: Option<u64>,
    pub object: Option<ByteList>,
    pub page: Option<u32>,
    pub command: Option<ByteList>,
}

/// What is asked of the program.
#[derive(Drop, Debug)]
pub enum Asked {
    /// The events of a run as lanes; the number picks the run where no journal does.
    Lanes(u64, Shown),
    /// What a run counts.
    Counts(u64),
    /// Where the runs of two numbers differ; a journal stands for the first.
    Diff(Compared),
    /// What comes of each of these numbers.
    Explore(Numbers),
    /// The lowest of them whose journal has a line with these words in order.
    Find(Numbers, ItemList<ByteList>),
}
