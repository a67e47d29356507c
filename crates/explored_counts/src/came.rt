//! What came of one number of turns.
use run_outcomes::Outcome;

/// What came of a number of turns.
#[derive(Drop, Debug)]
pub enum CameOf {
    /// The answers of all processes.
    Answers(Outcome),
    /// A node came to the last tick.
    LastTick,
    /// There was no memory.
    NoMemory,
}
