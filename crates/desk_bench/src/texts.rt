//! What is told: a word, and its parts behind it.
use std::alloc::{AllocError, Global};
use uid_names::{Mode, ProcId, Uid};

/// A part of what is told.
#[derive(Clone, Copy)]
pub enum Part {
    /// Whether there are more.
    More(bool),
    /// A mapping that is fresh.
    Fresh,
    Number(u64),
    Letter(Mode),
    Object(Uid),
    Proc(ProcId),
}

/// A word, and its parts behind it.
pub fn told(alloc: Global, word: &str, parts: &[Part]) -> Result<String, AllocError> {
    let mut text = format!(in alloc; "{word}")?;
    for part in parts {
        text = with_part(alloc, text.as_str(), *part)?;
    }
    Ok(text)
}

/// A text with one more part. An object is its counter and its home, and a process its node and its number there.
fn with_part(alloc: Global, text: &str, part: Part) -> Result<String, AllocError> {
    match part {
        Part::More(true) => format!(in alloc; "{text} more"),
        Part::More(false) => format!(in alloc; "{text} all"),
        Part::Fresh => format!(in alloc; "{text} fresh"),
        Part::Number(number) => format!(in alloc; "{text} {number}"),
        Part::Letter(mode) => with_letter(alloc, text, mode),
        Part::Object(uid) => with_object(alloc, text, uid),
        Part::Proc(proc) => with_proc(alloc, text, proc),
    }
}

fn with_letter(alloc: Global, text: &str, mode: Mode) -> Result<String, AllocError> {
    let letter = char::from(mode.letter());
    format!(in alloc; "{text} {letter}")
}

fn with_object(alloc: Global, text: &str, uid: Uid) -> Result<String, AllocError> {
    let (counter, home) = (uid.counter(), uid.home().number());
    format!(in alloc; "{text} {counter}@{home}")
}

fn with_proc(alloc: Global, text: &str, proc: ProcId) -> Result<String, AllocError> {
    let (node, number) = (proc.node().number(), proc.number());
    format!(in alloc; "{text} {node}.{number}")
}
