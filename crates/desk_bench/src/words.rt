//! The words of a line, and what they stand for.
use anyhow::{Context, Result, bail};
use uid_names::{Mode, NodeId, ObjKind, ProcId, Uid};

/// How many words of a line are read.
pub const MOST: usize = 12;

/// The first words of a line. Those that are missing are empty.
pub fn of(line: &str) -> [&str; MOST] {
    let mut words = [""; MOST];
    let mut rest = line.split_whitespace();
    for place in 0..MOST {
        words[place] = rest.next().unwrap_or("");
    }
    words
}

/// The six words behind the first two.
pub fn behind_two<'a>(words: &[&'a str; MOST]) -> [&'a str; 6] {
    let [_, _, first, second, third, fourth, fifth, sixth, ..] = *words;
    [first, second, third, fourth, fifth, sixth]
}

pub fn number(word: &str) -> Result<u64> {
    word.parse::<u64>().ok().context("no number")
}

pub fn number32(word: &str) -> Result<u32> {
    word.parse::<u32>().ok().context("no number below 2^32")
}

pub fn number8(word: &str) -> Result<u8> {
    word.parse::<u8>().ok().context("no number below 256")
}

pub fn node(word: &str) -> Result<NodeId> {
    NodeId::new(number8(word)?).context("no node")
}

/// A process, as `1.4`: the node, and the number there.
pub fn proc(word: &str) -> Result<ProcId> {
    let (at, place) = word.split_once('.').context("no process")?;
    ProcId::new(node(at)?, number8(place)?).context("no process")
}

/// An object, as `2@1`: the counter, and the home.
pub fn object(word: &str) -> Result<Uid> {
    let (counter, home) = word.split_once('@').context("no object")?;
    let (counter, home) = (number(counter)?, node(home)?);
    if counter < 1 || counter >= 1 << 44 {
        bail!("no counter");
    }
    Ok(Uid::from_parts(counter, home))
}

/// `r`, `w` or `c`.
pub fn mode(word: &str) -> Result<Mode> {
    let letter = word.as_bytes().first().context("no mode")?;
    Mode::from_letter(*letter).context("no mode")
}

/// A kind of objects, by its number in a frame.
pub fn kind(word: &str) -> Result<ObjKind> {
    ObjKind::from_code(number8(word)?).context("no kind")
}
