//! Frames, homes and desks under test: calls by their words, and what each comes to. The program `desk_walks` reads cases and
//! plays them; what it plays them on is this library, so that it is proved once.
#![tactic(auto)]

mod bench;
mod bodies;
mod desks;
mod driver;
mod frames;
mod homes;
mod plain_home;
mod questions;
mod texts;
mod walks;
mod words;

use anyhow::Result;
use bench::Bench;
use std::alloc::Global;

/// What comes of a case. A line is a call, ` = ` and what it comes to; or what is tried from there on; or a remark behind a
/// `#`; or empty. The answer says how many calls were tried, or which line comes to something else; there is an error where a
/// line cannot be read, or where there is no memory.
pub fn play(alloc: Global, text: &str) -> Result<String> {
    let mut bench = Bench::Frames;
    let (mut place, mut tried) = (0u32, 0u32);
    for line in text.lines() {
        place = place.wrapping_add(1);
        if line.is_empty() || line.starts_with('#') {
            continue;
        }
        let Some((call, wanted)) = line.split_once(" = ") else {
            bench = Bench::new(alloc, &words::of(line))?;
            continue;
        };
        let (next, came) = bench.call(alloc, &words::of(call))?;
        if came.as_str() != wanted {
            return Ok(format!(in alloc; "line {place} comes to {came}")?);
        }
        bench = next;
        tried = tried.wrapping_add(1);
    }
    Ok(format!(in alloc; "{tried} calls")?)
}
