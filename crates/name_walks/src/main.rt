//! The program `name_walks`: does what the cases of its input say by names and streams over one plain store, and tells
//! of each case how many rows came to what they say, and the first that came to something else. What rows say was
//! worked out by hand.
#![tactic(auto)]

mod cases;
mod records;
mod rows;

use anyhow::Result;
use cases::tried;
use dom_io::{RealSink, RealSource, read_all, write_all};
use std::io;

/// The most bytes of the input.
const MOST_BYTES: u32 = 1_000_000;

fn main(rt: HostRuntime) -> Result<()> {
    let mut source = RealSource::new(rt.reader());
    let text = read_all(rt.alloc(), &mut source, MOST_BYTES)?;
    let said = tried(rt.alloc(), text.bytes())?;
    let mut sink = RealSink::new(io::writer(&rt));
    write_all(&mut sink, said.bytes())?;
    Ok(())
}
