//! The program `chart_cases`: draws charts for a terminal and as pictures, and compares what it drew with files. Standard input has the
//! names of the charts, one a line. In `data/` a chart NAME is described by `NAME.chart`, and drawn in `NAME.txt` and `NAME.svg`, which
//! were looked at by eye. What differs is printed whole. No program stands on it.
//!
//! ```text
//! two nodes
//! a b
//! event 1 0 a.1.1 lock x w
//! event 2 1 takes LockAsk
//! mark 5 1 phase 1
//! sent 0 1 1 LockAsk x w
//! copy 0 1 lost LockAsk x w
//! ```
//!
//! The first line is the title, the second has the names of the lanes. An event or a mark has its tick, its lane and its label. An arrow
//! has the place of the event that it starts at, the lane that it goes to, that of the event that takes it or `lost` or `never`, and its label.
#![tactic(auto)]

mod described;

use anyhow::Result;
use described::read_chart;
use dom_io::{RealSink, write_all};
use lane_charts::{draw_svg, draw_text};
use std::{fs, io};

/// How many bytes the lines of a terminal have.
const WIDTH: usize = 100;

/// Tells whether what was drawn is what stands in a file.
fn tell(rt: &HostRuntime, file: &str, drawn: &[u8]) -> Result<()> {
    let wanted = fs::read_to_string(rt, file)?;
    if wanted.as_bytes() == drawn {
        println!(rt; "{file}: as it stands there")?;
        return Ok(());
    }
    println!(rt; "{file}: DIFFERS, and is drawn as")?;
    let mut sink = RealSink::new(io::writer(rt));
    write_all(&mut sink, drawn)?;
    Ok(())
}

/// Draws a chart, and tells of it.
fn try_chart(rt: &HostRuntime, name: &str) -> Result<()> {
    let file = format!(in rt.alloc(); "{name}.chart")?;
    let description = fs::read_to_string(rt, file.as_str())?;
    let chart = read_chart(rt.alloc(), description.as_str())?;
    let text = draw_text(rt.alloc(), &chart, WIDTH)?;
    let file = format!(in rt.alloc(); "{name}.txt")?;
    tell(rt, file.as_str(), text.bytes())?;
    let picture = draw_svg(rt.alloc(), &chart)?;
    let file = format!(in rt.alloc(); "{name}.svg")?;
    tell(rt, file.as_str(), picture.bytes())
}

fn main(rt: HostRuntime) -> Result<()> {
    for name in rt.lines(rt.alloc()) {
        let name = name?;
        try_chart(&rt, name.as_str())?;
    }
    Ok(())
}
