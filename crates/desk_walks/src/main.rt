//! Frames, homes and desks under test: each line of standard input names a case, a file of calls with what each comes to. It
//! is printed how many calls were tried, or which line comes to something else. No program stands on it.
#![tactic(auto)]

use anyhow::Result;
use desk_bench::play;
use std::fs;

fn main(rt: HostRuntime) -> Result<()> {
    for name in rt.lines(rt.alloc()) {
        let name = name?;
        let text = fs::read_to_string(&rt, name.as_str())?;
        let came = play(rt.alloc(), text.as_str())?;
        println!(rt; "{name}: {came}")?;
    }
    Ok(())
}
