//! The program `measure`: how fast the parts of the store are. `measure NAME COUNT` does a measure so often and prints its
//! rate; `measure all` does each but those by threads five times, and prints nothing that varies; `measure` prints the names.
#![tactic(auto)]

use anyhow::Result;
use dom_text::decimal;
use std::env;
use std::sync::Wait;
use std::thread::Threads;
use timed_work::{NAMES, take};

fn run_one<R: Threads + Wait + Sync>(
    rt: &HostRuntime,
    threads: &R,
    name: &str,
    count: &str,
) -> Result<()> {
    let count = u32::try_from(decimal(count.as_bytes())?)?;
    let (done, micros) = take(rt, threads, name, count)?;
    let millions = done.saturating_mul(1_000_000);
    let rate = millions.checked_div(micros).unwrap_or(0);
    println!(rt; "{name}: {done} in {micros} microseconds of processor time, {rate} a second")?;
    Ok(())
}

fn main(rt: HostRuntime) -> Result<()> {
    let mut words = Vec::new(rt.alloc());
    for word in env::args(&rt)?.skip(1) {
        words.push(word)?;
    }
    match words.as_slice() {
        [name, count] => run_one(&rt, &rt, name.as_str(), count.as_str())?,
        [all] if all.as_str() == "all" => {
            // How long threads take hangs on the machine, so what they do is measured by name alone.
            for name in NAMES
                .split(' ')
                .filter(|name| !name.starts_with("threads-"))
            {
                let (done, _) = take(&rt, &rt, name, 5)?;
                println!(rt; "{name}: {done}")?;
            }
        }
        _ => println!(rt; "usage: measure all | measure NAME COUNT, NAME one of {NAMES}")?,
    }
    Ok(())
}
