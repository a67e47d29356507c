//! The program `count_up`: processes at three nodes count up one number under a lock, by turns and by threads. What each of them saw last
//! is printed: the sum of what they added.
#![tactic(auto)]

mod counter;
mod nodes;
mod runs;

use anyhow::Result;

/// How often each process adds one.
const ROUNDS: u32 = 5;

/// The number by which the turns are drawn.
const SEED: u64 = 1;

fn main(rt: HostRuntime) -> Result<()> {
    let sum = runs::by_turns(rt.alloc(), ROUNDS, SEED)?;
    println!(rt; "by turns: {sum}")?;
    let sum = runs::by_threads(&rt, rt.alloc(), ROUNDS)?;
    println!(rt; "by threads: {sum}")?;
    Ok(())
}
