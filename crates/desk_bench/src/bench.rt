//! What is under test.
use crate::desks::DeskBench;
use crate::homes::HomeBench;
use crate::words::MOST;
use crate::{frames, walks, words};
use anyhow::{Result, bail};
use std::alloc::Global;

/// Frames and walks stand for themselves; a home or a desk goes on from call to call.
#[derive(Drop)]
pub enum Bench {
    Frames,
    Walks,
    Home(HomeBench),
    Desk(DeskBench),
}

impl Bench {
    /// What a line names: `frames`, `walks`, `home` with the name of its opening, or `desk` with how many frames it has.
    pub fn new(alloc: Global, words: &[&str; MOST]) -> Result<Bench> {
        Ok(match words[0] {
            "frames" => Bench::Frames,
            "walks" => Bench::Walks,
            "home" => Bench::Home(HomeBench::new(alloc, words[1])?),
            "desk" => Bench::Desk(DeskBench::new(alloc, words::number32(words[1])?)?),
            _ => bail!("nothing to try"),
        })
    }

    /// Takes a call; what is under test then, and what the call comes to.
    pub fn call(self, alloc: Global, words: &[&str; MOST]) -> Result<(Bench, String)> {
        match self {
            Bench::Frames => Ok((Bench::Frames, frames::call(alloc, words)?)),
            Bench::Walks => Ok((Bench::Walks, walks::call(alloc, words)?)),
            Bench::Home(home) => {
                let mut home = home;
                let came = home.call(alloc, words)?;
                Ok((Bench::Home(home), came))
            }
            Bench::Desk(desk) => {
                let (desk, came) = desk.call(alloc, words)?;
                Ok((Bench::Desk(desk), came))
            }
        }
    }
}
