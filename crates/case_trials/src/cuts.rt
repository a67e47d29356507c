//! What the first bytes of a script come to.
use crate::running::{Outcome, Streams, run};
use anyhow::{Context, Result, bail};
use script_reader::{ScriptFault, read_script};
use std::alloc::Global;
use std::sync::Wait;
use std::thread::Threads;
use uid_names::ByteList;

/// What is said of a run of the first bytes of a script.
#[derive(Drop)]
pub(crate) enum CutEnd {
    /// They are refused, with this text.
    Refused(ByteList),
    /// They are a script, and the report is so many lines of that of the whole.
    Accepted(u64),
    /// They are refused or not as the reader of scripts has it.
    AsRead,
}

/// What is said of the first bytes of a script, from so many of them to so many.
#[derive(Drop)]
pub(crate) struct Cut {
    pub(crate) first: usize,
    pub(crate) last: usize,
    pub(crate) end: CutEnd,
}

/// The first lines of a text.
fn first_lines(text: &[u8], lines: u64) -> &[u8] {
    let mut left = lines;
    for i in 0..text.len() {
        if left == 0 {
            return &text[..i];
        }
        if text[i] == b'\n' {
            left -= 1;
        }
    }
    text
}

/// Whether a run was refused with this text.
fn is_refused(outcome: &Outcome, text: &[u8]) -> bool {
    outcome.status == 3 && outcome.out.bytes.as_slice() == text && outcome.journal.bytes.is_empty()
}

/// Whether a run of these bytes was refused or not as the reader of scripts has it.
fn is_as_read(alloc: Global, script: &[u8], outcome: &Outcome) -> Result<bool> {
    match read_script(alloc, script) {
        Ok(_) => Ok(outcome.status == 0),
        Err(ScriptFault::Bad { line, cause }) => {
            let text = format!(in alloc; "line {line}: {}\n", cause.text())?;
            Ok(is_refused(outcome, text.as_bytes()))
        }
        Err(ScriptFault::NoMemory) => bail!("no memory for a script"),
    }
}

impl Cut {
    /// Whether a run of these first bytes of a script with this report came to what is said.
    fn is_so(
        &self,
        alloc: Global,
        script: &[u8],
        report: &[u8],
        outcome: &Outcome,
    ) -> Result<bool> {
        match &self.end {
            CutEnd::Refused(text) => Ok(is_refused(outcome, text.bytes())),
            CutEnd::Accepted(lines) => {
                let due = first_lines(report, *lines);
                Ok(outcome.status == 0 && outcome.out.bytes.as_slice() == due)
            }
            CutEnd::AsRead => is_as_read(alloc, script, outcome),
        }
    }

    /// Tries them with the words of this line: how many there are, and whether each came to what is said.
    pub(crate) fn try_all<R: Threads + Wait + Sync>(
        &self,
        rt: &R,
        alloc: Global,
        streams: Streams<'_>,
        line: &str,
        report: &[u8],
    ) -> Result<(u64, bool)> {
        let mut count = 0_u64;
        for length in self.first..=self.last {
            let script = streams
                .script
                .get(..length)
                .context("a script that ends before it is cut")?;
            let outcome = run(rt, alloc, Streams { script, ..streams }, line)?;
            count = count.saturating_add(1);
            if !self.is_so(alloc, script, report, &outcome)? {
                return Ok((count, false));
            }
        }
        Ok((count, true))
    }
}
