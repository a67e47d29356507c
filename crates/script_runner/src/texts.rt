//! What is said of a line, and how a text is written.
ghost use Rattle.std.specs.Prelude.{◌≡◌, ◌≤◌, IfOk};
ghost use Rattle.script_runner.specs.Outside.{over, AddsOrFails};
ghost use Rattle.script_runner.specs.Domain.{line_text as text_of_line, refusal as refusal_text};

use dom_io::{Sink, write_all};
use dom_text::put_decimal;
use script_reader::Cause;
use std::alloc::Global;
use uid_names::{ByteList, NoMemory};

/// What is said of a line, and why.
pub(crate) fn line_text(alloc: Global, line: u64, why: &str) -> Result<ByteList, NoMemory>
    ensures { IfOk result (λ text. text ≡ text_of_line line why.now) }
{
    let mut text = ByteList::from_slice(alloc, b"line ")?;
    put_decimal(&mut text, line)?;
    text.extend(b": ")?;
    text.extend(why.as_bytes())?;
    text.extend(b"\n")?;
    Ok(text)
}

/// What is said of a bad line.
pub(crate) fn refusal(alloc: Global, line: u32, cause: Cause) -> Result<ByteList, NoMemory>
    ensures { IfOk result (λ text. text ≡ refusal_text line cause) }
{
    line_text(alloc, u64::from(line), cause.text())
}

/// Writes a text: the status, or 5 where a write failed.
pub(crate) fn write_text<O: Sink>(out: &mut O, text: &[u8], status: u8) -> u8
    ensures either { AddsOrFails (over O.held O.faults out.old out.new) text.now status result }
    ensures count { O.faults out.old ≤ O.faults out.new }
{
    match write_all(out, text) {
        Ok(()) => status,
        Err(_) => 5,
    }
}
