//! The rows of a reply, from the bytes behind the header.
ghost use Rattle.std.specs.Prelude.{◌≡◌, ℕ};
ghost use Rattle.ring_messages.specs.ReaderSteps.{Gives, whole};
ghost use Rattle.ring_messages.specs.ReaderRows.{row_of, row_at, rows_at, pushed, is_rising};
ghost use Rattle.ring_messages.specs.ReaderBodies.{body_at};
ghost use Rattle.uid_names.specs.declared.frame_kind.FrameKind.TheVariants as kinds;
ghost use Rattle.ring_messages.specs.declared.body.Body.TheVariants as bodies;

use super::fields::{byte, end, flag, mode, number64, proc, uid};
use crate::frame::FrameFault;
use std::alloc::Global;
use uid_names::{LISTED_ROWS, LockRow, LockRows};

/// The row of these numbers.
#[tactic(auto, unfolding(crate::specs::ReaderRows::row_of))]
fn row(number: u64, node: u8, proc_number: u8, code: u8) -> Result<LockRow, FrameFault>
    ensures { Gives (λ x. x) result (row_of number node proc_number code) }
{
    let uid = uid(number)?;
    let proc = proc(node, proc_number)?;
    let mode = mode(code)?;
    Ok(LockRow { uid, proc, mode })
}

/// Puts the first row of the bytes last. Answers the bytes behind it.
fn push_row<'a>(rows: &mut LockRows, bytes: &'a [u8]) -> Result<&'a [u8], FrameFault>
    ensures { Gives (λ rest. (rows.new, rest.now)) result (pushed rows.old (row_at bytes.now)) }
{
    let (number, rest) = number64(bytes)?;
    let (node, rest) = byte(rest)?;
    let (proc, rest) = byte(rest)?;
    let (code, rest) = byte(rest)?;
    rows.push(row(number, node, proc, code)?)?;
    Ok(rest)
}

/// So many rows, with nothing behind them.
fn rows(alloc: Global, count: u8, bytes: &[u8]) -> Result<LockRows, FrameFault>
    ensures { Gives (λ rows. rows) result (whole (rows_at count) (λ rows. rows) bytes.now) }
{
    let mut rows = LockRows::new(alloc);
    let mut rest = bytes;
    for _ in 0..count {
        rest = push_row(&mut rows, rest)?;
    }
    end(rest)?;
    Ok(rows)
}

/// Whether each row stands before the next.
fn rise(rows: &[LockRow]) -> bool
    ensures { result ≡ is_rising rows.now }
{
    for i in 1..rows.len() {
        let row = rows[i];
        if !rows[i - 1].is_before(row.uid, row.proc) {
            return false;
        }
    }
    true
}

/// The rows, and whether more follow.
#[tactic(auto, unfolding(crate::specs::ReaderBodies::body_at, crate::specs::ReaderBodies::listed_at))]
pub(super) fn listed(alloc: Global, bytes: &[u8]) -> Result<(LockRows, bool), FrameFault>
    ensures { (version to : ℕ) → Gives (λ x. bodies.Listed x.0 x.1) result (body_at version kinds.Listed to bytes.now) }
{
    let (count, rest) = byte(bytes)?;
    let (code, rest) = byte(rest)?;
    let more = flag(code)?;
    let rows = rows(alloc, count, rest)?;
    if count as usize <= LISTED_ROWS && rise(rows.items()) {
        Ok((rows, more))
    } else {
        Err(FrameFault::BadFrame)
    }
}
