//! Reading a source to its end, and writing a text whole.
ghost use Rattle.std.specs.Prelude.{◌≡◌, ◌+◌, ◌≤◌, length, IfOk, OnOk, OnErr, IfSome, IsErrOf};
ghost use Rattle.std.specs.Io.KnownBytes.{append_known, IsAtEnd};
ghost use Rattle.dom_io.specs.Counts.{CountRose};
ghost use Rattle.dom_io.specs.Known.{TakesAtMost, Exceeds, left_after, AppendsPrefix};

use crate::outside::{Sink, Source, Took};
use std::alloc::Global;
use thiserror::Error;
use uid_names::ByteList;

/// The most bytes that one read asks for.
const CHUNK: usize = 4_096;

/// Why a source was not read whole.
#[derive(Clone, Copy, Debug, PartialEq, Eq, Error)]
pub enum ReadEnd {
    /// A read failed.
    #[error("a read failed")]
    ReadFault,
    /// There are more bytes than the limit; one byte more than the limit was taken.
    #[error("too many bytes")]
    TooLong,
    /// There was no memory.
    #[error("no memory")]
    NoMemory,
}

/// A write failed.
#[derive(Clone, Copy, Debug, PartialEq, Eq, Error)]
#[error("a write failed")]
pub struct WriteFault;

/// All that is left in the source, where it is at most `limit` bytes. Each read asks for at most 4,096
/// bytes, and never for more than what is missing to `limit + 1` bytes in all.
pub fn read_all<S: Source>(alloc: Global, source: &mut S, limit: u32) -> Result<ByteList, ReadEnd>
    ensures all { IfOk result (λ list. IfSome (S.left source.old) (λ left. list ≡ left)) }
    ensures end { OnOk result (IsAtEnd (S.left source.new)) }
    ensures within { IfOk result (λ list. length list ≤ limit) }

    ensures read_fault { IsErrOf result ReadEnd.ReadFault →
        CountRose (S.faults source.old) (S.faults source.new) }
    ensures read_fault_taken { IsErrOf result ReadEnd.ReadFault →
        TakesAtMost limit (S.left source.old) (S.left source.new) }
    ensures too_long { IsErrOf result ReadEnd.TooLong → Exceeds (S.left source.old) limit }
    ensures too_long_rest { IsErrOf result ReadEnd.TooLong →
        S.left source.new ≡ left_after (limit + 1) (S.left source.old) }

    // Whatever the answer is.
    ensures taken { TakesAtMost (limit + 1) (S.left source.old) (S.left source.new) }
    ensures count { S.faults source.old ≤ S.faults source.new }
{
    let mut list = ByteList::new(alloc);
    let mut chunk = [0; CHUNK];
    let most = limit as usize + 1;
    let mut taken = 0;
    while taken < most {
        let wanted = CHUNK.min(most - taken);
        match source.read(&mut chunk[..wanted]) {
            Took::Some(0) => return Ok(list),
            Took::Some(count) => {
                if list.extend(&chunk[..count]).is_err() {
                    return Err(ReadEnd::NoMemory);
                }
                taken += count;
            }
            Took::Failed => return Err(ReadEnd::ReadFault),
        }
    }
    Err(ReadEnd::TooLong)
}

/// Writes all the bytes, in as many pieces as the sink takes them. Takes no memory.
pub fn write_all<O: Sink>(sink: &mut O, bytes: &[u8]) -> Result<(), WriteFault>
    ensures ok { OnOk result (O.held sink.new ≡ append_known (O.held sink.old) bytes.now) }
    ensures fault { OnErr result (CountRose (O.faults sink.old) (O.faults sink.new)) }
    ensures prefix { OnErr result (AppendsPrefix (O.held sink.old) (O.held sink.new) bytes.now) }
    ensures count { O.faults sink.old ≤ O.faults sink.new }
{
    let mut done = 0;
    while done < bytes.len() {
        match sink.write(&bytes[done..]) {
            Took::Some(count) => done += count,
            Took::Failed => return Err(WriteFault),
        }
    }
    Ok(())
}
