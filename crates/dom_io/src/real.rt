//! Adapters of std's readers and writers, as of standard input, output and error. They tell no bytes.
ghost use Rattle.std.specs.Prelude.{◌≡◌, ◌≤◌, length, None, IfSome, []};
ghost use Rattle.dom_io.specs.Counts.{last_count};
ghost use Rattle.dom_io.specs.Tooks.{IfTook, faults_after};

use crate::outside::{Sink, Source, Took};
use std::io::{Read, Write};
use std::marker::Model;

/// A reader as a source. Contracts see its count of faults.
#[derive(Drop)]
pub struct RealSource<R: Read + Drop> {
    reader: R,
    faults: u64,
}

impl<R: Read + Drop> Model for RealSource<R> {
    ghost use Rattle.std.specs.Prelude.{ℕ, ◌≤◌};
    ghost use Rattle.dom_io.specs.Counts.{last_count};

    ghost Value = { ℕ };

    ghost view = { λ s. s.faults };

    ghost invariant = { λ s. s.faults ≤ last_count };
}

impl<R: Read + Drop> RealSource<R> {
    /// A source of what the reader gives. No fault is counted yet.
    pub fn new(reader: R) -> RealSource<R>
        ensures { result ≡ 0 }
    {
        RealSource { reader, faults: 0 }
    }
}

impl<R: Read + Drop> Source for RealSource<R> {
    ghost left = { λ _. None };

    ghost faults = { λ s. s };

    /// One read of the reader. Each error is a fault, also that of a read that was interrupted.
    fn read(&mut self, buf: &mut [u8]) -> Took
        ensures bound { IfTook result (λ count. count ≤ length buf.new) }
        ensures faults { self.new ≡ faults_after result self.old }
        ensures count { self.old ≤ self.new }
        ensures bounded { self.new ≤ last_count }
    {
        match self.reader.read(buf) {
            Ok(count) => Took::Some(count),
            Err(_) => {
                self.faults = self.faults.saturating_add(1);
                Took::Failed
            }
        }
    }
}

/// A writer as a sink. Contracts see its count of faults.
#[derive(Drop)]
pub struct RealSink<W: Write + Drop> {
    writer: W,
    faults: u64,
}

impl<W: Write + Drop> Model for RealSink<W> {
    ghost use Rattle.std.specs.Prelude.{ℕ, ◌≤◌};
    ghost use Rattle.dom_io.specs.Counts.{last_count};

    ghost Value = { ℕ };

    ghost view = { λ s. s.faults };

    ghost invariant = { λ s. s.faults ≤ last_count };
}

impl<W: Write + Drop> RealSink<W> {
    /// A sink into the writer. No fault is counted yet.
    pub fn new(writer: W) -> RealSink<W>
        ensures { result ≡ 0 }
    {
        RealSink { writer, faults: 0 }
    }
}

/// One write to the writer, and its flush, so that no byte that was taken is lost at the end of the
/// program. None where either fails, or where no byte of a piece that is not empty was taken.
fn put<W: Write>(writer: &mut W, piece: &[u8]) -> Option<usize>
    ensures bound { IfSome result (λ count. count ≤ length piece.now) }
    ensures progress { IfSome result (λ count. count ≡ 0 → piece.now ≡ []) }
{
    let count = writer.write(piece).ok()?;
    writer.flush().ok()?;
    if count == 0 && !piece.is_empty() {
        None
    } else {
        Some(count)
    }
}

impl<W: Write + Drop> Sink for RealSink<W> {
    ghost held = { λ _. None };

    ghost faults = { λ s. s };

    fn write(&mut self, piece: &[u8]) -> Took
        ensures bound { IfTook result (λ count. count ≤ length piece.now) }
        ensures progress { IfTook result (λ count. count ≡ 0 → piece.now ≡ []) }
        ensures faults { self.new ≡ faults_after result self.old }
        ensures count { self.old ≤ self.new }
        ensures bounded { self.new ≤ last_count }
    {
        match put(&mut self.writer, piece) {
            Some(count) => Took::Some(count),
            None => {
                self.faults = self.faults.saturating_add(1);
                Took::Failed
            }
        }
    }
}
