//! What no clause says: that calls succeed, how much one read asks for, and what the adapters pass on.
use dom_io::{
    MemSink, MemSource, ReadEnd, RealSink, RealSource, Sink, Source, Took, WriteFault, read_all,
    write_all,
};
use std::alloc::Global;
use std::io;
use std::io::{Read, Write};
use std::test::Fail;
use uid_names::{ByteList, NoMemory};

/// A reader whose every read fails so.
#[derive(Drop)]
struct Broken(io::ErrorKind);

impl Read for Broken {
    fn read(&mut self, _buf: &mut [u8]) -> io::Result<usize> {
        Err(io::Error::from(self.0))
    }
}

/// A writer that takes one byte at a time. Its call of this number fails so, where writes and flushes are counted from 1 in turn.
#[derive(Drop)]
struct Frail {
    written: Vec<u8>,
    calls: u8,
    bad_call: u8,
    kind: io::ErrorKind,
}

impl Frail {
    fn new(alloc: Global, bad_call: u8, kind: io::ErrorKind) -> Frail {
        Frail {
            written: Vec::new(alloc),
            calls: 0,
            bad_call,
            kind,
        }
    }

    /// Fails at the call that is to fail.
    fn call(&mut self) -> io::Result<()> {
        self.calls = self.calls.saturating_add(1);
        if self.calls == self.bad_call {
            return Err(io::Error::from(self.kind));
        }
        Ok(())
    }
}

impl Write for Frail {
    fn write(&mut self, buf: &[u8]) -> io::Result<usize> {
        self.call()?;
        let count = buf.len().min(1);
        self.written.extend_from_slice(&buf[..count])?;
        Ok(count)
    }

    fn flush(&mut self) -> io::Result<()> {
        self.call()
    }
}

/// The ways in which calls of readers and writers fail here: one is no fault to std, which would call again.
const KINDS: [io::ErrorKind; 2] = [io::ErrorKind::BrokenPipe, io::ErrorKind::Interrupted];

/// A long text.
const TEXT: [u8; 10_000] = [7; 10_000];

#[test]
fn a_long_text_is_read_in_pieces(rt: HostRuntime) -> Result<(), Fail> {
    let mut source = MemSource::new(rt.alloc(), &TEXT, &[])?;
    let list = read_all(rt.alloc(), &mut source, 10_000)?;
    assert!(rt; list.bytes() == TEXT.as_slice());
    assert!(rt; source.rest().len() == 0);
    Ok(())
}

/// Reads a source whose calls of these numbers fail: how the reading ends, and the bytes that are left.
fn ends(
    alloc: Global,
    bytes: &[u8],
    fails: &[u64],
    limit: u32,
) -> Result<(Option<ReadEnd>, ByteList), NoMemory> {
    let mut source = MemSource::new(alloc, bytes, fails)?;
    let end = read_all(alloc, &mut source, limit).err();
    Ok((end, ByteList::from_slice(alloc, source.rest())?))
}

/// Calls that fail, and how many bytes are left.
const FAILED: [(u64, usize); 3] = [(1, 10_000), (2, 10_000 - 4_096), (3, 10_000 - 2 * 4_096)];

#[test]
fn a_failed_read_ends_the_reading(rt: HostRuntime) -> Result<(), Fail> {
    for (call, rest) in FAILED {
        let (end, left) = ends(rt.alloc(), &TEXT, &[call], 10_000)?;
        assert!(rt; end == Some(ReadEnd::ReadFault), "at call {call}");
        assert!(rt; left.bytes().len() == rest, "at call {call}");
    }
    Ok(())
}

/// Limits, and the bytes of `abcdef` that are left.
const LIMITS: [(u32, &[u8]); 3] = [(0, b"bcdef"), (4, b"f"), (5, b"")];

#[test]
fn one_byte_more_than_the_limit_is_taken(rt: HostRuntime) -> Result<(), Fail> {
    for (limit, rest) in LIMITS {
        let (end, left) = ends(rt.alloc(), b"abcdef", &[], limit)?;
        assert!(rt; end == Some(ReadEnd::TooLong), "at {limit}");
        assert!(rt; left.bytes() == rest, "at {limit}");
    }
    Ok(())
}

#[test]
fn a_listed_read_fails_and_the_next_goes_on(rt: HostRuntime) -> Result<(), Fail> {
    let mut source = MemSource::new(rt.alloc(), b"hello", &[1])?;
    let mut buffer = [0; 2];
    assert!(rt; source.read(&mut buffer) == Took::Failed);
    assert!(rt; source.read(&mut buffer) == Took::Some(2));
    assert!(rt; buffer == *b"he");
    Ok(())
}

#[test]
fn a_listed_write_fails_and_the_next_goes_on(rt: HostRuntime) -> Result<(), Fail> {
    let mut sink = MemSink::new(rt.alloc(), 4, &[2])?;
    assert!(rt; write_all(&mut sink, b"ab") == Ok(()));
    assert!(rt; write_all(&mut sink, b"cd") == Err(WriteFault));
    assert!(rt; write_all(&mut sink, b"efg") == Err(WriteFault));
    assert!(rt; sink.bytes() == b"abef".as_slice());
    Ok(())
}

#[test]
fn a_reader_is_read_to_its_end(rt: HostRuntime) -> Result<(), Fail> {
    // The first read of the chain is short.
    let mut source = RealSource::new(b"short ".as_slice().chain(b"reads".as_slice()));
    let list = read_all(rt.alloc(), &mut source, 100)?;
    assert!(rt; list.bytes() == b"short reads".as_slice());
    Ok(())
}

/// How the reading of a short text ends behind which a read fails.
fn ends_broken(alloc: Global, kind: io::ErrorKind) -> Option<ReadEnd> {
    let mut broken = RealSource::new(b"short ".as_slice().chain(Broken(kind)));
    read_all(alloc, &mut broken, 100).err()
}

#[test]
fn a_reader_that_fails_is_a_fault(rt: HostRuntime) {
    for kind in KINDS {
        assert!(rt; ends_broken(rt.alloc(), kind) == Some(ReadEnd::ReadFault));
    }
}

#[test]
fn a_writer_gets_every_byte(rt: HostRuntime) {
    let mut written = Vec::new(rt.alloc());
    let mut sink = RealSink::new(&mut written);
    assert!(rt; write_all(&mut sink, b"ab") == Ok(()));
    assert!(rt; write_all(&mut sink, b"cd") == Ok(()));
    assert!(rt; written.as_slice() == b"abcd".as_slice());
}

#[test]
fn a_slice_takes_what_it_has_room_for_and_then_nothing(rt: HostRuntime) {
    let mut small = [0; 3];
    let mut sink = RealSink::new(small.as_mut_slice());
    assert!(rt; write_all(&mut sink, b"abcd") == Err(WriteFault));
    assert!(rt; small == *b"abc");
}

fn write_abc(writer: &mut Frail) -> Result<(), WriteFault> {
    let mut sink = RealSink::new(writer);
    write_all(&mut sink, b"abc")
}

/// Three bytes are given to a writer: whether that is a fault, and what the writer took.
fn written_by(
    alloc: Global,
    bad_call: u8,
    kind: io::ErrorKind,
) -> (Result<(), WriteFault>, Vec<u8>) {
    let mut writer = Frail::new(alloc, bad_call, kind);
    let come = write_abc(&mut writer);
    (come, writer.written)
}

/// Calls that fail, and what was written: at a write, its flush, the next write; the byte that was taken before stays.
const BAD_CALLS: [(u8, &[u8]); 4] = [(1, b""), (2, b"a"), (3, b"a"), (6, b"abc")];

#[test]
fn a_writer_that_fails_is_a_fault(rt: HostRuntime) {
    for (bad_call, expected) in BAD_CALLS {
        for kind in KINDS {
            let (come, written) = written_by(rt.alloc(), bad_call, kind);
            assert!(rt; come == Err(WriteFault), "at call {bad_call}");
            assert!(rt; written.as_slice() == expected, "at call {bad_call}");
        }
    }
}

#[test]
fn a_writer_that_fails_later_takes_all(rt: HostRuntime) {
    let (come, written) = written_by(rt.alloc(), 7, io::ErrorKind::BrokenPipe);
    assert!(rt; come == Ok(()));
    assert!(rt; written.as_slice() == b"abc".as_slice());
}
