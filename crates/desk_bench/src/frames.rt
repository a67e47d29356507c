//! Bytes that are a frame, or none.
use crate::bodies;
use crate::texts::{Part, told};
use crate::words::{MOST, number32};
use anyhow::{Result, bail};
use ring_messages::{Body, Frame, FrameFault, Head, head, read, write};
use std::alloc::{AllocError, Global};
use uid_names::{ByteList, NoMemory};

/// The value of a hexadecimal digit.
fn digit(letter: u8) -> Option<u8> {
    match letter {
        b'0'..=b'9' => Some(letter - b'0'),
        b'a'..=b'f' => Some(letter - b'a' + 10),
        _ => None,
    }
}

/// The bytes of a word of digits, two for each, and then so many zeros. A lone `-` has none.
fn bytes_of(alloc: Global, word: &str, zeros: u32) -> Result<ByteList> {
    let mut bytes = ByteList::new(alloc);
    let mut front = None;
    for letter in word.as_bytes() {
        front = taken(&mut bytes, front, *letter)?;
    }
    for _ in 0..zeros {
        bytes.push(0)?;
    }
    Ok(bytes)
}

/// Takes a letter: the digit that waits for the second of its byte, if there is one.
fn taken(bytes: &mut ByteList, front: Option<u8>, letter: u8) -> Result<Option<u8>, NoMemory> {
    let Some(value) = digit(letter) else {
        return Ok(front);
    };
    match front {
        None => Ok(Some(value)),
        Some(high) => {
            bytes.push(high << 4 | value)?;
            Ok(None)
        }
    }
}

/// What a frame says: from which node to which, for which process, its number and tick, and what it carries. Its header says
/// the same, it is written as it was read, and what it carries is copied as it is.
fn frame_text(
    alloc: Global,
    name: &str,
    header: Option<Head>,
    frame: &Frame,
    bytes: &[u8],
) -> Result<String> {
    let body = bodies::text(alloc, frame.body())?;
    let is_same = header == Some(said(frame))
        && is_written(alloc, frame, bytes)?
        && is_copied(alloc, frame.body(), body.as_str())?;
    let mark = if is_same { "" } else { " otherwise" };
    let head = head_text(alloc, frame)?;
    Ok(format!(in alloc; "{name}:{mark}{head} {body}")?)
}

/// What the header of a frame has to say.
fn said(frame: &Frame) -> Head {
    Head {
        version: frame.version(),
        kind: frame.body().kind(),
        from: frame.from(),
        to: frame.to(),
        proc: frame.proc(),
        number: frame.number(),
        tick: frame.tick(),
    }
}

/// Whether a frame is written as these bytes.
fn is_written(alloc: Global, frame: &Frame, bytes: &[u8]) -> Result<bool> {
    let again = write(alloc, frame)?;
    Ok(again.bytes() == bytes)
}

/// Whether a copy of a body says the same.
fn is_copied(alloc: Global, body: &Body, said: &str) -> Result<bool> {
    let copy = body.copy(alloc)?;
    let told = bodies::text(alloc, &copy)?;
    Ok(told.as_str() == said)
}

/// From which node a frame is to which, for which process, and its number and tick.
fn head_text(alloc: Global, frame: &Frame) -> Result<String, AllocError> {
    let (from, to) = (frame.from().number(), frame.to().number());
    let parts = [
        Part::Number(u64::from(from)),
        Part::Number(u64::from(to)),
        Part::Proc(frame.caller()),
        Part::Number(frame.number()),
        Part::Number(frame.tick()),
    ];
    told(alloc, "", &parts)
}

/// What bytes are: a frame, or none, and then whether they begin with the header of one.
pub fn call(alloc: Global, words: &[&str; MOST]) -> Result<String> {
    let bytes = bytes_of(alloc, words[0], number32(words[1])?)?;
    answer(alloc, bytes.bytes())
}

/// What these bytes are.
fn answer(alloc: Global, bytes: &[u8]) -> Result<String> {
    let header = head(bytes);
    let name = match &header {
        Some(head) => head.kind.name(),
        None => "none",
    };
    match read(alloc, bytes) {
        Ok(frame) => frame_text(alloc, name, header, &frame, bytes),
        Err(FrameFault::BadFrame) => Ok(format!(in alloc; "{name}: no frame")?),
        Err(FrameFault::NoMemory) => bail!("no memory"),
    }
}
