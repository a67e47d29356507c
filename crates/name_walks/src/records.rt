//! Records of directories by words: `f` is the record of a file `f`, `-` a free one; `f@1=0` has the byte 0 at 1, and
//! `f@1=0@2=0` another one at 2; `f*3` is three of them, and `f/1` the first byte of one.
use dir_records::{DirFault, DirRows, read_dir, write_row};
use dom_text::{cut, decimal};
use plain_machines::undone::{Result, Undone};
use std::alloc::Global;
use uid_names::{ByteList, NoMemory};

/// The 64 bytes of the record of a file with a name of one byte, the second object of node 1.
fn row(name: u8) -> [u8; 64] {
    let mut bytes = [0; 64];
    bytes[0] = 1;
    bytes[1] = 1;
    bytes[2] = name;
    bytes[36..44].copy_from_slice(&0x20_0001u64.to_be_bytes());
    bytes
}

/// The number that a word spells.
pub fn number_of(word: &[u8]) -> Result<u64> {
    decimal(word).map_err(|_| Undone::NoWords)
}

/// What a word says in front of a byte, and the number behind it, or this one.
fn split_number(word: &[u8], byte: u8, or: u64) -> Result<(&[u8], u64)> {
    match cut(word, byte) {
        Some((front, number)) => Ok((front, number_of(number)?)),
        None => Ok((word, or)),
    }
}

/// A record by its name or `-`.
fn record_of(name: &[u8]) -> Result<[u8; 64]> {
    match name {
        [b'-'] => Ok([0; 64]),
        [letter] => Ok(row(*letter)),
        _ => Err(Undone::NoWords),
    }
}

/// Changes the byte of a record that `AT=BYTE` says.
fn change(bytes: &mut [u8; 64], words: &[u8]) -> Result<()> {
    let (at, byte) = cut(words, b'=').ok_or(Undone::NoWords)?;
    let at = usize::try_from(number_of(at)?).map_err(|_| Undone::NoWords)?;
    *bytes.get_mut(at).ok_or(Undone::NoWords)? = u8::try_from(number_of(byte)?).map_err(
        |_| Undone::NoWords,
    )?;
    Ok(())
}

/// A record by its name or `-`, with no byte, one or two changed.
fn changed(word: &[u8]) -> Result<[u8; 64]> {
    let Some((name, changes)) = cut(word, b'@') else {
        return record_of(word);
    };
    let mut bytes = record_of(name)?;
    match cut(changes, b'@') {
        Some((one, other)) => {
            change(&mut bytes, one)?;
            change(&mut bytes, other)?;
        }
        None => change(&mut bytes, changes)?,
    }
    Ok(bytes)
}

/// Puts the bytes of a word last.
fn put_word(to: &mut ByteList, word: &[u8]) -> Result<()> {
    let (one, times) = split_number(word, b'*', 1)?;
    let (one, count) = split_number(one, b'/', 64)?;
    let bytes = changed(one)?;
    let part = bytes
        .get(..usize::try_from(count).map_err(|_| Undone::NoWords)?)
        .ok_or(Undone::NoWords)?;
    for _ in 0..times {
        to.extend(part)?;
    }
    Ok(())
}

/// The bytes of words.
pub fn record_bytes(alloc: Global, words: &[u8]) -> Result<ByteList> {
    let mut bytes = ByteList::new(alloc);
    let mut rest = words;
    while let Some((word, behind)) = cut(rest, b' ') {
        put_word(&mut bytes, word)?;
        rest = behind;
    }
    put_word(&mut bytes, rest)?;
    Ok(bytes)
}

/// The rows that have names, by these.
pub fn put_names(to: &mut ByteList, rows: &DirRows) -> Result<(), NoMemory> {
    to.extend(b"rows")?;
    for row in rows.items() {
        to.push(b' ')?;
        to.extend(row.name.bytes())?;
    }
    Ok(())
}

/// The bytes of a directory of these rows.
fn written(alloc: Global, rows: &DirRows) -> Result<ByteList, NoMemory> {
    let mut bytes = ByteList::new(alloc);
    for row in rows.items() {
        bytes.extend(&write_row(row))?;
    }
    Ok(bytes)
}

/// What is read of a directory, and whether it is written as it was.
fn said_of(alloc: Global, rows: &DirRows, bytes: &[u8]) -> Result<ByteList, NoMemory> {
    let mut said = ByteList::new(alloc);
    put_names(&mut said, rows)?;
    if written(alloc, rows)?.bytes() == bytes {
        said.extend(b" as written")?;
    }
    Ok(said)
}

/// What is read of the directory that words spell, and whether it is written as it was.
pub fn read_again(alloc: Global, words: &[u8]) -> Result<ByteList> {
    let bytes = record_bytes(alloc, words)?;
    Ok(match read_dir(alloc, bytes.bytes()) {
        Ok(rows) => said_of(alloc, &rows, bytes.bytes())?,
        Err(DirFault::BadDir) => ByteList::from_slice(alloc, b"bad directory")?,
        Err(DirFault::NoMemory) => return Err(Undone::NoMemory),
    })
}
