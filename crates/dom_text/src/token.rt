//! The tokens of a line.
use uid_names::ByteList;

/// A token: a word, or the bytes that a quoted text stands for.
#[derive(Drop, Debug)]
pub enum Token {
    Word(ByteList),
    Text(ByteList),
}

/// A token whose word, or whose text without escapes, is lent by the line that it stands in.
#[derive(Drop, Debug)]
pub enum TokenRef<'a> {
    Word(&'a [u8]),
    /// A text whose bytes stand in the line as they are.
    Plain(&'a [u8]),
    Text(ByteList),
}
