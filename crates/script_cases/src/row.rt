//! The parts of a row.
use anyhow::Result;
use dom_text::{Token, decimal};
use std::alloc::Global;
use uid_names::ByteList;

/// The word that stands first, and what stands behind it.
pub(crate) fn first_word(row: &[Token]) -> Option<(&[u8], &[Token])> {
    match row.split_first() {
        Some((Token::Word(word), rest)) => Some((word.bytes(), rest)),
        _ => None,
    }
}

/// The number that stands first, and what stands behind it.
pub(crate) fn first_number(row: &[Token]) -> Result<(u64, &[Token])> {
    match first_word(row) {
        Some((word, rest)) => Ok((decimal(word)?, rest)),
        None => anyhow::bail!("a number is missing"),
    }
}

/// The text that stands first, and what stands behind it.
pub(crate) fn first_text(row: &[Token]) -> Result<(&[u8], &[Token])> {
    match row.split_first() {
        Some((Token::Text(text), rest)) => Ok((text.bytes(), rest)),
        _ => anyhow::bail!("a text is missing"),
    }
}

/// These bytes and the texts behind them, each as often as the number in front of it says.
pub(crate) fn pieces(alloc: Global, before: &[u8], row: &[Token]) -> Result<ByteList> {
    let mut bytes = ByteList::from_slice(alloc, before)?;
    let mut count = 1;
    for token in row {
        match token {
            Token::Word(word) => count = decimal(word.bytes())?,
            Token::Text(text) => {
                for _ in 0..count {
                    bytes.extend(text.bytes())?;
                }
                count = 1;
            }
        }
    }
    Ok(bytes)
}
