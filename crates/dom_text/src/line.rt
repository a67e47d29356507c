//! Reads a line's tokens from the left.
ghost use Rattle.std.specs.Prelude.{◌≡◌, ◌≢◌, ◌<◌, ◌≤◌, false, ℕ, All, IsTrue, length, take, slice_index, List, [], ◌∷◌, ◌++◌, Ok, IfOk, IfErr, OnErr, OnOk, vec_capacity, vec_len};
ghost use Rattle.dom_text.specs.Answers.{Gives, text_answer, text_refusal};
ghost use Rattle.dom_text.specs.Lent.{lent_answer, owned, owned_token};
ghost use Rattle.dom_text.specs.Tokens.{tokens_of, fault_at as fault_of_byte, is_blank as is_blank_byte};
ghost use Rattle.dom_text.specs.Spelled.{is_word_byte as may_stand_in_word};
ghost use Rattle.dom_text.specs.Walk.{BeginsUnblank, is_usual_byte, with_tokens};
ghost use Rattle.dom_text.specs.declared.line.TextFault.TheVariants.{NoMemory as OutOfMemory};
ghost use Rattle.dom_text.specs.declared.token.Token.TheVariants.{Word};

use crate::quoted::lend_text;
use crate::token::{Token, TokenRef};
use std::alloc::{AllocFailed, Global};
use thiserror::Error;
use uid_names::{ByteList, ItemList, NoMemory};

/// Why a line has no tokens.
#[derive(Clone, Copy, Debug, PartialEq, Eq, Error)]
pub enum TextFault {
    /// A byte that may stand nowhere in a line.
    #[error("byte")]
    Byte,
    /// A quote inside a word, or a quoted text that can't be read on.
    #[error("quote")]
    Quote,
    /// There was no memory.
    #[error("no memory")]
    NoMemory,
}

impl From<NoMemory> for TextFault {
    ghost from_gives = { λ _ e. e ≡ OutOfMemory };

    fn from(_error: NoMemory) -> TextFault {
        TextFault::NoMemory
    }
}

impl<T: Drop> From<AllocFailed<T>> for TextFault {
    ghost from_gives = { λ _ e. e ≡ OutOfMemory };

    fn from(_error: AllocFailed<T>) -> TextFault {
        TextFault::NoMemory
    }
}

/// The tokens of a line without its end. The first fault from the left decides.
pub fn tokens(alloc: Global, line: &[u8]) -> Result<ItemList<Token>, TextFault>
    ensures { Gives (text_answer result) (tokens_of line.now) }
{
    let mut lent = Vec::new(alloc);
    put_tokens(&mut lent, alloc, line)?;
    let found = to_owned(alloc, lent.as_slice())?;
    Ok(found)
}

/// Makes a list hold the tokens of a line without its end, whatever it held; none where the line has a fault, or there is no
/// memory. The first fault from the left decides.
pub fn lend_tokens<'a>(
    list: &mut Vec<TokenRef<'a>>,
    alloc: Global,
    line: &'a [u8],
) -> Result<(), TextFault>
    ensures tokens { Gives (lent_answer list.new.items result) (tokens_of line.now) }
    ensures refused { OnErr result (list.new.items ≡ []) }
{
    match put_tokens(list, alloc, line) {
        Ok(()) => Ok(()),
        Err(fault) => {
            list.clear();
            Err(fault)
        }
    }
}

/// Makes a list hold the tokens of a line without its end, whatever it held; those in front of a fault where it has one.
fn put_tokens<'a>(
    found: &mut Vec<TokenRef<'a>>,
    alloc: Global,
    line: &'a [u8],
) -> Result<(), TextFault>
    ensures { Gives (lent_answer found.new.items result) (tokens_of line.now) }
{
    found.clear();
    let mut rest = without_blanks(line);
    while let Some((first, inside)) = rest.split_first() {
        rest = match *first {
            b'#' => return Ok(()),
            b'"' => put_text(found, alloc, inside)?,
            _ => put_word(found, rest)?,
        };
    }
    Ok(())
}

/// Puts the word at the front of a line last, and gives what stands behind it and the blanks there.
fn put_word<'a>(found: &mut Vec<TokenRef<'a>>, line: &'a [u8]) -> Result<&'a [u8], TextFault>
    requires begun { (b : ℕ) (rest : List ℕ) → line.now ≡ b ∷ rest → (is_blank_byte b ≡ false) × (b ≢ 34) × (b ≢ 35) }
    requires some { 0 < length line.now }
    ensures word { IfOk result (λ rest. with_tokens (owned found.old.items) (tokens_of line.now) ≡ with_tokens (owned found.new.items) (tokens_of rest.now)) }
    ensures shorter { IfOk result (λ rest. length rest.now < length line.now) }
    ensures begun { IfOk result (λ rest. BeginsUnblank rest.now) }
    ensures fault { IfErr result (λ fault. Gives (text_refusal fault) (tokens_of line.now)) }
{
    let (word, behind) = cut_word(line)?;
    put(found, TokenRef::Word(word))?;
    Ok(without_blanks(behind))
}

/// Puts the text behind a quote last, and gives what stands behind it and the blanks there.
fn put_text<'a>(
    found: &mut Vec<TokenRef<'a>>,
    alloc: Global,
    inside: &'a [u8],
) -> Result<&'a [u8], TextFault>
    ensures text { IfOk result (λ rest. with_tokens (owned found.old.items) (tokens_of (34 ∷ inside.now)) ≡ with_tokens (owned found.new.items) (tokens_of rest.now)) }
    ensures shorter { IfOk result (λ rest. length rest.now < length inside.now) }
    ensures begun { IfOk result (λ rest. BeginsUnblank rest.now) }
    ensures fault { IfErr result (λ fault. Gives (text_refusal fault) (tokens_of (34 ∷ inside.now))) }
{
    let (text, behind) = lend_text(alloc, inside)?;
    put(found, text)?;
    Ok(without_blanks(behind))
}

/// Puts a token last.
#[inline(always)]
fn put<'a>(found: &mut Vec<TokenRef<'a>>, token: TokenRef<'a>) -> Result<(), NoMemory>
    ensures { OnOk result (found.new.items ≡ found.old.items ++ token.entry ∷ []) }
{
    make_room(found)?;
    found.push_reserved(token);
    Ok(())
}

/// Makes room for one token more, where there is none.
#[inline(always)]
fn make_room(found: &mut Vec<TokenRef<'_>>) -> Result<(), NoMemory>
    ensures same { found.new.items ≡ found.old.items }
    ensures room { OnOk result (vec_len found.new < vec_capacity found.new) }
{
    if found.len() < found.capacity() {
        return Ok(());
    }
    found.reserve(1)?;
    Ok(())
}

/// The tokens with bytes of their own.
fn to_owned(alloc: Global, lent: &[TokenRef<'_>]) -> Result<ItemList<Token>, NoMemory>
    ensures { IfOk result (λ tokens. tokens ≡ owned lent.now) }
{
    let mut found = ItemList::new(alloc);
    for token in lent {
        found.push(owned_one(alloc, token)?)?;
    }
    Ok(found)
}

/// The token with bytes of its own.
fn owned_one(alloc: Global, token: &TokenRef<'_>) -> Result<Token, NoMemory>
    ensures { IfOk result (λ t. t ≡ owned_token token.now) }
{
    Ok(match token {
        TokenRef::Word(word) => Token::Word(ByteList::from_slice(alloc, word)?),
        TokenRef::Plain(text) => Token::Text(ByteList::from_slice(alloc, text)?),
        TokenRef::Text(text) => Token::Text(text.copy(alloc)?),
    })
}

/// A line without the blanks at its front.
fn without_blanks(line: &[u8]) -> &[u8]
    ensures same { tokens_of line.now ≡ tokens_of result.now }
    ensures begun { BeginsUnblank result.now }
    ensures within { length result.now ≤ length line.now }
{
    let mut rest = line;
    while let Some((byte, behind)) = rest.split_first() {
        if !is_blank(*byte) {
            return rest;
        }
        rest = behind;
    }
    rest
}

/// The word at the front of a line that begins with no blank, no quote and no `#`, and what stands behind it.
fn cut_word(line: &[u8]) -> Result<(&[u8], &[u8]), TextFault>
    requires begun { (b : ℕ) (rest : List ℕ) → line.now ≡ b ∷ rest → (is_blank_byte b ≡ false) × (b ≢ 34) × (b ≢ 35) }
    requires some { 0 < length line.now }
    ensures word { IfOk result (λ found. tokens_of line.now ≡ with_tokens (Word found.0.now ∷ []) (tokens_of found.1.now)) }
    ensures shorter { IfOk result (λ found. length found.1.now < length line.now) }
    ensures fault { IfErr result (λ fault. Gives (text_refusal fault) (tokens_of line.now)) }
{
    let end = word_end(line);
    let (word, rest) = line.split_at(end);
    match rest.split_first() {
        Some((byte, _)) if !is_blank(*byte) => Err(fault_at(*byte)),
        _ => Ok((word, rest)),
    }
}

/// How many bytes at the front of a line may stand in a word.
fn word_end(line: &[u8]) -> usize
    ensures within { result ≤ length line.now }
    ensures word { All (λ b. IsTrue (may_stand_in_word b)) (take result line.now) }
    ensures end { result < length line.now → may_stand_in_word (slice_index line.now result) ≡ false }
{
    let end = usual_end(line);
    match line.get(end) {
        Some(b'!') => rare_end(line),
        _ => end,
    }
}

/// How many bytes at the front of a line may stand in a word, and are no `!`.
fn usual_end(line: &[u8]) -> usize
    ensures within { result ≤ length line.now }
    ensures word { All (λ b. IsTrue (is_usual_byte b)) (take result line.now) }
    ensures end { result < length line.now → is_usual_byte (slice_index line.now result) ≡ false }
{
    match line.iter().position(|b| !matches!(*b, b'#'..=b'~')) {
        Some(end) => end,
        None => line.len(),
    }
}

/// How many bytes at the front of a line may stand in a word.
#[inline(never)]
fn rare_end(line: &[u8]) -> usize
    ensures within { result ≤ length line.now }
    ensures word { All (λ b. IsTrue (may_stand_in_word b)) (take result line.now) }
    ensures end { result < length line.now → may_stand_in_word (slice_index line.now result) ≡ false }
{
    match line.iter().position(|b| !is_word_byte(*b)) {
        Some(end) => end,
        None => line.len(),
    }
}

/// Whether this byte may stand in a word.
fn is_word_byte(byte: u8) -> bool
    ensures { result ≡ may_stand_in_word byte }
{
    matches!(byte, b'!'..=b'~') && byte != b'"'
}

/// Whether this byte separates tokens.
pub(crate) fn is_blank(byte: u8) -> bool
    ensures { result ≡ is_blank_byte byte }
{
    byte == b' ' || byte == b'\t'
}

/// The fault of a byte where it may not stand.
pub(crate) fn fault_at(byte: u8) -> TextFault
    ensures { result ≡ fault_of_byte byte }
{
    match byte {
        b' '..=b'~' | b'\t' => TextFault::Quote,
        _ => TextFault::Byte,
    }
}
