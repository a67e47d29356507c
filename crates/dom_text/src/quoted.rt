//! Reads a quoted text from behind its first quote.
ghost use Rattle.std.specs.Prelude.{◌≡◌, ◌<◌, ◌≤◌, ◌+◌, ◌*◌, ℕ, All, IsTrue, length, take, List, [], ◌∷◌, ◌++◌, IfOk, IfErr};
ghost use Rattle.dom_text.specs.Answers.{Gives, text_refusal};
ghost use Rattle.dom_text.specs.Lent.{owned_token};
ghost use Rattle.dom_text.specs.Tokens.{reading, tokens_in, tokens_of, as_text, with_byte, Escape, High, Low, InText};
ghost use Rattle.dom_text.specs.Walk.{AreApart, IsPiece, is_plain_byte, with_tokens};
ghost use Rattle.dom_text.specs.declared.token.Token.TheVariants.{Text};

use crate::line::{TextFault, fault_at, is_blank};
use crate::numbers::hex_value;
use crate::token::TokenRef;
use std::alloc::Global;
use uid_names::ByteList;

/// A piece of a quoted text, and what the line goes on with.
enum Piece<'a> {
    /// A byte of the text.
    Byte(u8, &'a [u8]),
    /// The text's end.
    End(&'a [u8]),
}

/// A text, and what stands behind it, from behind its first quote on.
pub(crate) fn lend_text(alloc: Global, line: &[u8]) -> Result<(TokenRef<'_>, &[u8]), TextFault>
    ensures text { IfOk result (λ found. tokens_in (as_text (reading line.now InText)) ≡ with_tokens (owned_token found.0 ∷ []) (tokens_of found.1.now)) }
    ensures shorter { IfOk result (λ found. length found.1.now < length line.now) }
    ensures fault { IfErr result (λ fault. Gives (text_refusal fault) (reading line.now InText)) }
{
    let (plain, rest) = line.split_at(plain_end(line));
    match rest.split_first() {
        Some((b'"', behind)) if is_apart(behind) => Ok((TokenRef::Plain(plain), behind)),
        _ => {
            let (text, behind) = read_text(alloc, line)?;
            Ok((TokenRef::Text(text), behind))
        }
    }
}

/// Whether no token goes on into these bytes.
fn is_apart(line: &[u8]) -> bool
    ensures { IsTrue result → AreApart line.now }
{
    match line.first() {
        Some(byte) => is_blank(*byte),
        None => true,
    }
}

/// The bytes of a text, and what stands behind it, from behind its first quote on.
#[inline(never)]
fn read_text(alloc: Global, line: &[u8]) -> Result<(ByteList, &[u8]), TextFault>
    ensures text { IfOk result (λ found. tokens_in (as_text (reading line.now InText)) ≡ with_tokens (Text found.0 ∷ []) (tokens_of found.1.now)) }
    ensures shorter { IfOk result (λ found. length found.1.now < length line.now) }
    ensures fault { IfErr result (λ fault. Gives (text_refusal fault) (reading line.now InText)) }
{
    let mut text = ByteList::new(alloc);
    let mut rest = line;
    loop {
        match next_piece(rest)? {
            Piece::Byte(byte, behind) => {
                text.push(byte)?;
                rest = behind;
            }
            Piece::End(behind) => return Ok((text, behind)),
        }
    }
}

/// How many bytes at the front of a text stand for themselves.
fn plain_end(line: &[u8]) -> usize
    ensures within { result ≤ length line.now }
    ensures plain { All (λ b. IsTrue (is_plain_byte b)) (take result line.now) }
{
    match line.iter().position(|b| !is_plain(*b)) {
        Some(end) => end,
        None => line.len(),
    }
}

/// Whether this byte of a text stands for itself.
fn is_plain(byte: u8) -> bool
    ensures { result ≡ is_plain_byte byte }
{
    matches!(byte, b']'..=b'~' | b'#'..=b'[' | b' '..=b'!')
}

/// The next piece of a text.
fn next_piece(line: &[u8]) -> Result<Piece<'_>, TextFault>
    ensures piece { IfOk result (λ piece. IsPiece line.now piece) }
    ensures fault { IfErr result (λ fault. Gives (text_refusal fault) (reading line.now InText)) }
{
    let Some((byte, rest)) = line.split_first() else {
        return Err(TextFault::Quote);
    };
    match *byte {
        b'"' => end_text(rest),
        b'\\' => {
            let (byte, rest) = read_escape(rest)?;
            Ok(Piece::Byte(byte, rest))
        }
        b' '..=b'~' => Ok(Piece::Byte(*byte, rest)),
        _ => Err(fault_at(*byte)),
    }
}

/// The end of a text, whose last quote stands in front of the rest of the line.
fn end_text(rest: &[u8]) -> Result<Piece<'_>, TextFault>
    ensures piece { IfOk result (λ piece. IsPiece (34 ∷ rest.now) piece) }
    ensures fault { IfErr result (λ fault. Gives (text_refusal fault) (reading (34 ∷ rest.now) InText)) }
{
    match rest.split_first() {
        Some((byte, _)) if !is_blank(*byte) => Err(fault_at(*byte)),
        _ => Ok(Piece::End(rest)),
    }
}

/// The byte that an escape stands for, from behind its `\`, and what stands behind it.
fn read_escape(line: &[u8]) -> Result<(u8, &[u8]), TextFault>
    ensures byte { IfOk result (λ found. reading line.now Escape ≡ with_byte found.0 (reading found.1.now InText)) }
    ensures shorter { IfOk result (λ found. length found.1.now < length line.now) }
    ensures fault { IfErr result (λ fault. Gives (text_refusal fault) (reading line.now Escape)) }
{
    let Some((byte, rest)) = line.split_first() else {
        return Err(TextFault::Quote);
    };
    match *byte {
        b'"' => Ok((b'"', rest)),
        b'\\' => Ok((b'\\', rest)),
        b'n' => Ok((b'\n', rest)),
        b'x' => read_hex(rest),
        _ => Err(fault_at(*byte)),
    }
}

/// The byte that two hexadecimal digits stand for, and what stands behind them.
fn read_hex(line: &[u8]) -> Result<(u8, &[u8]), TextFault>
    ensures byte { IfOk result (λ found. reading line.now High ≡ with_byte found.0 (reading found.1.now InText)) }
    ensures shorter { IfOk result (λ found. length found.1.now < length line.now) }
    ensures fault { IfErr result (λ fault. Gives (text_refusal fault) (reading line.now High)) }
{
    let (high, rest) = read_digit(line)?;
    let (low, rest) = read_digit(rest)?;
    Ok((16 * high + low, rest))
}

/// What a hexadecimal digit stands for, and what stands behind it.
fn read_digit(line: &[u8]) -> Result<(u8, &[u8]), TextFault>
    ensures small { IfOk result (λ found. found.0 < 16) }
    ensures high { IfOk result (λ found. reading line.now High ≡ reading found.1.now (Low found.0)) }
    ensures low { IfOk result (λ found. (high : ℕ) → reading line.now (Low high) ≡ with_byte (16 * high + found.0) (reading found.1.now InText)) }
    ensures shorter { IfOk result (λ found. length found.1.now < length line.now) }
    ensures high_fault { IfErr result (λ fault. Gives (text_refusal fault) (reading line.now High)) }
    ensures low_fault { IfErr result (λ fault. (high : ℕ) → Gives (text_refusal fault) (reading line.now (Low high))) }
{
    let Some((byte, rest)) = line.split_first() else {
        return Err(TextFault::Quote);
    };
    match hex_value(*byte) {
        Some(digit) => Ok((digit, rest)),
        None => Err(fault_at(*byte)),
    }
}
