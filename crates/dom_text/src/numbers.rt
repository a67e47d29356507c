//! Reads the numbers that words spell. No function takes memory.
ghost use Rattle.std.specs.Prelude.{◌≡◌, ◌<◌, IfSome, MatchResult, Some, None};
ghost use Rattle.dom_text.specs.Numbers.{hex8_of, hex_value as hex_value_of, number_spelled};
ghost use Rattle.dom_text.specs.Walk.{digit_more, number_of_digits};

use thiserror::Error;

/// A word spells no number.
#[derive(Clone, Copy, Debug, PartialEq, Eq, Error)]
#[error("no number")]
pub struct BadNumber;

/// The number that a word spells in decimal digits, without a sign or a leading zero, below 2^64.
pub fn decimal(word: &[u8]) -> Result<u64, BadNumber>
    ensures { MatchResult result (λ n. number_spelled word.now ≡ Some n) (λ _. number_spelled word.now ≡ None) }
{
    if word.is_empty() || (word[0] == b'0' && word.len() > 1) {
        return Err(BadNumber);
    }
    match digits(word) {
        Some(number) => Ok(number),
        None => Err(BadNumber),
    }
}

/// The number of these digits, if it is below 2^64; that of none is 0.
fn digits(text: &[u8]) -> Option<u64>
    ensures { result ≡ number_of_digits text.now }
{
    let mut number = 0;
    for byte in text {
        match with_digit(number, *byte) {
            Some(more) => number = more,
            None => return None,
        }
    }
    Some(number)
}

/// A number with one digit more, if the byte is a digit and what they give is below 2^64.
fn with_digit(number: u64, byte: u8) -> Option<u64>
    ensures { result ≡ digit_more number byte }
{
    if !byte.is_ascii_digit() {
        return None;
    }
    number.checked_mul(10)?.checked_add((byte - b'0') as u64)
}

/// The number that a word spells in exactly eight lower-case hexadecimal digits.
pub fn hex8(word: &[u8]) -> Result<u32, BadNumber>
    ensures { MatchResult result (λ n. hex8_of word.now ≡ Some n) (λ _. hex8_of word.now ≡ None) }
{
    if word.len() != 8 {
        return Err(BadNumber);
    }
    let mut number = 0;
    for byte in word {
        match hex_value(*byte) {
            Some(digit) => number = 16 * number + digit as u32,
            None => return Err(BadNumber),
        }
    }
    Ok(number)
}

/// What a hexadecimal digit stands for.
pub(crate) fn hex_value(byte: u8) -> Option<u8>
    ensures value { result ≡ hex_value_of byte }
    ensures small { IfSome result (λ digit. digit < 16) }
{
    match byte {
        b'0'..=b'9' => Some(byte - b'0'),
        b'a'..=b'f' => Some(byte - b'a' + 10),
        _ => None,
    }
}
