//! Finds lines of a journal.
ghost use Rattle.std.specs.Prelude.{◌≡◌, ◌<◌, ◌≤◌, ◌∷◌, [], true, false, length, take, slice_index, All, MatchOption, IfSome};
ghost use Rattle.event_views.specs.LineWords.{is_between as stands_between, words_in, left_behind as left_behind_word, are_found};

use uid_names::ByteList;

/// Whether a byte stands between words.
fn is_between(byte: u8) -> bool
    ensures { result ≡ stands_between byte }
{
    byte == b' ' || byte == b';'
}

/// How many bytes at the front of a line are its first word.
fn word_end(line: &[u8]) -> usize
    ensures within { result ≤ length line.now }
    ensures word { All (λ b. stands_between b ≡ false) (take result line.now) }
    ensures end { result < length line.now → stands_between (slice_index line.now result) ≡ true }
{
    match line.iter().position(|b| is_between(*b)) {
        Some(end) => end,
        None => line.len(),
    }
}

/// The first word of a line and what stands behind it; None where the line is one word.
fn cut_word(line: &[u8]) -> Option<(&[u8], &[u8])>
    ensures words { MatchOption result (words_in line.now ≡ line.now ∷ []) (λ parts. words_in line.now ≡ parts.0.now ∷ words_in parts.1.now) }
    ensures shorter { IfSome result (λ parts. length parts.1.now < length line.now) }
{
    let (word, rest) = line.split_at(word_end(line));
    match rest.split_first() {
        Some((_, behind)) => Some((word, behind)),
        None => None,
    }
}

/// What is still sought behind a word, of words that are sought in order.
fn left_behind<'a>(word: &[u8], sought: &'a [ByteList]) -> &'a [ByteList]
    ensures { result.now ≡ left_behind_word word.now sought.now }
{
    match sought.split_first() {
        Some((first, more)) if word == first.bytes() => more,
        _ => sought,
    }
}

/// Whether a line of a journal, without its end, has these words in order, whatever stands between them. Its words are what spaces and `;`
/// part. Takes no memory.
pub fn has_words(line: &[u8], words: &[ByteList]) -> bool
    ensures { result ≡ are_found (words_in line.now) words.now }
{
    let mut left = words;
    let mut rest = line;
    while let Some((word, behind)) = cut_word(rest) {
        left = left_behind(word, left);
        rest = behind;
    }
    left_behind(rest, left).is_empty()
}
