//! Cuts texts at a byte. No function takes memory.
ghost use Rattle.std.specs.Prelude.{◌≡◌, Some, None, MatchOption};
ghost use Rattle.dom_text.specs.Cuts.{Lacks, IsCutAt, IsCutLast, cut_at, cut_at_last};

/// The text before the first such byte, and the text behind it; None where the byte doesn't stand there.
pub fn cut(text: &[u8], byte: u8) -> Option<(&[u8], &[u8])>
    ensures parts { MatchOption result (Lacks byte text.now) (λ parts. IsCutAt byte text.now parts.0.now parts.1.now) }
    ensures value { MatchOption result (cut_at byte text.now ≡ None) (λ parts. cut_at byte text.now ≡ Some (parts.0.now, parts.1.now)) }
{
    first_cut(text, byte)
}

/// The parts of a text round the first such byte.
fn first_cut(text: &[u8], byte: u8) -> Option<(&[u8], &[u8])>
    ensures { MatchOption result (Lacks byte text.now) (λ parts. IsCutAt byte text.now parts.0.now parts.1.now) }
{
    let at = text.iter().position(|b| *b == byte)?;
    Some((&text[..at], &text[at + 1..]))
}

/// The text before the last such byte, and the text behind it; None where the byte doesn't stand there.
pub fn cut_last(text: &[u8], byte: u8) -> Option<(&[u8], &[u8])>
    ensures parts { MatchOption result (Lacks byte text.now) (λ parts. IsCutLast byte text.now parts.0.now parts.1.now) }
    ensures value { MatchOption result (cut_at_last byte text.now ≡ None) (λ parts. cut_at_last byte text.now ≡ Some (parts.0.now, parts.1.now)) }
{
    last_cut(text, byte)
}

/// The parts of a text round the last such byte.
fn last_cut(text: &[u8], byte: u8) -> Option<(&[u8], &[u8])>
    ensures { MatchOption result (Lacks byte text.now) (λ parts. IsCutLast byte text.now parts.0.now parts.1.now) }
{
    match text.iter().rposition(|b| *b == byte) {
        Some(at) => Some((&text[..at], &text[at + 1..])),
        None => None,
    }
}
