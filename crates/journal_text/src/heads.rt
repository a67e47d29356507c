//! A line in front of its first `;`. No function takes memory.
ghost use Rattle.journal_text.specs.Walk.Heads.{IsHeadOf};

/// The text before the first `;`, and the text from there on.
pub(crate) fn head(text: &[u8]) -> (&[u8], &[u8])
    ensures { IsHeadOf text.now result.0.now result.1.now }
{
    match text.iter().position(|b| *b == b';') {
        Some(at) => (&text[..at], &text[at..]),
        None => (text, &text[text.len()..]),
    }
}
