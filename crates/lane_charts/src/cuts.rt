//! The front of a text.
ghost use Rattle.std.specs.Prelude.{◌≡◌, take};

/// So many bytes at the front of a text, or all where it has no more.
pub(crate) fn first_of(text: &[u8], count: usize) -> &[u8]
    ensures { result.now ≡ take count text.now }
{
    if count < text.len() {
        &text[..count]
    } else {
        text
    }
}
