//! Words that are names. No function takes memory.
ghost use Rattle.std.specs.Prelude.{◌≡◌};
ghost use Rattle.std.specs.List.{list_all};
ghost use Rattle.uid_names.specs.NameTexts.{is_name_byte as may_stand_in_name};
ghost use Rattle.dom_text.specs.NameWords.{is_name as is_name_word};

/// The most bytes of a name.
const NAME_BYTES: usize = 32;

/// Whether this byte may stand in a name.
fn is_name_byte(byte: u8) -> bool
    ensures { result ≡ may_stand_in_name byte }
{
    matches!(byte, b'a'..=b'z' | b'A'..=b'Z' | b'0'..=b'9' | b'_' | b'$')
}

/// Whether each byte of a word may stand in a name.
pub fn are_name_bytes(word: &[u8]) -> bool
    ensures { result ≡ list_all may_stand_in_name word.now }
{
    word.iter().all(|b| is_name_byte(*b))
}

/// Whether a word is a name.
pub fn is_name(word: &[u8]) -> bool
    ensures { result ≡ is_name_word word.now }
{
    if word.is_empty() || word.len() > NAME_BYTES {
        return false;
    }
    are_name_bytes(word)
}
