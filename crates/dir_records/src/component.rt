//! The names that stand in directories.
ghost use Rattle.std.specs.Prelude.{◌≡◌, ◌≤◌, ◌<◌, length, IsTrue, IfSome, IfNone, ◌≢◌, true, false, MatchOption, bytes_eq};
ghost use Rattle.std.specs.List.{list_all};
ghost use Rattle.dir_records.specs.Components.{is_component_byte as may_stand, is_component, filled as filled_up};
ghost use Rattle.dir_records.specs.Marks.{word_at, stirred as stirred_in, mark_of};

use std::marker::Model;

/// The most bytes of a name.
pub const COMPONENT_BYTES: usize = 32;

/// How many marks there are.
pub(crate) const MARKS: usize = 1024;

/// A name of a directory's record: 1 to 32 letters, digits, `_`, `$` and `.`.
#[derive(Clone, Copy, Debug, PartialEq, Eq, PartialOrd, Ord)]
pub struct Component {
    /// The bytes of the name, and zeros behind them.
    bytes: [u8; COMPONENT_BYTES],
    size: u8,
}

impl Model for Component {
    ghost use Rattle.std.specs.Prelude.{ℕ, List, length, take};
    ghost use Rattle.dir_records.specs.Padding.{name_length, same_bytes};
    ghost use Rattle.dir_records.specs.Components.{filled, IsPadded};

    ghost Value = { List ℕ };

    ghost view = { λ c. take c.size c.bytes };

    ghost invariant = { λ c. IsPadded c.bytes c.size };

    ghost inverse = { λ name. record { bytes = filled name; size = length name } };

    ghost inverse_ok = { λ c h i. record { bytes = same_bytes c.bytes c.size h i; size = name_length c.bytes c.size h i } };
}

/// Whether this byte may stand in a name.
fn is_component_byte(byte: u8) -> bool
    ensures { result ≡ may_stand byte }
{
    byte.is_ascii_alphanumeric() || matches!(byte, b'_' | b'$' | b'.')
}

/// Whether each byte may stand in a name.
fn are_component_bytes(name: &[u8]) -> bool
    ensures { result ≡ list_all may_stand name.now }
{
    name.iter().all(|b| is_component_byte(*b))
}

/// Eight of these bytes, as a number.
fn word(bytes: &[u8; COMPONENT_BYTES], start: usize) -> u64
    requires { start ≤ 24 }
    ensures { result ≡ word_at start bytes.now }
{
    let mut word = [0; 8];
    word.copy_from_slice(&bytes[start..start + 8]);
    u64::from_le_bytes(word)
}

/// A word stirred into what the words before it gave.
fn stirred(before: u64, word: u64) -> u64
    ensures { result ≡ stirred_in before word }
{
    before
        .wrapping_add(word)
        .wrapping_mul(0x9e37_79b9_7f4a_7c15)
}

impl Component {
    /// The name of these bytes; None exactly where they are none. Takes no memory.
    pub fn read(name: &[u8]) -> Option<Component>
        ensures { MatchOption result (is_component name.now ≡ false) (λ c. (c ≡ name.now) × (is_component name.now ≡ true)) }
    {
        if name.is_empty() || name.len() > COMPONENT_BYTES || !are_component_bytes(name) {
            return None;
        }
        let mut bytes = [0; COMPONENT_BYTES];
        bytes[..name.len()].copy_from_slice(name);
        Some(Component {
            bytes,
            size: name.len() as u8,
        })
    }

    /// Its bytes. Takes no memory.
    pub fn bytes(&self) -> &[u8]
        ensures value { result.now ≡ self.now }
        ensures form { IsTrue (is_component self.now) }
    {
        &self.bytes[..self.size as usize]
    }

    /// Whether it is the same name. Takes no memory.
    #[inline(always)]
    pub(crate) fn is(&self, other: &Component) -> bool
        ensures { result ≡ bytes_eq self.now other.now }
    {
        let (own, others) = (self.filled(), other.filled());
        // Names that differ mostly do so in their first word.
        if word(own, 0) != word(others, 0) {
            return false;
        }
        self.size == other.size && *own == *others
    }

    /// A number that the name determines; that of another name is mostly another. Takes no memory.
    pub(crate) fn mark(&self) -> usize
        ensures value { result ≡ mark_of self.now }
        ensures few { result < MARKS }
    {
        let bytes = self.filled();
        let front = stirred(stirred(0, word(bytes, 0)), word(bytes, 8));
        let all = stirred(stirred(front, word(bytes, 16)), word(bytes, 24));
        (all >> 54) as usize
    }

    /// Its bytes, filled up with zeros. Takes no memory.
    pub fn filled(&self) -> &[u8; COMPONENT_BYTES]
        ensures { result.now ≡ filled_up self.now }
    {
        &self.bytes
    }
}
