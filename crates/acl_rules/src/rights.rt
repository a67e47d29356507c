//! Rights, and how they are written. No function takes memory.
ghost use Rattle.std.specs.Prelude.{◌≡◌, ◌≢◌, MatchOption};
ghost use Rattle.acl_rules.specs.RightTexts.{rights_with, rights_of, rights_text};
ghost use Rattle.acl_rules.specs.Decisions.{has_all as has_each, has_if};
ghost use Rattle.acl_rules.specs.declared.rights.Rights.{Rights};

/// Rights to a directory: to read in it, to write in it, to change its names, and to change its list.
#[derive(Clone, Copy, Debug, PartialEq, Eq)]
pub struct Rights {
    pub r: bool,
    pub w: bool,
    pub n: bool,
    pub a: bool,
}

/// These rights.
fn rights_to(r: bool, w: bool, n: bool, a: bool) -> Rights
    ensures { result ≡ rights_with r w n a }
{
    Rights { r, w, n, a }
}

/// The rights of a word: `-`, or letters in their order; None where it is neither.
pub(crate) fn read_rights(word: &[u8]) -> Option<Rights>
    ensures { result ≡ rights_of word.now }
{
    written_so(word)
}

/// The rights that are written so.
fn written_so(word: &[u8]) -> Option<Rights>
    ensures { MatchOption result ((x : Rights) → word.now ≢ rights_text x) (λ x. word.now ≡ rights_text x) }
{
    match word {
        b"-" => Some(rights_to(false, false, false, false)),
        b"r" => Some(rights_to(true, false, false, false)),
        b"w" => Some(rights_to(false, true, false, false)),
        b"rw" => Some(rights_to(true, true, false, false)),
        b"n" => Some(rights_to(false, false, true, false)),
        b"rn" => Some(rights_to(true, false, true, false)),
        b"wn" => Some(rights_to(false, true, true, false)),
        b"rwn" => Some(rights_to(true, true, true, false)),
        b"a" => Some(rights_to(false, false, false, true)),
        b"ra" => Some(rights_to(true, false, false, true)),
        b"wa" => Some(rights_to(false, true, false, true)),
        b"rwa" => Some(rights_to(true, true, false, true)),
        b"na" => Some(rights_to(false, false, true, true)),
        b"rna" => Some(rights_to(true, false, true, true)),
        b"wna" => Some(rights_to(false, true, true, true)),
        b"rwna" => Some(rights_to(true, true, true, true)),
        _ => None,
    }
}

/// Whether a right is had, where it is needed.
fn has(need: bool, right: bool) -> bool
    ensures { result ≡ has_if need right }
{
    !need || right
}

impl Rights {
    /// Whether each right that is needed is among these.
    pub fn have_all(self, need: Rights) -> bool
        ensures { result ≡ has_each need self }
    {
        let names = has(need.n, self.n) && has(need.a, self.a);
        has(need.r, self.r) && (has(need.w, self.w) && names)
    }
}
