//! The kinds of frames that nodes send each other.
ghost use Rattle.std.specs.Prelude.{◌≡◌, ◌≢◌, ◌<◌, ◌↔◌, IsTrue, MatchOption};
ghost use Rattle.uid_names.specs.FrameKinds.{kind_number, kind_name, all_kinds, kind_of_number, kind_of_name};
ghost use Rattle.uid_names.specs.Texts.{begun_so, written_so};
ghost use Rattle.uid_names.specs.declared.frame_kind.FrameKind.{FrameKind};

/// A kind of frame: eight requests to a home, and the eleven replies.
#[derive(Clone, Copy, Debug, PartialEq, Eq, PartialOrd, Ord, Hash)]
pub enum FrameKind {
    PageIn,
    PageOut,
    AttrOut,
    Lock,
    Unlock,
    Remove,
    Make,
    List,
    Page,
    Stored,
    Stale,
    NoGrant,
    NoObject,
    Granted,
    Conflict,
    Done,
    Made,
    NoSpace,
    Listed,
}

impl FrameKind {
    /// Its number in a frame's header.
    pub fn number(self) -> u8
        ensures { result ≡ kind_number self }
    {
        match self {
            FrameKind::PageIn => 1,
            FrameKind::PageOut => 2,
            FrameKind::AttrOut => 3,
            FrameKind::Lock => 4,
            FrameKind::Unlock => 5,
            FrameKind::Remove => 6,
            FrameKind::Make => 7,
            FrameKind::List => 8,
            FrameKind::Page => 129,
            FrameKind::Stored => 130,
            FrameKind::Stale => 131,
            FrameKind::NoGrant => 132,
            FrameKind::NoObject => 133,
            FrameKind::Granted => 134,
            FrameKind::Conflict => 135,
            FrameKind::Done => 136,
            FrameKind::Made => 137,
            FrameKind::NoSpace => 138,
            FrameKind::Listed => 139,
        }
    }

    /// The kind of this number.
    pub fn from_number(number: u8) -> Option<FrameKind>
        ensures value { result ≡ kind_of_number number }
        ensures number { MatchOption result ((k : FrameKind) → number ≢ kind_number k) (λ k. number ≡ kind_number k) }
    {
        match number {
            1 => Some(FrameKind::PageIn),
            2 => Some(FrameKind::PageOut),
            3 => Some(FrameKind::AttrOut),
            4 => Some(FrameKind::Lock),
            5 => Some(FrameKind::Unlock),
            6 => Some(FrameKind::Remove),
            7 => Some(FrameKind::Make),
            8 => Some(FrameKind::List),
            129 => Some(FrameKind::Page),
            130 => Some(FrameKind::Stored),
            131 => Some(FrameKind::Stale),
            132 => Some(FrameKind::NoGrant),
            133 => Some(FrameKind::NoObject),
            134 => Some(FrameKind::Granted),
            135 => Some(FrameKind::Conflict),
            136 => Some(FrameKind::Done),
            137 => Some(FrameKind::Made),
            138 => Some(FrameKind::NoSpace),
            139 => Some(FrameKind::Listed),
            _ => None,
        }
    }

    /// Its name in a journal.
    pub fn name(self) -> &'static str
        ensures { result.now ≡ kind_name self }
    {
        match self {
            FrameKind::PageIn => "page-in",
            FrameKind::PageOut => "page-out",
            FrameKind::AttrOut => "attr-out",
            FrameKind::Lock => "lock",
            FrameKind::Unlock => "unlock",
            FrameKind::Remove => "remove",
            FrameKind::Make => "make",
            FrameKind::List => "list",
            FrameKind::Page => "page",
            FrameKind::Stored => "stored",
            FrameKind::Stale => "stale",
            FrameKind::NoGrant => "no-grant",
            FrameKind::NoObject => "no-object",
            FrameKind::Granted => "granted",
            FrameKind::Conflict => "conflict",
            FrameKind::Done => "done",
            FrameKind::Made => "made",
            FrameKind::NoSpace => "no-space",
            FrameKind::Listed => "listed",
        }
    }

    /// The kind of this name.
    pub fn from_name(name: &[u8]) -> Option<FrameKind>
        ensures value { result ≡ kind_of_name name.now }
        ensures name { MatchOption result ((k : FrameKind) → name.now ≢ kind_name k) (λ k. name.now ≡ kind_name k) }
    {
        let Some(first) = name.first() else {
            return None;
        };
        named(of_first(*first), name)
    }

    /// Whether it is a request to a home; a reply of a home else.
    pub fn is_request(self) -> bool
        ensures { IsTrue result ↔ (kind_number self < 128) }
    {
        self.number() < 128
    }
}

/// The kinds whose names begin with this byte.
fn of_first(first: u8) -> &'static [FrameKind]
    ensures { result.now ≡ begun_so kind_name all_kinds first }
{
    match first {
        b'p' => &[FrameKind::PageIn, FrameKind::PageOut, FrameKind::Page],
        b'a' => &[FrameKind::AttrOut],
        b'l' => &[FrameKind::Lock, FrameKind::List, FrameKind::Listed],
        b'u' => &[FrameKind::Unlock],
        b'r' => &[FrameKind::Remove],
        b'm' => &[FrameKind::Make, FrameKind::Made],
        b's' => &[FrameKind::Stored, FrameKind::Stale],
        b'n' => &[FrameKind::NoGrant, FrameKind::NoObject, FrameKind::NoSpace],
        b'g' => &[FrameKind::Granted],
        b'c' => &[FrameKind::Conflict],
        b'd' => &[FrameKind::Done],
        _ => &[],
    }
}

/// The first of these kinds that has this name.
fn named(kinds: &[FrameKind], name: &[u8]) -> Option<FrameKind>
    ensures { result ≡ written_so kind_name kinds.now name.now }
{
    for kind in kinds {
        if kind.name().as_bytes() == name {
            return Some(*kind);
        }
    }
    None
}
