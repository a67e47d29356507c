//! How an operation ended, in one word.
ghost use Rattle.std.specs.Prelude.{◌≡◌, ◌≢◌, MatchOption};
ghost use Rattle.dom_history.specs.declared.end_word.EndWord.{EndWord};
ghost use Rattle.uid_names.specs.Texts.{begun_so, written_so};
ghost use Rattle.dom_history.specs.EndWords.{word_text, all_ends, end_of_word, word_of};

use crate::op::Reply;

/// How an operation ended: done, or with one of the other replies.
#[derive(Clone, Copy, Debug, PartialEq, Eq, PartialOrd, Ord, Hash)]
pub enum EndWord {
    Fine,
    Conflict,
    NoObject,
    AlreadyHeld,
    NotHeld,
    Unsettled,
    TooMany,
    NoLock,
    WrongMode,
    PastRoom,
    PastEnd,
    NoSpace,
    Kept,
    Doubt,
    LinkFault,
    TooManyMaps,
    NoSegment,
    NotMapped,
}

impl EndWord {
    /// How it is written in a journal.
    pub fn word(self) -> &'static str
        ensures { result.now ≡ word_text self }
    {
        match self {
            EndWord::Fine => "ok",
            EndWord::Conflict => "conflict",
            EndWord::NoObject => "no-object",
            EndWord::AlreadyHeld => "already-held",
            EndWord::NotHeld => "not-held",
            EndWord::Unsettled => "unsettled",
            EndWord::TooMany => "too-many",
            EndWord::NoLock => "no-lock",
            EndWord::WrongMode => "wrong-mode",
            EndWord::PastRoom => "past-room",
            EndWord::PastEnd => "past-end",
            EndWord::NoSpace => "no-space",
            EndWord::Kept => "kept",
            EndWord::Doubt => "doubt",
            EndWord::LinkFault => "link-fault",
            EndWord::TooManyMaps => "too-many-maps",
            EndWord::NoSegment => "no-segment",
            EndWord::NotMapped => "not-mapped",
        }
    }

    /// The one that is written so; None exactly where none is.
    pub fn from_word(word: &[u8]) -> Option<EndWord>
        ensures value { result ≡ end_of_word word.now }
        ensures word { MatchOption result ((w : EndWord) → word.now ≢ word_text w) (λ w. word.now ≡ word_text w) }
    {
        let Some(first) = word.first() else {
            return None;
        };
        written_so(of_first(*first), word)
    }

    /// How an operation ended that has this reply.
    pub fn of(reply: &Reply) -> EndWord
        ensures { result ≡ word_of reply.now }
    {
        match reply {
            Reply::Made(_)
            | Reply::Fine
            | Reply::Bytes(_)
            | Reply::Size(_)
            | Reply::At {
                address: _,
                fresh: _,
            }
            | Reply::Locks { rows: _, more: _ } => EndWord::Fine,
            Reply::Conflict(_, _) => EndWord::Conflict,
            Reply::NoObject => EndWord::NoObject,
            Reply::AlreadyHeld => EndWord::AlreadyHeld,
            Reply::NotHeld => EndWord::NotHeld,
            Reply::Unsettled => EndWord::Unsettled,
            Reply::TooMany => EndWord::TooMany,
            Reply::NoLock => EndWord::NoLock,
            Reply::WrongMode => EndWord::WrongMode,
            Reply::PastRoom => EndWord::PastRoom,
            Reply::PastEnd => EndWord::PastEnd,
            Reply::NoSpace => EndWord::NoSpace,
            Reply::Kept => EndWord::Kept,
            Reply::Doubt => EndWord::Doubt,
            Reply::LinkFault => EndWord::LinkFault,
            Reply::TooManyMaps => EndWord::TooManyMaps,
            Reply::NoSegment => EndWord::NoSegment,
            Reply::NotMapped => EndWord::NotMapped,
        }
    }
}

/// The ends whose words begin with this byte.
fn of_first(first: u8) -> &'static [EndWord]
    ensures { result.now ≡ begun_so word_text all_ends first }
{
    match first {
        b'o' => &[EndWord::Fine],
        b'c' => &[EndWord::Conflict],
        b'n' => &[
            EndWord::NoObject,
            EndWord::NotHeld,
            EndWord::NoLock,
            EndWord::NoSpace,
            EndWord::NoSegment,
            EndWord::NotMapped,
        ],
        b'a' => &[EndWord::AlreadyHeld],
        b'u' => &[EndWord::Unsettled],
        b't' => &[EndWord::TooMany, EndWord::TooManyMaps],
        b'w' => &[EndWord::WrongMode],
        b'p' => &[EndWord::PastRoom, EndWord::PastEnd],
        b'k' => &[EndWord::Kept],
        b'd' => &[EndWord::Doubt],
        b'l' => &[EndWord::LinkFault],
        _ => &[],
    }
}

/// The first of these ends that is written so.
fn written_so(ends: &[EndWord], word: &[u8]) -> Option<EndWord>
    ensures { result ≡ written_so word_text ends.now word.now }
{
    for end in ends {
        if end.word().as_bytes() == word {
            return Some(*end);
        }
    }
    None
}
