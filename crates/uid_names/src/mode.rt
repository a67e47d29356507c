//! Modes of locks and kinds of objects. Every layer speaks of modes by these calls alone.
ghost use Rattle.std.specs.Prelude.{◌≡◌, ◌≢◌, MatchOption};
ghost use Rattle.uid_names.specs.Modes.{mode_writes, mode_removes, mode_shared, are_together, modes_clash, mode_letter, mode_code, mode_of_letter, mode_of_code, object_code, object_of_code};
ghost use Rattle.uid_names.specs.declared.mode.Mode.{Mode};
ghost use Rattle.uid_names.specs.declared.mode.ObjKind.{ObjKind};

use crate::ids::ProcId;

/// How a lock is held.
#[derive(Clone, Copy, Debug, PartialEq, Eq, PartialOrd, Ord, Hash)]
pub enum Mode {
    Read,
    Write,
    CoWrite,
}

impl Mode {
    /// Whether a holder may store.
    pub fn writes(self) -> bool
        ensures { result ≡ mode_writes self }
    {
        match self {
            Mode::Read => false,
            Mode::Write | Mode::CoWrite => true,
        }
    }

    /// `r`, `w` or `c`, as scripts and answers have it.
    pub fn letter(self) -> u8
        ensures { result ≡ mode_letter self }
    {
        match self {
            Mode::Read => b'r',
            Mode::Write => b'w',
            Mode::CoWrite => b'c',
        }
    }

    /// Whether a holder may remove the object: Write alone, and no other mode that writes.
    pub fn removes(self) -> bool
        ensures { result ≡ mode_removes self }
    {
        match self {
            Mode::Read | Mode::CoWrite => false,
            Mode::Write => true,
        }
    }

    /// Whether several processes of one node may hold an object so at once.
    pub fn is_shared(self) -> bool
        ensures { result ≡ mode_shared self }
    {
        match self {
            Mode::Read | Mode::Write => false,
            Mode::CoWrite => true,
        }
    }

    /// The mode of this letter.
    pub fn from_letter(letter: u8) -> Option<Mode>
        ensures value { result ≡ mode_of_letter letter }
        ensures letter { MatchOption result ((m : Mode) → letter ≢ mode_letter m) (λ m. letter ≡ mode_letter m) }
    {
        match letter {
            b'r' => Some(Mode::Read),
            b'w' => Some(Mode::Write),
            b'c' => Some(Mode::CoWrite),
            _ => None,
        }
    }

    /// 1, 2 or 3, as frames have it.
    pub fn code(self) -> u8
        ensures { result ≡ mode_code self }
    {
        match self {
            Mode::Read => 1,
            Mode::Write => 2,
            Mode::CoWrite => 3,
        }
    }

    /// The mode of this number in a frame.
    pub fn from_code(code: u8) -> Option<Mode>
        ensures value { result ≡ mode_of_code code }
        ensures code { MatchOption result ((m : Mode) → code ≢ mode_code m) (λ m. code ≡ mode_code m) }
    {
        match code {
            1 => Some(Mode::Read),
            2 => Some(Mode::Write),
            3 => Some(Mode::CoWrite),
            _ => None,
        }
    }
}

/// Whether two that write go together: both are shared, and of processes of one node.
fn write_together(p: ProcId, m: Mode, q: ProcId, n: Mode) -> bool
    ensures { result ≡ are_together p m q n }
{
    m.is_shared() && n.is_shared() && p.node().number() == q.node().number()
}

/// Whether the locks of two processes on one object conflict: unless both only read, or they write together.
pub fn clash(p: ProcId, m: Mode, q: ProcId, n: Mode) -> bool
    ensures { result ≡ modes_clash p m q n }
{
    (m.writes() || n.writes()) && !write_together(p, m, q, n)
}

/// What an object is.
#[derive(Clone, Copy, Debug, PartialEq, Eq, PartialOrd, Ord, Hash)]
pub enum ObjKind {
    File,
    Directory,
    Link,
    Mail,
}

impl ObjKind {
    /// 1 to 4, as frames have it.
    pub fn code(self) -> u8
        ensures { result ≡ object_code self }
    {
        match self {
            ObjKind::File => 1,
            ObjKind::Directory => 2,
            ObjKind::Link => 3,
            ObjKind::Mail => 4,
        }
    }

    /// The kind of this number in a frame.
    pub fn from_code(code: u8) -> Option<ObjKind>
        ensures value { result ≡ object_of_code code }
        ensures code { MatchOption result ((k : ObjKind) → code ≢ object_code k) (λ k. code ≡ object_code k) }
    {
        match code {
            1 => Some(ObjKind::File),
            2 => Some(ObjKind::Directory),
            3 => Some(ObjKind::Link),
            4 => Some(ObjKind::Mail),
            _ => None,
        }
    }
}
