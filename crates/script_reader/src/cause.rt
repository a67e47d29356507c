//! Why a script is refused.
ghost use Rattle.std.specs.Prelude.{◌≡◌};
ghost use Rattle.script_reader.specs.Causes.{cause_text};
ghost use Rattle.script_reader.specs.declared.cause.ScriptFault.TheVariants.{NoMemory as OutOfMemory};
ghost use Rattle.script_reader.specs.declared.cause.LineFault.TheVariants.{NoMemory as LineWithoutMemory};

use std::alloc::{AllocError, AllocFailed};
use thiserror::Error;
use uid_names::NoMemory;

/// The cause for which a line is refused, in the order in which the causes are tested; `NoNode` refuses a
/// script without a bad line.
#[derive(Clone, Copy, Debug, PartialEq, Eq)]
pub enum Cause {
    TooLong,
    Byte,
    Quote,
    Word,
    Place,
    Form,
    Number,
    Name,
    Unknown,
    Repeat,
    Limit,
    NoNode,
}

impl Cause {
    /// Its text in a refusal.
    pub fn text(self) -> &'static str
        ensures { result.now ≡ cause_text self }
    {
        match self {
            Cause::TooLong => "too long",
            Cause::Byte => "byte",
            Cause::Quote => "quote",
            Cause::Word => "word",
            Cause::Place => "place",
            Cause::Form => "form",
            Cause::Number => "number",
            Cause::Name => "name",
            Cause::Unknown => "unknown",
            Cause::Repeat => "repeat",
            Cause::Limit => "limit",
            Cause::NoNode => "no node",
        }
    }
}

/// Why no script was read.
#[derive(Clone, Copy, Debug, PartialEq, Eq, Error)]
pub enum ScriptFault {
    /// This line is the first bad one, counted from 1; line 0 is the whole script.
    #[error("bad line")]
    Bad { line: u32, cause: Cause },
    /// There was no memory.
    #[error("no memory")]
    NoMemory,
}

/// Why a line is not read on.
#[derive(Clone, Copy, Debug, PartialEq, Eq)]
pub(crate) enum LineFault {
    /// It is refused for this cause.
    Bad(Cause),
    /// There was no memory.
    NoMemory,
}

impl From<NoMemory> for ScriptFault {
    ghost from_gives = { λ _ e. e ≡ OutOfMemory };

    fn from(_error: NoMemory) -> ScriptFault {
        ScriptFault::NoMemory
    }
}

impl From<NoMemory> for LineFault {
    ghost from_gives = { λ _ e. e ≡ LineWithoutMemory };

    fn from(_error: NoMemory) -> LineFault {
        LineFault::NoMemory
    }
}

impl<T: Drop> From<AllocFailed<T>> for LineFault {
    ghost from_gives = { λ _ e. e ≡ LineWithoutMemory };

    fn from(_error: AllocFailed<T>) -> LineFault {
        LineFault::NoMemory
    }
}

impl From<AllocError> for LineFault {
    ghost from_gives = { λ _ e. e ≡ LineWithoutMemory };

    fn from(_error: AllocError) -> LineFault {
        LineFault::NoMemory
    }
}
