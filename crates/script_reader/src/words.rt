//! The words that begin lines and commands, and how a line names a process. No function takes memory.
ghost use Rattle.std.specs.Prelude.{◌≡◌, ◌≢◌, ◌≤◌, length, Some, None, MatchOption, IfSome, All, IsTrue, ◌↔◌};
ghost use Rattle.std.specs.Char.{is_ascii_digit};
ghost use Rattle.script_reader.specs.Words.{are_digits as are_digits_in, line_word_text, process_word as process_word_of, verb_text, verbs};
ghost use Rattle.uid_names.specs.Texts.{begun_so, written_so};
ghost use Rattle.script_reader.specs.Shapes.{shape_of};
ghost use Rattle.script_reader.specs.Walk.Formed.{IsProcessNumber};
ghost use Rattle.script_reader.specs.declared.words.LineWord.{LineWord};
ghost use Rattle.script_reader.specs.declared.words.Verb.{Verb};

use crate::numbers::process;
use dom_text::{cut, is_name};

/// A word that begins a line, beside those that name a process.
#[derive(Clone, Copy)]
pub(crate) enum LineWord {
    Wire,
    Node,
    Object,
    Fault,
    Phase,
    Access,
    Subject,
}

/// A command's word.
#[derive(Clone, Copy)]
pub(crate) enum Verb {
    New,
    Lock,
    Unlock,
    Delete,
    Load,
    Store,
    Length,
    Map,
    Unmap,
    Loadat,
    Storeat,
    Bind,
    Crf,
    Crd,
    Crl,
    Dlf,
    Catf,
    Lnf,
    Apf,
    Cpf,
    Crm,
    Putm,
    Takem,
    Ld,
    Wd,
    Llkob,
}

/// What an argument of a command is.
#[derive(Clone, Copy)]
pub(crate) enum Kind {
    /// A variable that the process knows.
    Var,
    /// A variable of an object that the command makes or finds.
    NewVar,
    /// A number of pages.
    Room,
    /// A place in an object, in bytes.
    Offset,
    /// A number of bytes.
    Count,
    Address,
    /// A quoted text.
    Text,
    /// A quoted text that a mailbox takes.
    Message,
    /// The mode of a lock.
    Mode,
    /// A node, which may be left out.
    Home,
    /// A node.
    HomeNode,
    /// A number of pages, which may be left out.
    OptionalRoom,
    Path,
    /// A path, which may be left out.
    OptionalPath,
}

impl Verb {
    /// How it is written.
    fn text(self) -> &'static [u8]
        ensures { result.now ≡ verb_text self }
    {
        match self {
            Verb::New => b"new",
            Verb::Lock => b"lock",
            Verb::Unlock => b"unlock",
            Verb::Delete => b"delete",
            Verb::Load => b"load",
            Verb::Store => b"store",
            Verb::Length => b"length",
            Verb::Map => b"map",
            Verb::Unmap => b"unmap",
            Verb::Loadat => b"loadat",
            Verb::Storeat => b"storeat",
            Verb::Bind => b"bind",
            Verb::Crf => b"crf",
            Verb::Crd => b"crd",
            Verb::Crl => b"crl",
            Verb::Dlf => b"dlf",
            Verb::Catf => b"catf",
            Verb::Lnf => b"lnf",
            Verb::Apf => b"apf",
            Verb::Cpf => b"cpf",
            Verb::Crm => b"crm",
            Verb::Putm => b"putm",
            Verb::Takem => b"takem",
            Verb::Ld => b"ld",
            Verb::Wd => b"wd",
            Verb::Llkob => b"llkob",
        }
    }

    /// The kinds of the command's arguments, in order. No command has more than three.
    pub(crate) fn shape(self) -> &'static [Kind]
        ensures value { result.now ≡ shape_of self }
        ensures few { length result.now ≤ 3 }
    {
        match self {
            Verb::New => &[Kind::NewVar, Kind::Room, Kind::Home],
            Verb::Lock => &[Kind::Var, Kind::Mode],
            Verb::Unlock => &[Kind::Var],
            Verb::Delete => &[Kind::Var],
            Verb::Load => &[Kind::Var, Kind::Offset, Kind::Count],
            Verb::Store => &[Kind::Var, Kind::Offset, Kind::Text],
            Verb::Length => &[Kind::Var],
            Verb::Map => &[Kind::Var],
            Verb::Unmap => &[Kind::Var],
            Verb::Loadat => &[Kind::Address, Kind::Count],
            Verb::Storeat => &[Kind::Address, Kind::Text],
            Verb::Bind => &[Kind::NewVar, Kind::Path],
            Verb::Crf => &[Kind::Path, Kind::OptionalRoom],
            Verb::Crd => &[Kind::Path],
            Verb::Crl => &[Kind::Path, Kind::Path],
            Verb::Dlf => &[Kind::Path],
            Verb::Catf => &[Kind::Path],
            Verb::Lnf => &[Kind::Path],
            Verb::Apf => &[Kind::Path, Kind::Text],
            Verb::Cpf => &[Kind::Path, Kind::Path],
            Verb::Crm => &[Kind::Path],
            Verb::Putm => &[Kind::Path, Kind::Message],
            Verb::Takem => &[Kind::Path],
            Verb::Ld => &[Kind::Path],
            Verb::Wd => &[Kind::OptionalPath],
            Verb::Llkob => &[Kind::HomeNode],
        }
    }
}

/// The line word that a word is.
pub(crate) fn read_line_word(word: &[u8]) -> Option<LineWord>
    ensures word { MatchOption result ((w : LineWord) → word.now ≢ line_word_text w) (λ w. word.now ≡ line_word_text w) }
{
    if word == b"wire".as_slice() {
        Some(LineWord::Wire)
    } else if word == b"node".as_slice() {
        Some(LineWord::Node)
    } else if word == b"object".as_slice() {
        Some(LineWord::Object)
    } else if word == b"fault".as_slice() {
        Some(LineWord::Fault)
    } else if word == b"phase".as_slice() {
        Some(LineWord::Phase)
    } else if word == b"access".as_slice() {
        Some(LineWord::Access)
    } else if word == b"subject".as_slice() {
        Some(LineWord::Subject)
    } else {
        None
    }
}

/// The command that a word is.
pub(crate) fn read_verb(word: &[u8]) -> Option<Verb>
    ensures word { MatchOption result ((v : Verb) → word.now ≢ verb_text v) (λ v. word.now ≡ verb_text v) }
{
    let Some(first) = word.first() else {
        return None;
    };
    verb_of(of_first(*first), word)
}

/// The commands whose words begin with this byte.
fn of_first(first: u8) -> &'static [Verb]
    ensures { result.now ≡ begun_so verb_text verbs first }
{
    match first {
        b'n' => &[Verb::New],
        b'l' => &[
            Verb::Lock,
            Verb::Load,
            Verb::Length,
            Verb::Loadat,
            Verb::Lnf,
            Verb::Ld,
            Verb::Llkob,
        ],
        b'u' => &[Verb::Unlock, Verb::Unmap],
        b'd' => &[Verb::Delete, Verb::Dlf],
        b's' => &[Verb::Store, Verb::Storeat],
        b'm' => &[Verb::Map],
        b'b' => &[Verb::Bind],
        b'c' => &[
            Verb::Crf,
            Verb::Crd,
            Verb::Crl,
            Verb::Catf,
            Verb::Cpf,
            Verb::Crm,
        ],
        b'a' => &[Verb::Apf],
        b'p' => &[Verb::Putm],
        b't' => &[Verb::Takem],
        b'w' => &[Verb::Wd],
        _ => &[],
    }
}

/// The first of these commands that is written so.
fn verb_of(verbs: &[Verb], word: &[u8]) -> Option<Verb>
    ensures { result ≡ written_so verb_text verbs.now word.now }
{
    for verb in verbs {
        if verb.text() == word {
            return Some(*verb);
        }
    }
    None
}

/// The node's name of a word that names a process, and the number that its digits spell.
pub(crate) fn process_word(word: &[u8]) -> Option<(&[u8], Option<u32>)>
    ensures word { MatchOption result (process_word_of word.now ≡ None) (λ p. process_word_of word.now ≡ Some (record { node = p.0.now; number = p.1 })) }
    ensures range { IfSome result (λ p. IfSome p.1 IsProcessNumber) }
{
    let Some((node, digits)) = cut(word, b'.') else {
        return None;
    };
    if !is_name(node) {
        return None;
    }
    if are_digits(digits) {
        Some((node, process(digits)))
    } else {
        None
    }
}

/// Whether each byte is a digit.
fn are_digit_bytes(word: &[u8]) -> bool
    ensures { IsTrue result ↔ All (λ b. IsTrue (is_ascii_digit b)) word.now }
{
    word.iter().all(|b| b.is_ascii_digit())
}

/// Whether a word is of digits, one at least.
fn are_digits(word: &[u8]) -> bool
    ensures { result ≡ are_digits_in word.now }
{
    if word.is_empty() {
        return false;
    }
    are_digit_bytes(word)
}
