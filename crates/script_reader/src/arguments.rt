//! The arguments of commands: tokens taken by their kinds, and the tests of them that ask for nothing else. Only what is copied, and
//! the test of a path, takes memory.
ghost use Rattle.std.specs.Prelude.{◌≡◌, ◌≤◌, Some, None, MatchOption, IfOk, OnSome, [], length};
ghost use Rattle.std.specs.List.{list_all};
ghost use Rattle.dom_text.specs.Lent.{owned};
ghost use Rattle.script_reader.specs.Forms.{absent as absent_of, argument_form, arguments_form, text_argument as text_argument_of, word_argument as word_argument_of};
ghost use Rattle.script_reader.specs.NamesAsked.{has_name as has_name_of};
ghost use Rattle.script_reader.specs.Numbers.{has_number as has_number_of, has_to as has_to_of, has_room as has_room_of, has_offset as has_offset_of};
ghost use Rattle.script_reader.specs.SaidCommands.{argument_at as argument_at_place, bytes_of, mode_of as mode_of_argument, number_of, pages_of, path_of};
ghost use Rattle.script_reader.specs.Walk.Formed.{AreFormed};
ghost use Rattle.script_reader.specs.Walk.Seen.{seen_argument, seen_arguments, seen_found, seen_token};
ghost use Rattle.script_reader.specs.Words.{mode_of_word};

use crate::numbers::{address, count, offset, room};
use crate::words::Kind;
use arrayvec::ArrayVec;
use dir_records::is_path;
use dom_text::{TokenRef, is_name};
use std::alloc::Global;
use uid_names::{ByteList, Mode, NoMemory, PAGE_BYTES, wire_room};

/// The most bytes of a text that a mailbox takes.
const MESSAGE_BYTES: usize = 120;

/// The most arguments of a command.
pub(crate) const MAX_ARGUMENTS: usize = 3;

/// An argument of a command: the number where its word spells one of the kind's range, and else the bytes.
#[derive(Clone, Copy)]
pub(crate) enum Argument<'a> {
    Var(&'a [u8]),
    NewVar(&'a [u8]),
    Room(Option<u32>),
    Offset(Option<u32>),
    Count(Option<u32>),
    Address(Option<u32>),
    Text(&'a [u8]),
    Message(&'a [u8]),
    Mode(Mode),
    Home(Option<&'a [u8]>),
    HomeNode(&'a [u8]),
    /// None where it is left out.
    OptionalRoom(Option<Option<u32>>),
    Path(&'a [u8]),
    OptionalPath(Option<&'a [u8]>),
}

impl Default for Argument<'_> {
    /// A home that is left out.
    fn default() -> Self {
        Argument::Home(None)
    }
}

impl Argument<'_> {
    /// Whether its number, or the length of its text, is in its range in a script of this version, where it has such.
    pub(crate) fn has_number(self, wire: u8) -> bool
        ensures { result ≡ has_number_of wire (seen_argument self.entry) }
    {
        match self {
            Argument::Room(found) => has_room(wire, found),
            Argument::Offset(found) => has_offset(wire, found),
            Argument::Count(found) | Argument::Address(found) => found.is_some(),
            Argument::Text(text) => !text.is_empty() && text.len() <= PAGE_BYTES,
            Argument::Message(text) => !text.is_empty() && text.len() <= MESSAGE_BYTES,
            Argument::OptionalRoom(Some(found)) => has_room(wire, found),
            _ => true,
        }
    }

    /// Whether its name or its path is one, where it has such.
    pub(crate) fn has_name(self, alloc: Global) -> Result<bool, NoMemory>
        ensures { IfOk result (λ has. has ≡ has_name_of (seen_argument self.entry)) }
    {
        match self {
            Argument::Var(name)
            | Argument::NewVar(name)
            | Argument::Home(Some(name))
            | Argument::HomeNode(name) => Ok(is_name(name)),
            Argument::Path(path) | Argument::OptionalPath(Some(path)) => is_path(alloc, path),
            _ => Ok(true),
        }
    }

    /// A copy of its bytes, where it is a name of a variable, a text or a path that is not left out.
    pub(crate) fn copy(self, alloc: Global) -> Result<ByteList, NoMemory>
        ensures { IfOk result (λ copy. copy ≡ bytes_of (seen_argument self.entry)) }
    {
        match self {
            Argument::Var(bytes)
            | Argument::NewVar(bytes)
            | Argument::Text(bytes)
            | Argument::Message(bytes)
            | Argument::Path(bytes) => ByteList::from_slice(alloc, bytes),
            _ => Ok(ByteList::new(alloc)),
        }
    }

    /// Its number, where it has one.
    pub(crate) fn number(self) -> u32
        ensures { result ≡ number_of (seen_argument self.entry) }
    {
        match self {
            Argument::Room(Some(number))
            | Argument::Offset(Some(number))
            | Argument::Count(Some(number))
            | Argument::Address(Some(number)) => number,
            _ => 0,
        }
    }

    /// Its mode, where it is one.
    pub(crate) fn mode(self) -> Mode
        ensures { result ≡ mode_of_argument (seen_argument self.entry) }
    {
        match self {
            Argument::Mode(mode) => mode,
            _ => Mode::Read,
        }
    }

    /// Its pages, where it is a room that may be left out and is not.
    pub(crate) fn pages(self) -> Option<u32>
        ensures { result ≡ pages_of (seen_argument self.entry) }
    {
        match self {
            Argument::OptionalRoom(Some(found)) => Some(found.unwrap_or(0)),
            _ => None,
        }
    }

    /// A copy of its path, where it is one that may be left out and is not.
    pub(crate) fn path(self, alloc: Global) -> Result<Option<ByteList>, NoMemory>
        ensures { IfOk result (λ path. path ≡ path_of (seen_argument self.entry)) }
    {
        match self {
            Argument::OptionalPath(Some(path)) => Ok(Some(ByteList::from_slice(alloc, path)?)),
            _ => Ok(None),
        }
    }
}

/// Whether there is a number, and none above this one.
fn has_to(high: u32, found: Option<u32>) -> bool
    ensures { result ≡ has_to_of high found }
{
    match found {
        Some(number) => number <= high,
        None => false,
    }
}

/// Whether there is a room that this version can write.
pub(crate) fn has_room(wire: u8, found: Option<u32>) -> bool
    ensures { result ≡ has_room_of wire found }
{
    has_to(wire_room(wire), found)
}

/// Whether there is an offset in a room that this version can write.
fn has_offset(wire: u8, found: Option<u32>) -> bool
    ensures { result ≡ has_offset_of wire found }
{
    has_to(wire_room(wire) * PAGE_BYTES as u32 - 1, found)
}

/// The argument at a place; behind the last one a home that is left out.
pub(crate) fn argument_at<'a>(arguments: &[Argument<'a>], at: usize) -> Argument<'a>
    ensures { seen_argument result ≡ argument_at_place (seen_arguments arguments.now) at }
{
    match arguments.get(at) {
        Some(argument) => *argument,
        None => Argument::Home(None),
    }
}

/// A word as an argument of a kind.
fn word_argument(kind: Kind, word: &[u8]) -> Option<Argument<'_>>
    ensures { seen_found result ≡ word_argument_of kind word.now }
{
    match kind {
        Kind::Var => Some(Argument::Var(word)),
        Kind::NewVar => Some(Argument::NewVar(word)),
        Kind::Room => Some(Argument::Room(room(word))),
        Kind::Offset => Some(Argument::Offset(offset(word))),
        Kind::Count => Some(Argument::Count(count(word))),
        Kind::Address => Some(Argument::Address(address(word))),
        Kind::Text | Kind::Message => None,
        Kind::Mode => Some(Argument::Mode(mode_of(word)?)),
        Kind::Home => Some(Argument::Home(Some(word))),
        Kind::HomeNode => Some(Argument::HomeNode(word)),
        Kind::OptionalRoom => Some(Argument::OptionalRoom(Some(room(word)))),
        Kind::Path => Some(Argument::Path(word)),
        Kind::OptionalPath => Some(Argument::OptionalPath(Some(word))),
    }
}

/// The mode that a word of one letter is.
fn mode_of(word: &[u8]) -> Option<Mode>
    ensures { result ≡ mode_of_word word.now }
{
    match word {
        [letter] => Mode::from_letter(*letter),
        _ => None,
    }
}

/// A quoted text as an argument of a kind.
fn text_argument(kind: Kind, text: &[u8]) -> Option<Argument<'_>>
    ensures { seen_found result ≡ text_argument_of kind text.now }
{
    match kind {
        Kind::Text => Some(Argument::Text(text)),
        Kind::Message => Some(Argument::Message(text)),
        _ => None,
    }
}

/// An argument of a kind that is left out.
fn absent<'a>(kind: Kind) -> Option<Argument<'a>>
    ensures { seen_found result ≡ absent_of kind }
{
    match kind {
        Kind::Home => Some(Argument::Home(None)),
        Kind::OptionalRoom => Some(Argument::OptionalRoom(None)),
        Kind::OptionalPath => Some(Argument::OptionalPath(None)),
        _ => None,
    }
}

/// What stands at an argument's place, or nothing, as an argument of a kind.
fn token_argument<'a>(kind: Kind, token: Option<&'a TokenRef<'_>>) -> Option<Argument<'a>>
    ensures { seen_found result ≡ argument_form kind (seen_token token.entry) }
{
    match token {
        Some(TokenRef::Word(word)) => word_argument(kind, *word),
        Some(TokenRef::Plain(text)) => text_argument(kind, *text),
        Some(TokenRef::Text(text)) => text_argument(kind, text.bytes()),
        None => absent(kind),
    }
}

/// Makes an empty list hold the tokens as arguments of these kinds, with none left over; None where they have not that form.
pub(crate) fn read_arguments<'a>(
    kinds: &[Kind],
    tokens: &'a [TokenRef<'_>],
    found: &mut ArrayVec<Argument<'a>, MAX_ARGUMENTS>,
) -> Option<()>
    requires few { length kinds.now ≤ 3 }
    requires empty { found.old.items ≡ [] }
    ensures form { MatchOption result (arguments_form kinds.now (owned tokens.now) ≡ None) (λ _. arguments_form kinds.now (owned tokens.now) ≡ Some (seen_arguments found.new.items)) }
    ensures formed { OnSome result (AreFormed kinds.now (seen_arguments found.new.items)) }
{
    if tokens.len() > kinds.len() {
        return None;
    }
    for (at, kind) in kinds.iter().enumerate() {
        let Some(argument) = token_argument(*kind, tokens.get(at)) else {
            return None;
        };
        found.push(argument);
    }
    Some(())
}

/// Whether all numbers, addresses and lengths of texts are in their ranges in a script of this version.
pub(crate) fn have_numbers(arguments: &[Argument<'_>], wire: u8) -> bool
    ensures { result ≡ list_all (has_number_of wire) (seen_arguments arguments.now) }
{
    arguments.iter().all(|argument| argument.has_number(wire))
}

/// Whether all names are names, and all paths are paths.
pub(crate) fn have_names(alloc: Global, arguments: &[Argument<'_>]) -> Result<bool, NoMemory>
    ensures { IfOk result (λ have. have ≡ list_all has_name_of (seen_arguments arguments.now)) }
{
    for argument in arguments {
        if !argument.has_name(alloc)? {
            return Ok(false);
        }
    }
    Ok(true)
}
