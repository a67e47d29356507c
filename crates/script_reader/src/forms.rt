//! The forms of lines: how many tokens, which of them words or texts, and the fixed words. The numbers of a line are found here.
//! No function takes memory.
ghost use Rattle.std.specs.Prelude.{◌≡◌, MatchOption, IfSome, Some, None, ◌∷◌, []};
ghost use Rattle.dom_text.specs.Lent.{owned};
ghost use Rattle.dom_text.specs.declared.token.Token.TheVariants.{Word};
ghost use Rattle.script_reader.specs.Forms.{wire_form as wire_form_of, node_form as node_form_of, object_form as object_form_of, fault_form as fault_form_of, fate_form as fate_form_of, subject_form as subject_form_of};
ghost use Rattle.script_reader.specs.Walk.Formed.{HasForm, IsFateFound};
ghost use Rattle.script_reader.specs.Walk.Seen.{seen, seen_fate, BeginsWithNoWord, IsNotOneWord};

use crate::line::{Line, LineFate};
use crate::numbers::{frames, index, late, process, room, wire};
use dom_text::{TokenRef, cut_last};

/// The word that stands first, and the tokens behind it.
pub(crate) fn first_word<'a, 'l>(
    tokens: &'a [TokenRef<'l>],
) -> Option<(&'a [u8], &'a [TokenRef<'l>])>
    ensures { MatchOption result (BeginsWithNoWord (owned tokens.now)) (λ p. owned tokens.now ≡ Word p.0.now ∷ owned p.1.now) }
{
    let (first, rest) = tokens.split_first()?;
    match first {
        TokenRef::Word(word) => Some((*word, rest)),
        TokenRef::Plain(_) | TokenRef::Text(_) => None,
    }
}

/// A line of these tokens behind `wire`.
pub(crate) fn wire_form<'a>(tokens: &'a [TokenRef<'_>]) -> Option<Line<'a>>
    ensures form { MatchOption result (wire_form_of (owned tokens.now) ≡ None) (λ line. wire_form_of (owned tokens.now) ≡ Some (seen line)) }
    ensures formed { IfSome result (λ line. HasForm (seen line)) }
{
    let version = wire(only_word(tokens)?);
    Some(Line::Wire { version })
}

/// A line of these tokens behind `node`.
pub(crate) fn node_form<'a>(tokens: &'a [TokenRef<'_>]) -> Option<Line<'a>>
    ensures form { MatchOption result (node_form_of (owned tokens.now) ≡ None) (λ line. node_form_of (owned tokens.now) ≡ Some (seen line)) }
    ensures formed { IfSome result (λ line. HasForm (seen line)) }
{
    let (name, rest) = first_word(tokens)?;
    if rest.is_empty() {
        let frames = frames(None);
        return Some(Line::Node { name, frames });
    }
    let (fixed, rest) = first_word(rest)?;
    let frames = frames(Some(only_word(rest)?));
    if fixed == b"frames".as_slice() {
        Some(Line::Node { name, frames })
    } else {
        None
    }
}

/// A line of these tokens behind `object`.
pub(crate) fn object_form<'a>(tokens: &'a [TokenRef<'_>]) -> Option<Line<'a>>
    ensures form { MatchOption result (object_form_of (owned tokens.now) ≡ None) (λ line. object_form_of (owned tokens.now) ≡ Some (seen line)) }
    ensures formed { IfSome result (λ line. HasForm (seen line)) }
{
    let (var, rest) = first_word(tokens)?;
    let (pages, rest) = first_word(rest)?;
    let home = only_word(rest)?;
    let room = room(pages);
    Some(Line::Object { var, room, home })
}

/// A fate of these tokens.
fn fate_form(tokens: &[TokenRef<'_>]) -> Option<LineFate>
    ensures form { MatchOption result (fate_form_of (owned tokens.now) ≡ None) (λ fate. fate_form_of (owned tokens.now) ≡ Some (seen_fate fate)) }
    ensures found { IfSome result (λ fate. IsFateFound (seen_fate fate)) }
{
    let (fixed, rest) = first_word(tokens)?;
    if rest.is_empty() {
        return if fixed == b"lose".as_slice() {
            Some(LineFate::Lose)
        } else {
            None
        };
    }
    let late = late(only_word(rest)?);
    if fixed == b"twice".as_slice() {
        Some(LineFate::Twice(late))
    } else if fixed == b"late".as_slice() {
        Some(LineFate::Late(late))
    } else {
        None
    }
}

/// A line of these tokens behind `fault`.
pub(crate) fn fault_form<'a>(tokens: &'a [TokenRef<'_>]) -> Option<Line<'a>>
    ensures form { MatchOption result (fault_form_of (owned tokens.now) ≡ None) (λ line. fault_form_of (owned tokens.now) ≡ Some (seen line)) }
    ensures formed { IfSome result (λ line. HasForm (seen line)) }
{
    let (from, rest) = first_word(tokens)?;
    let (to, rest) = first_word(rest)?;
    let (number, rest) = first_word(rest)?;
    let fate = fate_form(rest)?;
    if from == to {
        return None;
    }
    let index = index(number);
    Some(Line::Fault {
        from,
        to,
        index,
        fate,
    })
}

/// A line of these tokens behind `subject`.
pub(crate) fn subject_form<'a>(tokens: &'a [TokenRef<'_>]) -> Option<Line<'a>>
    ensures form { MatchOption result (subject_form_of (owned tokens.now) ≡ None) (λ line. subject_form_of (owned tokens.now) ≡ Some (seen line)) }
    ensures formed { IfSome result (λ line. HasForm (seen line)) }
{
    let (first, rest) = first_word(tokens)?;
    let second = only_word(rest)?;
    let (node, digits) = cut_last(first, b'.')?;
    let (person, project) = cut_last(second, b'.')?;
    let number = process(digits);
    Some(Line::Subject {
        node,
        number,
        person,
        project,
    })
}

/// The word that is the only token.
fn only_word<'a>(tokens: &'a [TokenRef<'_>]) -> Option<&'a [u8]>
    ensures { MatchOption result (IsNotOneWord (owned tokens.now)) (λ word. owned tokens.now ≡ Word word.now ∷ []) }
{
    let (word, rest) = first_word(tokens)?;
    if rest.is_empty() { Some(word) } else { None }
}
