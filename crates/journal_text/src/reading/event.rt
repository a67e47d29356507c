//! An event, from its line without the end.
ghost use Rattle.std.specs.Prelude.{◌≡◌, ◌≢◌, ◌++◌, ◌∷◌, ℕ, List, codes, IfSome, IfOk, IfNone};
ghost use Rattle.dom_history.specs.Events.{Happening, IsWhat};
ghost use Rattle.dom_history.specs.NodeTexts.{AreNodeNames};
ghost use Rattle.journal_text.specs.Lines.{what_text, place_text, line};
ghost use Rattle.journal_text.specs.Walk.LineStarts.{what_of, what_behind, what_word_text, notice_of, mark_of, start_of};
ghost use Rattle.journal_text.specs.Written.{IsCount, IsNode, IsWhatOf, IsWritten};

use super::effects::read_effects;
use super::fields::{node, number, number32, numbered, proc};
use super::words::{WhatWord, what_word};
use crate::heads::head;
use dom_history::{Event, NodeNames, What};
use dom_text::cut;
use std::alloc::Global;
use uid_names::{NoMemory, Place};

/// A notice, from the text behind its word.
#[tactic(auto, unfolding(crate::specs::Walk::LineStarts::notice_of))]
fn notice(names: &NodeNames, text: &[u8]) -> Option<What>
    ensures value { result ≡ notice_of names.now text.now }
    ensures text { IfSome result (λ what. codes "notice " ++ text.now ≡ what_text names.now what) }
    ensures range { IfSome result (IsWhatOf names.now) }
    ensures proc { IfSome result IsWhat }
{
    let (digits, rest) = cut(text, b' ')?;
    let proc = proc(digits)?;
    let (name, rest) = cut(rest, b' ')?;
    let from = node(names, name)?;
    let (into, index) = numbered(names, rest)?;
    Some(What::Notice(proc, from, into, index))
}

/// A mark, from the text behind its word.
#[tactic(auto, unfolding(crate::specs::Walk::LineStarts::mark_of))]
fn mark(names: &NodeNames, text: &[u8]) -> Option<What>
    ensures value { result ≡ mark_of names.now text.now }
    ensures text { IfSome result (λ what. codes "mark " ++ text.now ≡ what_text names.now what) }
    ensures range { IfSome result (IsWhatOf names.now) }
    ensures proc { IfSome result IsWhat }
{
    let (name, digits) = cut(text, b' ')?;
    let from = node(names, name)?;
    let phase = number32(digits)?;
    Some(What::Mark(from, phase))
}

/// An event of this word, from the text behind the word.
#[tactic(auto, unfolding(crate::specs::Walk::LineStarts::what_behind))]
fn what_of_word(names: &NodeNames, word: WhatWord, text: &[u8]) -> Option<What>
    ensures value { result ≡ what_behind names.now word text.now }
    ensures text { IfSome result (λ what. what_word_text word ++ 32 ∷ text.now ≡ what_text names.now what) }
    ensures range { IfSome result (IsWhatOf names.now) }
    ensures proc { IfSome result IsWhat }
{
    match word {
        WhatWord::Begin => Some(What::Begin(proc(text)?)),
        WhatWord::Go => Some(What::Go(proc(text)?)),
        WhatWord::Take => {
            let (from, index) = numbered(names, text)?;
            Some(What::Take(from, index))
        }
        WhatWord::Notice => notice(names, text),
        WhatWord::Ready => Some(What::Ready(number32(text)?)),
        WhatWord::Mark => mark(names, text),
    }
}

/// What an event is.
#[tactic(auto, unfolding(crate::specs::Walk::LineStarts::what_of))]
fn what(names: &NodeNames, text: &[u8]) -> Option<What>
    ensures value { result ≡ what_of names.now text.now }
    ensures text { IfSome result (λ what. text.now ≡ what_text names.now what) }
    ensures range { IfSome result (IsWhatOf names.now) }
    ensures proc { IfSome result IsWhat }
{
    let (word, rest) = cut(text, b' ')?;
    let word = what_word(word)?;
    what_of_word(names, word, rest)
}

/// Where an event stands, and what it is.
#[tactic(auto, unfolding(crate::specs::Walk::LineStarts::start_of))]
fn start(names: &NodeNames, text: &[u8]) -> Option<(Place, What)>
    ensures value { result ≡ start_of names.now text.now }
    ensures text { IfSome result (λ found. text.now ≡ place_text names.now found.0 ++ what_text names.now found.1) }
    ensures tick { IfSome result (λ found. IsCount found.0.tick) }
    ensures node { IfSome result (λ found. IsNode names.now found.0.node) }
    ensures range { IfSome result (λ found. IsWhatOf names.now found.1) }
    ensures proc { IfSome result (λ found. IsWhat found.1) }
{
    let (digits, rest) = cut(text, b' ')?;
    let tick = number(digits)?;
    let (name, rest) = cut(rest, b' ')?;
    let node = node(names, name)?;
    let what = what(names, rest)?;
    Some((Place { tick, node }, what))
}

/// The event whose line, without its end, is the text.
pub(super) fn read_event(
    alloc: Global,
    names: &NodeNames,
    text: &[u8],
) -> Result<Option<Event>, NoMemory>
    requires { AreNodeNames names.now }
    ensures text { IfOk result (λ found. IfSome found (λ e. text.now ++ codes "\n" ≡ line names.now e)) }
    ensures written { IfOk result (λ found. IfSome found (IsWritten names.now)) }
    ensures none { IfOk result (λ found. IfNone found ((e : Happening) → IsWritten names.now e → text.now ++ codes "\n" ≢ line names.now e)) }
{
    let (front, back) = head(text);
    let Some((place, what)) = start(names, front) else {
        return Ok(None);
    };
    let Some(effects) = read_effects(alloc, names, back)? else {
        return Ok(None);
    };
    if !effects.dropped.is_rising() {
        return Ok(None);
    }
    Ok(Some(Event::new(place, what, effects)))
}
