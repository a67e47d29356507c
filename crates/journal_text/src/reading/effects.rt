//! What an event did, from the text behind what it is.
ghost use Rattle.std.specs.Prelude.{◌≡◌, ◌++◌, ◌∷◌, [], Some, None, IsTrue, IfSome, IfOk, if◌then◌else◌};
ghost use Rattle.uid_names.specs.FrameKinds.{kind_number};
ghost use Rattle.dom_history.specs.Events.{IsKindNumber};
ghost use Rattle.dom_history.specs.Ranges.{IsProcNumber};
ghost use Rattle.dom_history.specs.declared.event.Effects.{Effects};
ghost use Rattle.journal_text.specs.Walk.Heads.{BeginsWithSemicolon, pieces_of};
ghost use Rattle.journal_text.specs.Lines.{drop_text, sent_text, ended_text, effects_text};
ghost use Rattle.journal_text.specs.Walk.LineEffects.{page_of, sent_of, ended_of, effect_in, effect_of, effects_of, and_effect, with_effect};
ghost use Rattle.journal_text.specs.Walk.EffectTexts.{effect_text, IsEffect, AreRead};
ghost use Rattle.journal_text.specs.Written.{IsPage, IsSent};

use super::fields::{end_word, kind, node, number, number32, proc, uid};
use super::words::{EffectWord, effect_word};
use crate::heads::head;
use dom_history::{Dropped, Effects, EndWord, NodeNames, Sent};
use dom_text::cut;
use std::alloc::Global;
use uid_names::{NoMemory, Uid};

/// One thing that an event did.
#[derive(Clone, Copy)]
pub(crate) enum Effect {
    /// It dropped a page.
    Drop(Uid, u32),
    /// It sent a frame.
    Send(Sent),
    /// The operation of a process ended.
    End(u8, EndWord),
}

/// The object and the number of a page that was dropped.
#[tactic(auto, unfolding(crate::specs::Walk::LineEffects::page_of))]
fn page(text: &[u8]) -> Option<(Uid, u32)>
    ensures value { result ≡ page_of text.now }
    ensures text { IfSome result (λ page. 59 ∷ 32 ∷ 100 ∷ 114 ∷ 111 ∷ 112 ∷ 32 ∷ text.now ≡ drop_text page) }
    ensures range { IfSome result IsPage }
{
    let (name, digits) = cut(text, b' ')?;
    let uid = uid(name)?;
    let page = number32(digits)?;
    Some((uid, page))
}

/// The frame that was sent.
#[tactic(auto, unfolding(crate::specs::Walk::LineEffects::sent_of))]
fn sent(names: &NodeNames, text: &[u8]) -> Option<Sent>
    ensures value { result ≡ sent_of names.now text.now }
    ensures text { IfSome result (λ sent. 59 ∷ 32 ∷ 115 ∷ 101 ∷ 110 ∷ 100 ∷ 32 ∷ text.now ≡ sent_text names.now (Some sent)) }
    ensures range { IfSome result (IsSent names.now) }
    ensures kind { IfSome result (λ sent. IsKindNumber sent.kind) }
{
    let (name, rest) = cut(text, b' ')?;
    let to = node(names, name)?;
    let (digits, rest) = cut(rest, b' ')?;
    let index = number(digits)?;
    let (word, digits) = cut(rest, b' ')?;
    let kind = kind(word)?.number();
    let number = number(digits)?;
    Some(Sent {
        to,
        index,
        kind,
        number,
    })
}

/// The process whose operation ended, and how.
#[tactic(auto, unfolding(crate::specs::Walk::LineEffects::ended_of))]
fn ended(text: &[u8]) -> Option<(u8, EndWord)>
    ensures value { result ≡ ended_of text.now }
    ensures text { IfSome result (λ ended. 59 ∷ 32 ∷ 101 ∷ 110 ∷ 100 ∷ 32 ∷ text.now ≡ ended_text (Some ended)) }
    ensures range { IfSome result (λ ended. IsProcNumber ended.0) }
{
    let (digits, word) = cut(text, b' ')?;
    let proc = proc(digits)?;
    let word = end_word(word)?;
    Some((proc, word))
}

/// The effect of a text that stands behind `; `.
#[tactic(auto, unfolding(crate::specs::Walk::LineEffects::effect_in, crate::specs::Walk::LineEffects::effect_behind))]
fn effect_behind_space(names: &NodeNames, text: &[u8]) -> Option<Effect>
    ensures value { result ≡ effect_in names.now text.now }
    ensures text { IfSome result (λ effect. 59 ∷ 32 ∷ text.now ≡ effect_text names.now effect) }
    ensures range { IfSome result (IsEffect names.now) }
{
    let (word, rest) = cut(text, b' ')?;
    match effect_word(word)? {
        EffectWord::Drop => {
            let (uid, page) = page(rest)?;
            Some(Effect::Drop(uid, page))
        }
        EffectWord::Send => Some(Effect::Send(sent(names, rest)?)),
        EffectWord::End => {
            let (proc, word) = ended(rest)?;
            Some(Effect::End(proc, word))
        }
    }
}

/// The effect of a piece that stands behind `;`.
#[tactic(auto, unfolding(crate::specs::Walk::LineEffects::effect_of))]
fn effect_of_piece(names: &NodeNames, piece: &[u8]) -> Option<Effect>
    ensures value { result ≡ effect_of names.now piece.now }
    ensures text { IfSome result (λ effect. 59 ∷ piece.now ≡ effect_text names.now effect) }
    ensures range { IfSome result (IsEffect names.now) }
{
    match piece.split_first() {
        Some((b' ', text)) => effect_behind_space(names, text),
        _ => None,
    }
}

/// Adds an effect, if it may stand behind those that are there.
#[tactic(auto, unfolding(crate::specs::Walk::LineEffects::with_effect))]
fn add(effects: &mut Effects, effect: Effect) -> Result<bool, NoMemory>
    ensures { IfOk result (λ added. with_effect effects.old effect ≡ (if added then Some effects.new else None)) }
{
    if effects.ended.is_some() {
        return Ok(false);
    }
    match effect {
        Effect::End(proc, word) => {
            effects.ended = Some((proc, word));
            Ok(true)
        }
        Effect::Send(sent) if effects.sent.is_none() => {
            effects.sent = Some(sent);
            Ok(true)
        }
        Effect::Drop(uid, page) if effects.sent.is_none() => {
            effects.dropped.push((uid, page))?;
            Ok(true)
        }
        _ => Ok(false),
    }
}

/// Adds the effect of a piece.
fn add_piece(effects: &mut Effects, names: &NodeNames, piece: &[u8]) -> Result<bool, NoMemory>
    requires { AreRead names.now effects.old }
    ensures value { IfOk result (λ added. and_effect effects.old (effect_of names.now piece.now) ≡ (if added then Some effects.new else None)) }
    ensures text { IfOk result (λ added. IsTrue added → effects_text names.now effects.new ≡ effects_text names.now effects.old ++ 59 ∷ piece.now) }
    ensures range { IfOk result (λ added. IsTrue added → AreRead names.now effects.new) }
{
    match effect_of_piece(names, piece) {
        Some(effect) => add(effects, effect),
        None => Ok(false),
    }
}

/// What an event did, from the text behind what it is.
pub(super) fn read_effects(
    alloc: Global,
    names: &NodeNames,
    text: &[u8],
) -> Result<Option<Effects>, NoMemory>
    requires { BeginsWithSemicolon text.now }
    ensures value { IfOk result (λ found. effects_of names.now (Some (record { dropped = []; sent = None; ended = None })) (pieces_of text.now) ≡ found) }
    ensures text { IfOk result (λ found. IfSome found (λ e. text.now ≡ effects_text names.now e)) }
    ensures range { IfOk result (λ found. IfSome found (AreRead names.now)) }
{
    let mut effects = Effects {
        dropped: Dropped::new(alloc),
        sent: None,
        ended: None,
    };
    let mut rest = text;
    while let Some((_, inside)) = rest.split_first() {
        let (piece, behind) = head(inside);
        if !add_piece(&mut effects, names, piece)? {
            return Ok(None);
        }
        rest = behind;
    }
    Ok(Some(effects))
}
