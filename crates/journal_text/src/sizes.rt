//! How many bytes lines have.
ghost use Rattle.std.specs.Prelude.{◌≡◌, ◌+◌, ◌<◌, length, sum, IfSome, decimal};
ghost use Rattle.std.specs.List.{flat_map};
ghost use Rattle.dom_history.specs.Events.{IsKindNumber};
ghost use Rattle.node_texts.specs.Texts.{node_text};
ghost use Rattle.journal_text.specs.Lines.{numbered_text, kind_text, what_text, drop_text, sent_text, ended_text, effects_text, place_text, line, journal};

use crate::writing::kind_name_of;
use dom_history::{Effects, EndWord, Event, NodeNames, Sent, What};
use uid_names::{NodeId, Place, Uid};

/// The sum of these lengths; None where no length is as great.
fn sum_of(lengths: &[usize]) -> Option<usize>
    ensures { IfSome result (λ n. n ≡ sum lengths.now) }
{
    let mut total: usize = 0;
    for length in lengths {
        total = total.checked_add(*length)?;
    }
    Some(total)
}

/// How many digits a number below 10,000 has.
#[tactic(auto, using(itoa::proofs::Decimal::length_one, itoa::proofs::Decimal::length_two, crate::proofs::Digits::three_digits, crate::proofs::Digits::four_digits))]
#[inline(always)]
fn short_len(n: u64) -> usize
    requires { n < 10000 }
    ensures { result ≡ length (decimal n) }
{
    if n < 10 {
        1
    } else if n < 100 {
        2
    } else if n < 1000 {
        3
    } else {
        4
    }
}

/// How many digits a number has.
#[inline(always)]
pub(crate) fn decimal_len(n: u64) -> usize
    ensures { result ≡ length (decimal n) }
{
    let mut left = n;
    let mut behind = 0;
    while left >= 10_000 {
        left /= 10_000;
        behind += 4;
    }
    short_len(left) + behind
}

fn node_len(names: &NodeNames, node: NodeId) -> usize
    ensures { result ≡ length (node_text names.now node) }
{
    match names.name(node) {
        Some(name) => name.len(),
        None => 0,
    }
}

fn numbered_len(names: &NodeNames, node: NodeId, number: u64) -> Option<usize>
    ensures { IfSome result (λ n. n ≡ length (numbered_text names.now node number)) }
{
    sum_of(&[node_len(names, node), 1, decimal_len(number)])
}

fn place_len(names: &NodeNames, place: Place) -> Option<usize>
    ensures { IfSome result (λ n. n ≡ length (place_text names.now place)) }
{
    sum_of(&[decimal_len(place.tick), 1, node_len(names, place.node), 1])
}

fn what_len(names: &NodeNames, what: What) -> Option<usize>
    ensures { IfSome result (λ n. n ≡ length (what_text names.now what)) }
{
    match what {
        What::Begin(p) => sum_of(&[6, decimal_len(p as u64)]),
        What::Go(p) => sum_of(&[3, decimal_len(p as u64)]),
        What::Take(from, index) => sum_of(&[5, numbered_len(names, from, index)?]),
        What::Notice(p, from, into, index) => {
            let link = numbered_len(names, into, index)?;
            sum_of(&[7, decimal_len(p as u64), 1, node_len(names, from), 1, link])
        }
        What::Ready(phase) => sum_of(&[6, decimal_len(phase as u64)]),
        What::Mark(from, phase) => sum_of(&[5, numbered_len(names, from, phase as u64)?]),
    }
}

fn drop_len(uid: Uid, page: u32) -> Option<usize>
    ensures { IfSome result (λ n. n ≡ length (drop_text (uid, page))) }
{
    let text = uid.text();
    sum_of(&[7, text.len(), 1, decimal_len(page as u64)])
}

fn dropped_len(pages: &[(Uid, u32)]) -> Option<usize>
    ensures { IfSome result (λ n. n ≡ length (flat_map drop_text pages.now)) }
{
    let mut total: usize = 0;
    for (uid, page) in pages {
        total = total.checked_add(drop_len(*uid, *page)?)?;
    }
    Some(total)
}

fn sent_len(names: &NodeNames, sent: Option<Sent>) -> Option<usize>
    requires { IfSome sent (λ s. IsKindNumber s.kind) }
    ensures { IfSome result (λ n. n ≡ length (sent_text names.now sent)) }
{
    match sent {
        None => Some(0),
        Some(sent) => {
            let link = numbered_len(names, sent.to, sent.index)?;
            let kind = kind_name_of(sent.kind).len();
            sum_of(&[7, link, 1, kind, 1, decimal_len(sent.number)])
        }
    }
}

fn ended_len(ended: Option<(u8, EndWord)>) -> Option<usize>
    ensures { IfSome result (λ n. n ≡ length (ended_text ended)) }
{
    match ended {
        None => Some(0),
        Some((proc, word)) => sum_of(&[6, decimal_len(proc as u64), 1, word.word().len()]),
    }
}

fn effects_len(names: &NodeNames, effects: &Effects) -> Option<usize>
    requires { IfSome effects.now.sent (λ s. IsKindNumber s.kind) }
    ensures { IfSome result (λ n. n ≡ length (effects_text names.now effects.now)) }
{
    let dropped = dropped_len(effects.dropped.items())?;
    let sent = sent_len(names, effects.sent)?;
    let ended = ended_len(effects.ended)?;
    sum_of(&[dropped, sent, ended])
}

/// How many bytes the line of an event has; None where no length is as great.
fn line_len(event: &Event, names: &NodeNames) -> Option<usize>
    ensures { IfSome result (λ n. n ≡ length (line names.now event.now)) }
{
    let place = place_len(names, event.place())?;
    let what = what_len(names, event.what())?;
    let effects = effects_len(names, event.effects())?;
    sum_of(&[place, what, effects, 1])
}

/// How many bytes the lines of events have; None where no length is as great.
pub(crate) fn journal_len(events: &[Event], names: &NodeNames) -> Option<usize>
    ensures { IfSome result (λ n. n ≡ length (journal names.now events.now)) }
{
    let mut total: usize = 0;
    for event in events {
        total = total.checked_add(line_len(event, names)?)?;
    }
    Some(total)
}
