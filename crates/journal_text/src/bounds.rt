//! How long lines may be. Nothing is done here: each function says that a part of a line is short.
ghost use Rattle.std.specs.Prelude.{◌≡◌, ◌+◌, ◌*◌, ◌≤◌, length, IfSome, decimal};
ghost use Rattle.std.specs.List.{flat_map};
ghost use Rattle.dom_history.specs.Events.{IsKindNumber};
ghost use Rattle.dom_history.specs.NodeTexts.{AreNodeNames};
ghost use Rattle.journal_text.specs.Lines.{what_text, drop_text, sent_text, ended_text, place_text, line};

use dom_history::{EndWord, Event, NodeNames, Sent, What};
use uid_names::{Place, Uid};

/// A line of an event that drops no page has at most so many bytes.
pub(crate) const SHORT_LINE: usize = 300;

/// And each page that it drops adds at most so many.
pub(crate) const DROP_BYTES: usize = 44;

#[tactic(auto, using(crate::proofs::Short::digits_short))]
fn number_is_short(_n: u64)
    ensures { length (decimal _n) ≤ 20 }
{}

#[tactic(auto, using(crate::proofs::Short::place_short))]
fn place_is_short(names: &NodeNames, place: Place)
    requires { AreNodeNames names.now }
    ensures { length (place_text names.now place) ≤ 54 }
{
    number_is_short(place.tick);
}

fn what_is_short(names: &NodeNames, what: What)
    requires { AreNodeNames names.now }
    ensures { length (what_text names.now what) ≤ 114 }
{
    match what {
        What::Begin(p) | What::Go(p) => number_is_short(u64::from(p)),
        What::Take(_, index) => number_is_short(index),
        What::Notice(p, _, _, index) => {
            number_is_short(u64::from(p));
            number_is_short(index);
        }
        What::Ready(phase) | What::Mark(_, phase) => number_is_short(u64::from(phase)),
    }
}

fn sent_is_short(names: &NodeNames, sent: Option<Sent>)
    requires names { AreNodeNames names.now }
    requires kind { IfSome sent (λ s. IsKindNumber s.kind) }
    ensures { length (sent_text names.now sent) ≤ 91 }
{
    if let Some(sent) = sent {
        number_is_short(sent.index);
        number_is_short(sent.number);
    }
}

fn ended_is_short(ended: Option<(u8, EndWord)>)
    ensures { length (ended_text ended) ≤ 40 }
{
    if let Some((p, _)) = ended {
        number_is_short(u64::from(p));
    }
}

fn dropped_are_short(pages: &[(Uid, u32)])
    ensures { length (flat_map drop_text pages.now) ≤ DROP_BYTES * length pages.now }
{
    for (_uid, page) in pages {
        number_is_short(u64::from(*page));
    }
}

/// A line is short, unless its event drops many pages.
pub(crate) fn line_is_short(event: &Event, names: &NodeNames)
    requires { AreNodeNames names.now }
    ensures { length (line names.now event.now) ≤ SHORT_LINE + DROP_BYTES * length event.now.effects.dropped }
{
    let effects = event.effects();
    place_is_short(names, event.place());
    what_is_short(names, event.what());
    dropped_are_short(effects.dropped.items());
    sent_is_short(names, effects.sent);
    ended_is_short(effects.ended);
}
