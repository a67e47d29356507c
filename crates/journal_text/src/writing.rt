//! Writing events.
ghost use Rattle.std.specs.Prelude.{◌≡◌, ◌+◌, ◌≤◌, ◌++◌, length, All, IfSome, IfOk, codes, decimal};
ghost use Rattle.std.specs.List.{flat_map};
ghost use Rattle.dom_history.specs.Events.{IsKindNumber};
ghost use Rattle.journal_text.specs.Buffers.{filled};
ghost use Rattle.journal_text.specs.Lines.{numbered_text, kind_text, what_text, drop_text, sent_text, ended_text, effects_text, place_text, line, journal, Names};

use crate::buffer::LineBuffer;
use dom_history::{Effects, EndWord, Event, EventList, NodeNames, Sent, What};
use node_texts::node_text;
use std::alloc::Global;
use uid_names::{FrameKind, NoMemory, NodeId, Place, Uid};

/// A node and a number behind it.
fn put_numbered(to: &mut LineBuffer, names: &NodeNames, node: NodeId, number: u64)
    requires { length to.old.text + length (numbered_text names.now node number) ≤ to.old.room }
    ensures { to.new ≡ filled (to.old.text ++ numbered_text names.now node number) to.old.room }
{
    to.put(node_text(names, node));
    to.put(b" ");
    to.put_decimal(number);
}

fn put_what(to: &mut LineBuffer, names: &NodeNames, what: What)
    requires { length to.old.text + length (what_text names.now what) ≤ to.old.room }
    ensures { to.new ≡ filled (to.old.text ++ what_text names.now what) to.old.room }
{
    match what {
        What::Begin(p) => {
            to.put(b"begin ");
            to.put_decimal(p as u64);
        }
        What::Go(p) => {
            to.put(b"go ");
            to.put_decimal(p as u64);
        }
        What::Take(from, index) => {
            to.put(b"take ");
            put_numbered(to, names, from, index);
        }
        What::Notice(p, from, into, index) => {
            to.put(b"notice ");
            to.put_decimal(p as u64);
            to.put(b" ");
            to.put(node_text(names, from));
            to.put(b" ");
            put_numbered(to, names, into, index);
        }
        What::Ready(phase) => {
            to.put(b"ready ");
            to.put_decimal(phase as u64);
        }
        What::Mark(from, phase) => {
            to.put(b"mark ");
            put_numbered(to, names, from, phase as u64);
        }
    }
}

fn put_drop(to: &mut LineBuffer, uid: Uid, page: u32)
    requires { length to.old.text + length (drop_text (uid, page)) ≤ to.old.room }
    ensures { to.new ≡ filled (to.old.text ++ drop_text (uid, page)) to.old.room }
{
    to.put(b"; drop ");
    to.put(&uid.text());
    to.put(b" ");
    to.put_decimal(page as u64);
}

/// The frame that was sent, if one was.
fn put_sent(to: &mut LineBuffer, names: &NodeNames, sent: Option<Sent>)
    requires kind { IfSome sent (λ s. IsKindNumber s.kind) }
    requires room { length to.old.text + length (sent_text names.now sent) ≤ to.old.room }
    ensures { to.new ≡ filled (to.old.text ++ sent_text names.now sent) to.old.room }
{
    if let Some(sent) = sent {
        to.put(b"; send ");
        put_numbered(to, names, sent.to, sent.index);
        to.put(b" ");
        to.put(kind_name_of(sent.kind).as_bytes());
        to.put(b" ");
        to.put_decimal(sent.number);
    }
}

/// The name of the kind that has this number.
#[tactic(auto, using(crate::proofs::KindNames::kind_text_of))]
pub(crate) fn kind_name_of(number: u8) -> &'static str
    requires { IsKindNumber number }
    ensures { result.now ≡ kind_text number }
{
    match FrameKind::from_number(number) {
        Some(kind) => kind.name(),
        None => unreachable!(),
    }
}

/// The process whose operation ended, if one did.
fn put_ended(to: &mut LineBuffer, ended: Option<(u8, EndWord)>)
    requires { length to.old.text + length (ended_text ended) ≤ to.old.room }
    ensures { to.new ≡ filled (to.old.text ++ ended_text ended) to.old.room }
{
    if let Some((proc, word)) = ended {
        to.put(b"; end ");
        to.put_decimal(proc as u64);
        to.put(b" ");
        to.put(word.word().as_bytes());
    }
}

fn put_dropped(to: &mut LineBuffer, pages: &[(Uid, u32)])
    requires { length to.old.text + length (flat_map drop_text pages.now) ≤ to.old.room }
    ensures { to.new ≡ filled (to.old.text ++ flat_map drop_text pages.now) to.old.room }
{
    for (uid, page) in pages {
        put_drop(to, *uid, *page);
    }
}

fn put_effects(to: &mut LineBuffer, names: &NodeNames, effects: &Effects)
    requires kind { IfSome effects.now.sent (λ s. IsKindNumber s.kind) }
    requires room { length to.old.text + length (effects_text names.now effects.now) ≤ to.old.room }
    ensures { to.new ≡ filled (to.old.text ++ effects_text names.now effects.now) to.old.room }
{
    put_dropped(to, effects.dropped.items());
    put_sent(to, names, effects.sent);
    put_ended(to, effects.ended);
}

fn put_place(to: &mut LineBuffer, names: &NodeNames, place: Place)
    requires { length to.old.text + length (place_text names.now place) ≤ to.old.room }
    ensures { to.new ≡ filled (to.old.text ++ place_text names.now place) to.old.room }
{
    to.put_decimal(place.tick);
    to.put(b" ");
    to.put(node_text(names, place.node));
    to.put(b" ");
}

/// Puts the line of an event last. Takes no memory.
pub fn write_event(event: &Event, names: &NodeNames, to: &mut LineBuffer)
    requires named { Names names.now event.now }
    requires room { length to.old.text + length (line names.now event.now) ≤ to.old.room }
    ensures { to.new ≡ filled (to.old.text ++ line names.now event.now) to.old.room }
{
    put_place(to, names, event.place());
    put_what(to, names, event.what());
    put_effects(to, names, event.effects());
    to.put(b"\n");
}

/// The lines of events.
pub fn write_journal(
    alloc: Global,
    events: &EventList,
    names: &NodeNames,
) -> Result<LineBuffer, NoMemory>
    requires { All (Names names.now) events.now }
    ensures { IfOk result (λ b. b.text ≡ journal names.now events.now) }
{
    let mut lines = LineBuffer::for_events(alloc, events, names)?;
    let list = events.items();
    for event in list {
        write_event(event, names, &mut lines);
    }
    Ok(lines)
}
