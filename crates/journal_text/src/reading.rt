//! Reading a journal.
ghost use Rattle.std.specs.Prelude.{◌≡◌, ◌≢◌, ◌<◌, ◌++◌, IsTrue, ◌↔◌, IfSome, IfOk, IfErr, IfNone, length};
ghost use Rattle.dom_history.specs.Histories.{place_lt};
ghost use Rattle.dom_history.specs.NodeTexts.{AreNodeNames};
ghost use Rattle.journal_text.specs.Lines.{line};
ghost use Rattle.journal_text.specs.Written.{IsAbove, IsWritten, BeginWithNoLine, IsJournal, IsBadLine};
ghost use Rattle.journal_text.specs.Faults.{IsRefusal};
ghost use Rattle.journal_text.specs.declared.reading.JournalFault.TheVariants.{NoMemory as OutOfMemory};

mod effects;
mod event;
mod fields;
mod words;

use dom_history::{Event, EventList, NodeNames};
use dom_text::cut;
use event::read_event;
use std::alloc::Global;
use thiserror::Error;
use uid_names::{NoMemory, Place};

/// Why no journal was read.
#[derive(Clone, Copy, Debug, PartialEq, Eq, Error)]
pub enum JournalFault {
    /// This line, counted from 1, is the first that is no line or whose place is not above the one before.
    #[error("bad line")]
    BadLine(u64),
    /// There was no memory.
    #[error("no memory")]
    NoMemory,
}

impl From<NoMemory> for JournalFault {
    ghost from_gives = { λ _ e. e ≡ OutOfMemory };

    fn from(_error: NoMemory) -> JournalFault {
        JournalFault::NoMemory
    }
}

/// Whether a place is above the one before, if there is one.
fn is_above(before: Option<Place>, place: Place) -> bool
    ensures { IsTrue result ↔ IsAbove before place }
{
    match before {
        None => true,
        Some(before) => {
            before.tick < place.tick
                || (before.tick == place.tick && before.node.number() < place.node.number())
        }
    }
}

/// The event of the first line, if its place is above the one before, and the bytes behind the line.
fn next_event<'a>(
    alloc: Global,
    names: &NodeNames,
    before: Option<Place>,
    bytes: &'a [u8],
) -> Result<Option<(Event, &'a [u8])>, NoMemory>
    requires { AreNodeNames names.now }
    ensures text { IfOk result (λ found. IfSome found (λ r. bytes.now ≡ line names.now r.0 ++ r.1.now)) }
    ensures written { IfOk result (λ found. IfSome found (λ r. IsWritten names.now r.0)) }
    ensures above { IfOk result (λ found. IfSome found (λ r. IsAbove before r.0.place)) }
    ensures shorter { IfOk result (λ found. IfSome found (λ r. length r.1.now < length bytes.now)) }
    ensures none { IfOk result (λ found. IfNone found (BeginWithNoLine names.now before bytes.now)) }
{
    let Some((text, behind)) = cut(bytes, b'\n') else {
        return Ok(None);
    };
    let Some(event) = read_event(alloc, names, text)? else {
        return Ok(None);
    };
    if !is_above(before, event.place()) {
        return Ok(None);
    }
    Ok(Some((event, behind)))
}

/// The events whose journal the bytes are. `BadLine` names the first line that is no line, or whose place is
/// not above the one before.
pub fn read_journal(
    alloc: Global,
    bytes: &[u8],
    names: &NodeNames,
) -> Result<EventList, JournalFault>
    ensures journal { IfOk result (λ events. IsJournal names.now bytes.now events) }
    ensures bad { IfErr result (IsRefusal names.now bytes.now) }
{
    // The names are those of nodes, each once.
    let _count = names.len();
    let mut events = EventList::new(alloc);
    let mut before = None;
    let mut rest = bytes;
    let mut number: u64 = 0;
    while !rest.is_empty() {
        number += 1;
        let Some((event, behind)) = next_event(alloc, names, before, rest)? else {
            return Err(JournalFault::BadLine(number));
        };
        before = Some(event.place());
        events.push(event)?;
        rest = behind;
    }
    Ok(events)
}
