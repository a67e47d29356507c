//! Whether the nodes of events have names.
ghost use Rattle.std.specs.Prelude.{◌↔◌, IsTrue, All, IfSome, IfOk};
ghost use Rattle.journal_text.specs.Lines.{IsNamed, NamesWhat, Names};

use dom_history::{Event, EventList, MergedLogs, NodeNames, Sent, What};
use std::alloc::Global;
use uid_names::{NoMemory, NodeId};

fn is_named(names: &NodeNames, node: NodeId) -> bool
    ensures { IsTrue result ↔ IsNamed names.now node }
{
    names.name(node).is_some()
}

fn names_what(names: &NodeNames, what: What) -> bool
    ensures { IsTrue result ↔ NamesWhat names.now what }
{
    match what {
        What::Begin(_) | What::Go(_) | What::Ready(_) => true,
        What::Take(from, _) | What::Mark(from, _) => is_named(names, from),
        What::Notice(_, from, into, _) => is_named(names, from) && is_named(names, into),
    }
}

fn names_sent(names: &NodeNames, sent: Option<Sent>) -> bool
    ensures { IsTrue result ↔ IfSome sent (λ s. IsNamed names.now s.to) }
{
    match sent {
        None => true,
        Some(sent) => is_named(names, sent.to),
    }
}

fn names_event(names: &NodeNames, event: &Event) -> bool
    ensures { IsTrue result ↔ Names names.now event.now }
{
    is_named(names, event.place().node)
        && names_what(names, event.what())
        && names_sent(names, event.effects().sent)
}

/// Whether each node that the events name has a name. Takes no memory.
pub fn are_named(events: &EventList, names: &NodeNames) -> bool
    ensures { IsTrue result ↔ All (Names names.now) events.now }
{
    events.items().iter().all(|event| names_event(names, event))
}

/// Whether each node that the events of several logs name has a name.
pub fn are_merged_named(
    alloc: Global,
    events: &MergedLogs,
    names: &NodeNames,
) -> Result<bool, NoMemory>
    ensures { IfOk result (λ named. IsTrue named ↔ All (Names names.now) events.now.events) }
{
    let mut left = events.reader(alloc)?;
    while let Some(event) = left.next() {
        if !names_event(names, event) {
            return Ok(false);
        }
    }
    Ok(true)
}
