//! What a node asks for, drops and gives back.
ghost use Rattle.std.specs.Prelude.{◌≡◌, count_by, sum_by, IfSome};
ghost use Rattle.uid_names.specs.declared.frame_kind.FrameKind.TheVariants.{PageIn, PageOut};
ghost use Rattle.event_counts.specs.NodeCounts.{is_of_kind as is_kind_of, is_notice as is_a_notice, asks as asks_first, dropped_at as dropped_of};

use dom_history::{Sent, What};
use event_views::{EventView, RunView};
use uid_names::{FrameKind, NodeId};

fn is_of_kind(kind: FrameKind, sent: &Option<Sent>) -> bool
    ensures { result ≡ is_kind_of kind sent.now }
{
    match sent {
        None => false,
        Some(sent) => sent.kind == kind.number(),
    }
}

fn is_notice(what: &What) -> bool
    ensures { result ≡ is_a_notice what.now }
{
    matches!(what, What::Notice(_, _, _, _))
}

pub(crate) fn asks(node: NodeId, kind: FrameKind, view: &EventView) -> bool
    ensures { result ≡ asks_first node kind view.now }
{
    view.event.place().node.number() == node.number()
        && !is_notice(&view.event.what())
        && is_of_kind(kind, &view.event.effects().sent)
}

/// How often a node asks by a frame of this kind, what is sent again left out.
fn asked(views: &[EventView], node: NodeId, kind: FrameKind) -> usize
    ensures { result ≡ count_by (asks_first node kind) views.now }
{
    let mut count = 0;
    for view in views {
        if asks(node, kind, view) {
            count += 1;
        }
    }
    count
}

/// How often a node asked a home for a page that it did not have.
pub fn pages_asked(run: &RunView, node: NodeId) -> usize
    ensures { result ≡ count_by (asks_first node PageIn) run.now.events }
{
    asked(run.events(), node, FrameKind::PageIn)
}

/// How often a node sent a page home that was changed: before its lock was given up, or to make room for another.
pub fn pages_sent_home(run: &RunView, node: NodeId) -> usize
    ensures { result ≡ count_by (asks_first node PageOut) run.now.events }
{
    asked(run.events(), node, FrameKind::PageOut)
}

pub(crate) fn dropped_at(node: NodeId, view: &EventView) -> usize
    ensures { result ≡ dropped_of node view.now }
{
    if view.event.place().node.number() == node.number() {
        view.event.effects().dropped.items().len()
    } else {
        0
    }
}

/// How many pages a node dropped; None where no number of 64 bits is as great.
pub fn pages_dropped(run: &RunView, node: NodeId) -> Option<usize>
    ensures { IfSome result (λ n. n ≡ sum_by (dropped_of node) run.now.events) }
{
    let mut total: usize = 0;
    for view in run.events() {
        total = total.checked_add(dropped_at(node, view))?;
    }
    Some(total)
}
