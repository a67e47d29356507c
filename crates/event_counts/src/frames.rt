//! Frames by link and kind.
ghost use Rattle.std.specs.Prelude.{◌≡◌, count_by};
ghost use Rattle.event_counts.specs.FrameCounts.{is_lost as is_lost_fate, is_late as is_late_fate, is_twice as is_twice_fate, is_so as is_so_fate, is_sent as is_counted, sends as sends_counted, is_of_kind as is_kind_of, tells_of as is_told_of, tells as tells_counted};

use dom_history::{Fate, FaultPlan, Sent, What};
use event_views::{EventView, FrameView, RunView};
use uid_names::{FrameKind, NodeId};

/// What became of the frames that are counted.
#[derive(Clone, Copy, Debug, PartialEq, Eq)]
pub enum Became {
    /// Whatever it was.
    Any,
    Lost,
    Late,
    Twice,
}

fn is_lost(fate: Fate) -> bool
    ensures { result ≡ is_lost_fate fate }
{
    matches!(fate, Fate::Lose)
}

fn is_late(fate: Fate) -> bool
    ensures { result ≡ is_late_fate fate }
{
    matches!(fate, Fate::Late(_))
}

fn is_twice(fate: Fate) -> bool
    ensures { result ≡ is_twice_fate fate }
{
    matches!(fate, Fate::Twice(_))
}

impl Became {
    fn is_so(self, fate: Fate) -> bool
        ensures { result ≡ is_so_fate self fate }
    {
        match self {
            Became::Any => true,
            Became::Lost => is_lost(fate),
            Became::Late => is_late(fate),
            Became::Twice => is_twice(fate),
        }
    }
}

fn is_sent(
    plan: &FaultPlan,
    from: NodeId,
    to: NodeId,
    kind: FrameKind,
    became: Became,
    sent: &Option<Sent>,
) -> bool
    ensures { result ≡ is_counted plan.now from to kind became sent.now }
{
    let Some(sent) = sent else {
        return false;
    };
    sent.to.number() == to.number()
        && sent.kind == kind.number()
        && became.is_so(plan.fate(from, to, sent.index))
}

fn sends(
    plan: &FaultPlan,
    from: NodeId,
    to: NodeId,
    kind: FrameKind,
    became: Became,
    view: &EventView,
) -> bool
    ensures { result ≡ sends_counted plan.now from to kind became view.now }
{
    view.event.place().node.number() == from.number()
        && is_sent(plan, from, to, kind, became, &view.event.effects().sent)
}

/// How many frames of a kind went from a node to another and came to this.
pub fn frames_sent(
    run: &RunView,
    from: NodeId,
    to: NodeId,
    kind: FrameKind,
    became: Became,
) -> usize
    ensures { result ≡ count_by (sends_counted run.now.plan from to kind became) run.now.events }
{
    let plan = run.plan();
    let mut count = 0;
    for view in run.events() {
        if sends(plan, from, to, kind, became, view) {
            count += 1;
        }
    }
    count
}

pub(crate) fn is_of_kind(kind: FrameKind, frame: &Option<FrameView>) -> bool
    ensures { result ≡ is_kind_of kind frame.now }
{
    match frame {
        None => false,
        Some(frame) => frame.said.kind.number() == kind.number(),
    }
}

fn tells_of(from: NodeId, to: NodeId, what: &What) -> bool
    ensures { result ≡ is_told_of from to what.now }
{
    match what {
        What::Notice(_, a, b, _) => a.number() == from.number() && b.number() == to.number(),
        _ => false,
    }
}

fn tells(from: NodeId, to: NodeId, kind: FrameKind, view: &EventView) -> bool
    ensures { result ≡ tells_counted from to kind view.now }
{
    tells_of(from, to, &view.event.what()) && is_of_kind(kind, &view.met)
}

/// How often a process was told of a frame of a kind from a node to another, that it was lost or is late.
pub fn frames_noticed(run: &RunView, from: NodeId, to: NodeId, kind: FrameKind) -> usize
    ensures { result ≡ count_by (tells_counted from to kind) run.now.events }
{
    let mut count = 0;
    for view in run.events() {
        if tells(from, to, kind, view) {
            count += 1;
        }
    }
    count
}
