//! The chart of a run's events.
ghost use Rattle.std.specs.Prelude.{◌≡◌, ◌-◌, ◌<◌, ◌^◌, ◌++◌, ◌∷◌, [], true, Some, length, map, slice_get, All, IfSome, IfOk, OnOk};
ghost use Rattle.dom_history.specs.Events.{IsKindNumber};
ghost use Rattle.journal_text.specs.Lines.{IsNamed, Names};
ghost use Rattle.lane_charts.specs.Charts.{EndsAmong, with_row, with_arrow};
ghost use Rattle.lane_charts.specs.Places.{place_if};
ghost use Rattle.lane_charts.specs.declared.chart.Arrival.TheVariants.{Row};
ghost use Rattle.event_views.specs.Runs.{AreNamed};
ghost use Rattle.event_views.specs.Chosen.{chosen};
ghost use Rattle.event_charts.specs.ChartsOfRuns.{title_of, row_of, takes_from as is_taken_from, takes as is_taken, takers as places_of_takers, is_late as is_late_fate, not_taken as became, arrow_of, arrows_sent, arrows_at, arrows_from, with_arrows, chart_of as chart_of_events};
ghost use Rattle.event_charts.specs.LentViews.{lent_views};
ghost use Rattle.event_charts.specs.Slots.{AreBySlots, passes, slot_of, slot_of_taken, slots_for};

use dom_history::{Fate, NodeNames, Sent, What};
use dom_text::put_decimal;
use event_views::labels::{event_label, is_mark, sent_label, sent_title};
use event_views::{Choice, EventView, RunView};
use lane_charts::{Arrival, Arrow, Chart, ChartRow, KeyedPlaces};
use std::alloc::Global;
use uid_names::{ByteList, ItemList, NoMemory, NodeId};

/// How many events are shown, of how many.
fn title(alloc: Global, shown: usize, all: usize) -> Result<ByteList, NoMemory>
    ensures { IfOk result (λ text. text ≡ title_of shown all) }
{
    let mut text = ByteList::new(alloc);
    put_decimal(&mut text, shown as u64)?;
    text.extend(b" of ")?;
    put_decimal(&mut text, all as u64)?;
    text.extend(b" events")?;
    Ok(text)
}

/// Copies of the names of nodes.
fn lanes_of(alloc: Global, names: &NodeNames) -> Result<ItemList<ByteList>, NoMemory>
    ensures { IfOk result (λ lanes. lanes ≡ names.now) }
{
    let mut lanes = ItemList::new(alloc);
    for name in names.items() {
        lanes.push(name.copy(alloc)?)?;
    }
    Ok(lanes)
}

/// The events that are chosen, in order.
fn shown_of<'a>(
    alloc: Global,
    views: &'a [EventView],
    choice: &Choice,
) -> Result<Vec<&'a EventView>, NoMemory>
    ensures { IfOk result (λ shown. lent_views shown.items ≡ chosen choice.now views.now) }
{
    let mut shown = Vec::new(alloc);
    for view in views {
        if choice.is_chosen(view) {
            shown.push(view)?;
        }
    }
    Ok(shown)
}

/// The lane of a node.
#[tactic(auto, using(crate::proofs::Lanes::named_bound))]
fn lane_of(run: &RunView, node: NodeId) -> usize
    requires { IsNamed run.now.names node }
    ensures value { result ≡ node - 1 }
    ensures bound { result < length run.now.names }
{
    let _names = run.names();
    node.number() as usize - 1
}

/// Puts the row of an event last.
fn add_row(
    alloc: Global,
    chart: &mut Chart,
    run: &RunView,
    view: &EventView,
) -> Result<(), NoMemory>
    requires lanes { chart.old.lanes ≡ run.now.names }
    requires named { IsNamed run.now.names view.now.event.place.node }
    ensures { OnOk result (chart.new ≡ with_row chart.old (row_of run.now view.now)) }
{
    let place = view.event.place();
    let lane = lane_of(run, place.node);
    let label = event_label(alloc, run, view)?;
    let is_mark = is_mark(&view.event.what());
    chart.add_row(ChartRow {
        tick: place.tick,
        lane,
        label,
        is_mark,
    })
}

/// Whether an event takes the frame of this number that came from a node.
fn takes_from(from: NodeId, index: u64, what: &What) -> bool
    ensures { result ≡ is_taken_from from index what.now }
{
    match what {
        What::Take(other, number) => other.number() == from.number() && *number == index,
        _ => false,
    }
}

/// Whether an event takes a frame that a node sent.
fn takes(from: NodeId, sent: &Sent, view: &EventView) -> bool
    ensures { result ≡ is_taken from sent.now view.now }
{
    view.event.place().node.number() == sent.to.number()
        && takes_from(from, sent.index, &view.event.what())
}

/// Puts a place last, if that is asked.
fn push_if(rows: &mut Vec<usize>, asked: bool, at: usize) -> Result<(), NoMemory>
    ensures { OnOk result (rows.new.items ≡ rows.old.items ++ place_if asked at []) }
{
    if !asked {
        return Ok(());
    }
    rows.push(at)?;
    Ok(())
}

/// Whether the event at a place takes a frame that a node sent.
fn takes_at(shown: &[&EventView], from: NodeId, sent: &Sent, at: usize) -> bool
    requires { at < length shown.now }
    ensures { result ≡ passes (is_taken from sent.now) (slice_get (lent_views shown.now) at) }
{
    takes(from, sent, shown[at])
}

/// How many slots so many events have, an odd number.
fn slot_count(events: usize) -> usize
    requires { events < 2 ^ 63 }
    ensures value { result ≡ slots_for events }
    ensures some { 0 < result }
{
    events / 2 * 2 + 1
}

/// The slot of a frame by its number and its link. Frames that lie side by side have slots of their own.
#[tactic(auto, unfolding(crate::specs::Slots::slot_of))]
fn slot(slots: usize, from: NodeId, to: NodeId, index: u64) -> usize
    requires { 0 < slots }
    ensures value { result ≡ slot_of slots from to index }
    ensures bound { result < slots }
{
    let link = from.number() as u64 * 8 + to.number() as u64;
    (index.wrapping_mul(64).wrapping_add(link) % slots as u64) as usize
}

/// The slot of the frame that an event takes.
fn slot_taken(slots: usize, view: &EventView) -> Option<usize>
    requires { 0 < slots }
    ensures value { result ≡ slot_of_taken slots view.now }
    ensures bound { IfSome result (λ slot. slot < slots) }
{
    match view.event.what() {
        What::Take(from, index) => Some(slot(slots, from, view.event.place().node, index)),
        _ => None,
    }
}

/// The events by the slots of the frames that they take.
fn by_slots(alloc: Global, shown: &[&EventView]) -> Result<KeyedPlaces, NoMemory>
    ensures { IfOk result (λ places. AreBySlots places (lent_views shown.now)) }
{
    let slots = slot_count(shown.len());
    let mut places = KeyedPlaces::new(alloc, slots)?;
    for (at, &view) in shown.iter().enumerate() {
        places.put(slot_taken(slots, view), at)?;
    }
    Ok(places)
}

/// The places of those that take a frame which a node sent.
fn takers(
    alloc: Global,
    shown: &[&EventView],
    by_slots: &KeyedPlaces,
    from: NodeId,
    sent: &Sent,
) -> Result<Vec<usize>, NoMemory>
    requires { AreBySlots by_slots.now (lent_views shown.now) }
    ensures places { IfOk result (λ rows. rows.items ≡ places_of_takers 0 from sent.now (lent_views shown.now)) }
    ensures bound { IfOk result (λ rows. All (λ row. row < length shown.now) rows.items) }
{
    let slot = slot(slot_count(shown.len()), from, sent.to, sent.index);
    let places = by_slots.of(slot);
    let mut rows = Vec::new(alloc);
    for at in places {
        push_if(&mut rows, takes_at(shown, from, sent, *at), *at)?;
    }
    Ok(rows)
}

fn is_late(fate: Fate) -> bool
    ensures { result ≡ is_late_fate fate }
{
    matches!(fate, Fate::Late(_))
}

/// What became of a frame that no row took.
fn not_taken(fate: Fate) -> Arrival
    ensures { result ≡ became fate }
{
    match fate {
        Fate::Lose => Arrival::Lost,
        Fate::Pass | Fate::Twice(_) | Fate::Late(_) => Arrival::Never,
    }
}

/// Puts an arrow last, of a frame that the event of the row at a place sent.
fn add_arrow(
    alloc: Global,
    chart: &mut Chart,
    run: &RunView,
    at: usize,
    view: &EventView,
    sent: &Sent,
    end: Arrival,
    is_copy: bool,
) -> Result<(), NoMemory>
    requires lanes { chart.old.lanes ≡ run.now.names }
    requires at { at < length chart.old.rows }
    requires end { EndsAmong chart.old.rows end }
    requires named { IsNamed run.now.names sent.now.to }
    requires kind { IsKindNumber sent.now.kind }
    ensures { OnOk result (chart.new ≡ with_arrow chart.old (arrow_of run.now at view.now.event.place.node sent.now view.now (end, is_copy))) }
{
    let label = sent_label(alloc, run, sent, &view.sent)?;
    let title = sent_title(alloc, run, view.event.place().node, sent, &view.sent)?;
    let to = lane_of(run, sent.to);
    chart.add_arrow(Arrow {
        sender: at,
        to,
        end,
        is_copy,
        label,
        title,
    })
}

/// Puts an arrow to each of these rows last, as of copies.
fn add_copies(
    alloc: Global,
    chart: &mut Chart,
    run: &RunView,
    at: usize,
    view: &EventView,
    sent: &Sent,
    rows: &[usize],
) -> Result<(), NoMemory>
    requires lanes { chart.old.lanes ≡ run.now.names }
    requires at { at < length chart.old.rows }
    requires rows { All (λ row. row < length chart.old.rows) rows.now }
    requires named { IsNamed run.now.names sent.now.to }
    requires kind { IsKindNumber sent.now.kind }
    ensures { OnOk result (chart.new ≡ with_arrows chart.old (map (λ row. arrow_of run.now at view.now.event.place.node sent.now view.now (Row row, true)) rows.now)) }
{
    for row in rows {
        add_arrow(alloc, chart, run, at, view, sent, Arrival::Row(*row), true)?;
    }
    Ok(())
}

/// Puts the arrows of a frame last that the event of the row at a place sent.
fn add_sent(
    alloc: Global,
    chart: &mut Chart,
    run: &RunView,
    shown: &[&EventView],
    by_slots: &KeyedPlaces,
    at: usize,
    view: &EventView,
    sent: &Sent,
) -> Result<(), NoMemory>
    requires slots { AreBySlots by_slots.now (lent_views shown.now) }
    requires lanes { chart.old.lanes ≡ run.now.names }
    requires rows { length chart.old.rows ≡ length shown.now }
    requires at { at < length shown.now }
    requires named { IsNamed run.now.names sent.now.to }
    requires kind { IsKindNumber sent.now.kind }
    ensures { OnOk result (chart.new ≡ with_arrows chart.old (arrows_sent run.now (lent_views shown.now) at view.now (Some sent.now))) }
{
    let from = view.event.place().node;
    let fate = run.plan().fate(from, sent.to, sent.index);
    let rows = takers(alloc, shown, by_slots, from, sent)?;
    let Some((first, copies)) = rows.split_first() else {
        return add_arrow(alloc, chart, run, at, view, sent, not_taken(fate), false);
    };
    let end = Arrival::Row(*first);
    add_arrow(alloc, chart, run, at, view, sent, end, is_late(fate))?;
    add_copies(alloc, chart, run, at, view, sent, copies)
}

/// Puts the arrows last of the frame that the event of the row at a place sent, if it sent one that is chosen.
fn add_arrows(
    alloc: Global,
    chart: &mut Chart,
    choice: &Choice,
    run: &RunView,
    shown: &[&EventView],
    by_slots: &KeyedPlaces,
    at: usize,
    view: &EventView,
) -> Result<(), NoMemory>
    requires slots { AreBySlots by_slots.now (lent_views shown.now) }
    requires lanes { chart.old.lanes ≡ run.now.names }
    requires rows { length chart.old.rows ≡ length shown.now }
    requires at { at < length shown.now }
    requires named { Names run.now.names view.now.event }
    ensures { OnOk result (chart.new ≡ with_arrows chart.old (arrows_at choice.now run.now (lent_views shown.now) at view.now)) }
{
    if !choice.is_sent_chosen(view) {
        return Ok(());
    }
    let Some(sent) = view.event.effects().sent else {
        return Ok(());
    };
    add_sent(alloc, chart, run, shown, by_slots, at, view, &sent)
}

/// Puts the rows of these events last.
fn add_all_rows(
    alloc: Global,
    chart: &mut Chart,
    run: &RunView,
    shown: &[&EventView],
) -> Result<(), NoMemory>
    requires blank { chart.old.rows ≡ [] }
    requires lanes { chart.old.lanes ≡ run.now.names }
    requires named { AreNamed run.now.names (lent_views shown.now) }
    ensures { OnOk result (chart.new ≡ record chart.old { rows = map (row_of run.now) (lent_views shown.now) }) }
{
    for &view in shown {
        add_row(alloc, chart, run, view)?;
    }
    Ok(())
}

/// Puts the arrows of these events last, whose rows are there.
fn add_all_arrows(
    alloc: Global,
    chart: &mut Chart,
    choice: &Choice,
    run: &RunView,
    shown: &[&EventView],
) -> Result<(), NoMemory>
    requires blank { chart.old.arrows ≡ [] }
    requires lanes { chart.old.lanes ≡ run.now.names }
    requires rows { length chart.old.rows ≡ length shown.now }
    requires named { AreNamed run.now.names (lent_views shown.now) }
    ensures { OnOk result (chart.new ≡ record chart.old { arrows = arrows_from choice.now run.now (lent_views shown.now) 0 (lent_views shown.now) }) }
{
    let by_slots = by_slots(alloc, shown)?;
    for (at, &view) in shown.iter().enumerate() {
        add_arrows(alloc, chart, choice, run, shown, &by_slots, at, view)?;
    }
    Ok(())
}

/// The chart of the events of a run that are chosen: a lane for each node, a row for each of these events, in order, and no other, and from each
/// that sent a frame that is itself chosen an arrow to each that took it; all but the first are copies, and so is one that is late. A frame that was
/// lost ends so, and one that none of these events took ends nowhere.
pub fn chart_of(alloc: Global, run: &RunView, choice: &Choice) -> Result<Chart, NoMemory>
    ensures { IfOk result (λ chart. chart ≡ chart_of_events choice.now run.now (chosen choice.now run.now.events)) }
{
    let views = run.events();
    let shown = shown_of(alloc, views, choice)?;
    let title = title(alloc, shown.len(), views.len())?;
    let mut chart = Chart::new(alloc, title, lanes_of(alloc, run.names())?)?;
    add_all_rows(alloc, &mut chart, run, shown.as_slice())?;
    add_all_arrows(alloc, &mut chart, choice, run, shown.as_slice())?;
    Ok(chart)
}
