//! Draws charts for terminals.
ghost use Rattle.std.specs.Prelude.{◌≡◌, ◌<◌, ◌≤◌, ◌++◌, length, slice_get, All, IfOk, OnOk};
ghost use Rattle.std.specs.List.{flat_map};
ghost use Rattle.lane_charts.specs.ArrowKeys.{key_as};
ghost use Rattle.lane_charts.specs.ByRow.{AreOfRows};
ghost use Rattle.lane_charts.specs.Charts.{IsRowOf};
ghost use Rattle.lane_charts.specs.Places.{AreKeyed, drawn};
ghost use Rattle.lane_charts.specs.TextCharts.{arrow_if, arrow_in, arrow_line, fails_at, is_taken_at, names_line, row_block, row_cells, row_line, text_of};
ghost use Rattle.lane_charts.specs.declared.by_row.Standing.TheVariants.{Failed, Taken};

use crate::by_row::RowArrows;
use crate::cells::{
    column_width, put_lifelines, put_margin, put_repeated, put_shaft, put_shown, put_worded,
};
use crate::chart::{Arrow, Chart, ChartRow};
use crate::heads::is_headed;
use crate::places::KeyedPlaces;
use crate::way::way_between;
use std::alloc::Global;
use uid_names::{ByteList, NoMemory};

/// The chart in lines of this width, in bytes. Where its lanes need more, the lines are longer.
///
/// Behind the chart's title and the names of its lanes each row has its block: the arrows that it takes, then the row, with its
/// tick and its label in its lane, then the arrows that start there and that no row takes.
pub fn draw_text(alloc: Global, chart: &Chart, width: usize) -> Result<ByteList, NoMemory>
    ensures { IfOk result (λ text. text ≡ text_of chart.now width) }
{
    let column = column_width(width, chart.lanes().len());
    let mut text = ByteList::new(alloc);
    put_shown(&mut text, chart.title())?;
    text.extend(b"\n")?;
    put_names(&mut text, column, chart.lanes())?;
    let arrows = RowArrows::of(alloc, chart)?;
    for (at, row) in chart.rows().iter().enumerate() {
        put_block(alloc, &mut text, column, chart, &arrows, at, row)?;
    }
    Ok(text)
}

/// The line with the names of all lanes.
fn put_names(to: &mut ByteList, column: usize, lanes: &[ByteList]) -> Result<(), NoMemory>
    ensures { OnOk result (to.new ≡ to.old ++ names_line column lanes.now) }
{
    to.extend(b"         ")?;
    for name in lanes {
        put_worded(to, column.saturating_sub(1), b' ', name.bytes())?;
    }
    to.extend(b"\n")
}

/// The lines of a row, which has this index.
fn put_block(
    alloc: Global,
    to: &mut ByteList,
    column: usize,
    chart: &Chart,
    arrows: &RowArrows,
    at: usize,
    row: &ChartRow,
) -> Result<(), NoMemory>
    requires low { 8 ≤ column }
    requires high { column ≤ 60 }
    requires there { at < length chart.now.rows }
    requires arrows { AreOfRows chart.now arrows.now }
    requires placed { IsRowOf chart.now.lanes row.now }
    ensures { OnOk result (to.new ≡ to.old ++ row_block column chart.now at row.now) }
{
    if is_headed(at) {
        put_names(to, column, chart.lanes())?;
    }
    put_taken(to, column, chart, &arrows.taken, at)?;
    put_row(alloc, to, column, chart.lanes().len(), row)?;
    put_failed(to, column, chart, &arrows.failed, at)
}

/// The arrows that the row of this index takes.
fn put_taken(
    to: &mut ByteList,
    column: usize,
    chart: &Chart,
    taken: &KeyedPlaces,
    at: usize,
) -> Result<(), NoMemory>
    requires low { 8 ≤ column }
    requires high { column ≤ 60 }
    requires there { at < length chart.now.rows }
    requires taken { AreKeyed (key_as Taken) (length chart.now.rows) taken.now chart.now.arrows }
    ensures { OnOk result (to.new ≡ to.old ++ flat_map (λ a. arrow_if (is_taken_at at a.end) column chart.now a) chart.now.arrows) }
{
    put_arrows(to, column, chart, taken.of(at))
}

/// The arrows that start at the row of this index, and that no row takes.
fn put_failed(
    to: &mut ByteList,
    column: usize,
    chart: &Chart,
    failed: &KeyedPlaces,
    at: usize,
) -> Result<(), NoMemory>
    requires low { 8 ≤ column }
    requires high { column ≤ 60 }
    requires there { at < length chart.now.rows }
    requires failed { AreKeyed (key_as Failed) (length chart.now.rows) failed.now chart.now.arrows }
    ensures { OnOk result (to.new ≡ to.old ++ flat_map (λ a. arrow_if (fails_at at a) column chart.now a) chart.now.arrows) }
{
    put_arrows(to, column, chart, failed.of(at))
}

/// The arrows at these places.
fn put_arrows(
    to: &mut ByteList,
    column: usize,
    chart: &Chart,
    places: &[usize],
) -> Result<(), NoMemory>
    requires low { 8 ≤ column }
    requires high { column ≤ 60 }
    requires there { All (λ place. place < length chart.now.arrows) places.now }
    ensures { OnOk result (to.new ≡ to.old ++ flat_map (λ place. drawn (arrow_in column chart.now) (slice_get chart.now.arrows place)) places.now) }
{
    for place in places {
        put_arrow_at(to, column, chart, *place)?;
    }
    Ok(())
}

/// The arrow at a place.
fn put_arrow_at(
    to: &mut ByteList,
    column: usize,
    chart: &Chart,
    place: usize,
) -> Result<(), NoMemory>
    requires low { 8 ≤ column }
    requires high { column ≤ 60 }
    requires there { place < length chart.now.arrows }
    ensures { OnOk result (to.new ≡ to.old ++ drawn (arrow_in column chart.now) (slice_get chart.now.arrows place)) }
{
    let arrow = chart.arrow(place);
    let from = chart.lane_of(arrow.sender);
    put_arrow(to, column, chart.lanes().len(), from, arrow)
}

/// The line of an arrow that starts in a lane.
fn put_arrow(
    to: &mut ByteList,
    column: usize,
    lanes: usize,
    from: usize,
    arrow: &Arrow,
) -> Result<(), NoMemory>
    requires low { 8 ≤ column }
    requires high { column ≤ 60 }
    requires few { lanes ≤ 64 }
    requires sender { from < lanes }
    requires to { arrow.now.to < lanes }
    ensures { OnOk result (to.new ≡ to.old ++ arrow_line column lanes from arrow.now) }
{
    let low = from.min(arrow.to);
    let high = from.max(arrow.to).max(low + 1);
    to.extend(b"         ")?;
    put_lifelines(to, column, low)?;
    to.extend(b"|")?;
    let room = (high - low) * column - 5;
    put_shaft(to, way_between(from, arrow.to), room, arrow)?;
    put_lifelines(to, column, lanes - high)?;
    to.extend(b"\n")
}

/// The line of a row.
fn put_row(
    alloc: Global,
    to: &mut ByteList,
    column: usize,
    lanes: usize,
    row: &ChartRow,
) -> Result<(), NoMemory>
    requires low { 8 ≤ column }
    requires high { column ≤ 60 }
    requires few { lanes ≤ 64 }
    requires placed { row.now.lane < lanes }
    ensures { OnOk result (to.new ≡ to.old ++ row_line column lanes row.now) }
{
    put_margin(alloc, to, row.tick)?;
    put_cells(to, column, lanes, row)?;
    to.extend(b"\n")
}

/// A row in its lane, or across all lanes.
fn put_cells(to: &mut ByteList, column: usize, lanes: usize, row: &ChartRow) -> Result<(), NoMemory>
    requires low { 8 ≤ column }
    requires high { column ≤ 60 }
    requires few { lanes ≤ 64 }
    requires placed { row.now.lane < lanes }
    ensures { OnOk result (to.new ≡ to.old ++ row_cells column lanes row.now.is_mark row.now) }
{
    if row.is_mark {
        to.extend(b"= ")?;
        return put_worded(to, lanes * column - 3, b'=', row.label.bytes());
    }
    put_lifelines(to, column, row.lane)?;
    to.extend(b"* ")?;
    put_worded(to, column - 3, b' ', row.label.bytes())?;
    put_lifelines(to, column, lanes - row.lane - 1)
}
