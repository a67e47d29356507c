//! Draws the arrows of pictures.
ghost use Rattle.std.specs.Prelude.{◌≡◌, ◌+◌, ◌≤◌, ◌<◌, ◌^◌, ◌++◌, length, slice_get, All, OnOk};
ghost use Rattle.lane_charts.specs.Charts.{EndsAmong, IsArrowOf};
ghost use Rattle.lane_charts.specs.Lines.{AreLinesOf};
ghost use Rattle.lane_charts.specs.Pictures.{arrow_group, arrow_open, arrow_path, arrows_of, copy_class, end_class, end_path, groups_at, note, taken_path, tie};
ghost use Rattle.lane_charts.specs.Places.{drawn};

use crate::chart::{Arrival, Arrow, Chart, MOST_LANES, MOST_ROWS};
use crate::layout::{LINE, RowLines, fitting, lane_x, right_end, stub_x, words_x};
use crate::markup::{put_attribute, put_point, put_title, put_words};
use crate::way::{Way, way_between};
use dom_text::put_decimal;
use uid_names::{ByteList, NoMemory};

/// The arrows that the row of an index sends, which is in this lane: each in a line of its own, from a line on.
pub(crate) fn put_arrows(
    to: &mut ByteList,
    chart: &Chart,
    lines: &RowLines,
    at: usize,
    from: usize,
    line: u64,
) -> Result<(), NoMemory>
    requires lines { AreLinesOf chart.now lines.now }
    requires there { at < length chart.now.rows }
    requires placed { from < length chart.now.lanes }
    requires low { 1 ≤ line }
    requires high { line < 2 ^ 40 }
    ensures { OnOk result (to.new ≡ to.old ++ arrows_of chart.now at from line chart.now.arrows) }
{
    let _few = chart.arrows();
    put_groups(to, chart, lines, from, line, lines.sent.of(at))
}

/// The arrows at these places, each in a line of its own, from a line on.
fn put_groups(
    to: &mut ByteList,
    chart: &Chart,
    lines: &RowLines,
    from: usize,
    line: u64,
    places: &[usize],
) -> Result<(), NoMemory>
    requires lines { AreLinesOf chart.now lines.now }
    requires placed { from < length chart.now.lanes }
    requires low { 1 ≤ line }
    requires high { line < 2 ^ 40 }
    requires there { All (λ place. place < length chart.now.arrows) places.now }
    requires few { length places.now ≤ MOST_ROWS }
    ensures { OnOk result (to.new ≡ to.old ++ groups_at chart.now from line places.now) }
{
    for (below, place) in places.iter().enumerate() {
        put_arrow_at(to, chart, lines, from, line + below as u64, *place)?;
    }
    Ok(())
}

/// The group of the arrow at a place.
fn put_arrow_at(
    to: &mut ByteList,
    chart: &Chart,
    lines: &RowLines,
    from: usize,
    line: u64,
    place: usize,
) -> Result<(), NoMemory>
    requires lines { AreLinesOf chart.now lines.now }
    requires placed { from < length chart.now.lanes }
    requires low { 1 ≤ line }
    requires high { line < 2 ^ 41 }
    requires there { place < length chart.now.arrows }
    ensures { OnOk result (to.new ≡ to.old ++ drawn (arrow_group chart.now from line) (slice_get chart.now.arrows place)) }
{
    put_arrow(to, chart, lines, from, line, chart.arrow(place))
}

/// The class of an arrow by its end.
#[tactic(auto, unfolding(crate::specs::Pictures::end_class))]
fn class_of(end: Arrival) -> &'static [u8]
    ensures { result.now ≡ end_class end }
{
    match end {
        Arrival::Row(_) => b"taken",
        Arrival::Lost => b"lost",
        Arrival::Never => b"never",
    }
}

#[tactic(auto, unfolding(crate::specs::Pictures::copy_class))]
fn copy_class_of(is_copy: bool) -> &'static [u8]
    ensures { result.now ≡ copy_class is_copy }
{
    if is_copy { b" copy" } else { b"" }
}

/// The group of an arrow that starts in a lane, in a line of its own.
#[tactic(auto, unfolding(crate::specs::Pictures::arrow_group))]
fn put_arrow(
    to: &mut ByteList,
    chart: &Chart,
    lines: &RowLines,
    from: usize,
    line: u64,
    arrow: &Arrow,
) -> Result<(), NoMemory>
    requires lines { AreLinesOf chart.now lines.now }
    requires placed { from < length chart.now.lanes }
    requires arrow { IsArrowOf chart.now.lanes chart.now.rows arrow.now }
    requires low { 1 ≤ line }
    requires high { line < 2 ^ 41 }
    ensures { OnOk result (to.new ≡ to.old ++ arrow_group chart.now from line arrow.now) }
{
    let lanes = chart.lanes().len();
    put_open(to, arrow)?;
    put_title(to, arrow.title.bytes())?;
    put_tie(to, from, line)?;
    put_path(to, chart, lines, arrow, from, LINE * line + 20)?;
    put_note(to, lanes, from, line, arrow.label.bytes())?;
    to.extend(b"</g>\n")
}

/// What opens the group of an arrow.
#[tactic(auto, unfolding(crate::specs::Pictures::arrow_open))]
fn put_open(to: &mut ByteList, arrow: &Arrow) -> Result<(), NoMemory>
    ensures { OnOk result (to.new ≡ to.old ++ arrow_open arrow.now) }
{
    to.extend(b"<g class=\"arrow ")?;
    to.extend(class_of(arrow.end))?;
    to.extend(copy_class_of(arrow.is_copy))?;
    to.extend(b"\">")
}

/// The label of an arrow, in its line.
#[tactic(auto, unfolding(crate::specs::Pictures::note))]
fn put_note(
    to: &mut ByteList,
    lanes: usize,
    from: usize,
    line: u64,
    label: &[u8],
) -> Result<(), NoMemory>
    requires few { lanes ≤ MOST_LANES }
    requires placed { from < lanes }
    requires high { line < 2 ^ 41 }
    ensures { OnOk result (to.new ≡ to.old ++ note lanes from line label.now) }
{
    let x = words_x(from);
    put_words(
        to,
        b"note",
        x,
        LINE * line + 14,
        fitting(label, x, right_end(lanes)),
    )
}

/// What ties an arrow to its row.
#[tactic(auto, unfolding(crate::specs::Pictures::tie))]
fn put_tie(to: &mut ByteList, from: usize, line: u64) -> Result<(), NoMemory>
    requires placed { from ≤ MOST_LANES }
    requires low { 1 ≤ line }
    requires high { line < 2 ^ 41 }
    ensures { OnOk result (to.new ≡ to.old ++ tie from line) }
{
    to.extend(b"<rect")?;
    put_attribute(to, b"x", lane_x(from) - 2)?;
    put_attribute(to, b"y", LINE * line - 12)?;
    to.extend(b" width=\"4\" height=\"32\"/>")
}

/// The way of an arrow from its lane at a height.
#[tactic(auto, unfolding(crate::specs::Pictures::arrow_path))]
fn put_path(
    to: &mut ByteList,
    chart: &Chart,
    lines: &RowLines,
    arrow: &Arrow,
    from: usize,
    y: u64,
) -> Result<(), NoMemory>
    requires lines { AreLinesOf chart.now lines.now }
    requires few { length chart.now.lanes ≤ MOST_LANES }
    requires placed { from < length chart.now.lanes }
    requires arrow { IsArrowOf chart.now.lanes chart.now.rows arrow.now }
    ensures { OnOk result (to.new ≡ to.old ++ arrow_path chart.now.arrows arrow.now from y) }
{
    let way = way_between(from, arrow.to);
    to.extend(b"<path d=\"M")?;
    put_point(to, lane_x(from), y)?;
    put_end(
        to,
        chart,
        lines,
        arrow.end,
        way,
        (lane_x(from), y),
        lane_x(arrow.to),
    )?;
    to.extend(b"\"/>")
}

/// The way of an arrow from a place to where it ends.
#[tactic(auto, unfolding(crate::specs::Pictures::end_path))]
fn put_end(
    to: &mut ByteList,
    chart: &Chart,
    lines: &RowLines,
    end: Arrival,
    way: Way,
    start: (u64, u64),
    to_x: u64,
) -> Result<(), NoMemory>
    requires lines { AreLinesOf chart.now lines.now }
    requires there { EndsAmong chart.now.rows end }
    requires low { 60 ≤ start.0 }
    requires high { start.0 < 2 ^ 16 }
    ensures { OnOk result (to.new ≡ to.old ++ end_path chart.now.arrows end way start.0 start.1 to_x) }
{
    let (x, y) = start;
    match end {
        Arrival::Row(at) => {
            let to_y = LINE * lines.line(chart, at) + 4;
            put_taken(to, way, (x, y), (to_x, to_y))
        }
        Arrival::Lost | Arrival::Never => {
            to.extend(b"H")?;
            put_decimal(to, stub_x(way, x))
        }
    }
}

/// The way from a place to a row that takes an arrow.
#[tactic(auto, unfolding(crate::specs::Pictures::taken_path))]
fn put_taken(
    to: &mut ByteList,
    way: Way,
    start: (u64, u64),
    end: (u64, u64),
) -> Result<(), NoMemory>
    requires { start.0 < 2 ^ 16 }
    ensures { OnOk result (to.new ≡ to.old ++ taken_path way start.0 start.1 end.0 end.1) }
{
    match way {
        Way::Right | Way::Left => {
            to.extend(b"L")?;
            put_point(to, end.0, end.1)
        }
        Way::Back => {
            to.extend(b"C")?;
            put_point(to, start.0 + 60, start.1)?;
            to.extend(b" ")?;
            put_point(to, start.0 + 60, end.1)?;
            to.extend(b" ")?;
            put_point(to, end.0, end.1)
        }
    }
}
