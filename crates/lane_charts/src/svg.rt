//! Draws charts as pictures.
ghost use Rattle.std.specs.Prelude.{◌≡◌, ◌≤◌, ◌<◌, ◌^◌, ◌++◌, length, IfOk, OnOk};
ghost use Rattle.lane_charts.specs.Charts.{IsRowOf};
ghost use Rattle.lane_charts.specs.Lines.{AreLinesOf};
ghost use Rattle.lane_charts.specs.Pictures.{across, across_if, described, dot, lane_line, lane_lines, name_line, names_from, names_if, opening, picture_head, picture_of, row_group, row_head, row_title, sizes, tick_words};

use crate::arrows::put_arrows;
use crate::chart::{Chart, ChartRow, MOST_LANES};
use crate::escape::put_escaped;
use crate::heads::is_headed;
use crate::layout::{LINE, RowLines, fitting, lane_x, right_end, width, words_x};
use crate::markup::{put_attribute, put_point, put_title, put_words};
use dom_text::put_decimal;
use std::alloc::Global;
use uid_names::{ByteList, NoMemory};

/// Colours, light and dark, the ends of arrows, and the background. Each rule has its light colour by itself too, for viewers that
/// know no variables.
pub const STYLE: &[u8] = b"<style>\n\
svg{--back:#fcfcfd;--ink:#2c313c;--soft:#7a8193;--lane:#d5d9e3;--dot:#4f6fb3;--arrow:#8094c4;--lost:#c46a6a;--mark:#b8934a}\n\
@media(prefers-color-scheme:dark){svg{--back:#15171c;--ink:#dfe3ec;--soft:#8d94a5;--lane:#363b47;--dot:#8fabe8;--arrow:#6f87bf;--lost:#e08a8a;--mark:#d3b26c}}\n\
.back{fill:#fcfcfd;fill:var(--back)}\n\
text{font:12px ui-monospace,Menlo,Consolas,monospace;white-space:pre;paint-order:stroke;fill:#2c313c;fill:var(--ink);stroke:#fcfcfd;stroke:var(--back);stroke-width:3px}\n\
.head,.name{font-weight:bold}\n\
.tick,.note{fill:#7a8193;fill:var(--soft)}\n\
.tick{text-anchor:end}\n\
path{fill:none;stroke:#8094c4;stroke:var(--arrow);stroke-width:1.5px}\n\
.lane{stroke:#d5d9e3;stroke:var(--lane)}\n\
.across{stroke:#b8934a;stroke:var(--mark)}\n\
circle{fill:#4f6fb3;fill:var(--dot);stroke:#fcfcfd;stroke:var(--back)}\n\
.arrow rect{fill:#8094c4;fill:var(--arrow)}\n\
.copy path{stroke-dasharray:5 4}\n\
.taken path{marker-end:url(#point)}\n\
.lost path{stroke:#c46a6a;stroke:var(--lost);marker-end:url(#cross)}\n\
.never path{marker-end:url(#ring)}\n\
#point path{fill:#8094c4;fill:var(--arrow);stroke:none}\n\
#cross path{stroke:#c46a6a;stroke:var(--lost)}\n\
#ring circle{fill:#fcfcfd;fill:var(--back);stroke:#8094c4;stroke:var(--arrow)}\n\
</style>\n\
<defs>\n\
<marker id=\"point\" viewBox=\"0 0 8 8\" refX=\"12\" refY=\"4\" markerWidth=\"8\" markerHeight=\"8\" markerUnits=\"userSpaceOnUse\" orient=\"auto\"><path d=\"M0 0L8 4L0 8z\"/></marker>\n\
<marker id=\"cross\" viewBox=\"0 0 8 8\" refX=\"4\" refY=\"4\" markerWidth=\"8\" markerHeight=\"8\" markerUnits=\"userSpaceOnUse\"><path d=\"M0 0L8 8M8 0L0 8\"/></marker>\n\
<marker id=\"ring\" viewBox=\"0 0 8 8\" refX=\"4\" refY=\"4\" markerWidth=\"8\" markerHeight=\"8\" markerUnits=\"userSpaceOnUse\"><circle cx=\"4\" cy=\"4\" r=\"3\"/></marker>\n\
</defs>\n\
<rect class=\"back\" width=\"100%\" height=\"100%\"/>\n";

/// The chart as one SVG picture that needs nothing else, for light and dark.
///
/// Behind its head each row has its group: a dot in its lane with its tick and its label, and beneath it each arrow that it sends,
/// with its label in a line of its own. An arrow goes to the row that takes it; one that is lost ends in a cross, one that never
/// arrives in a ring, and copies are dashed. Texts are cut to what is free; rows and arrows have a title with all of it.
#[tactic(auto, unfolding(crate::specs::Pictures::picture_of))]
pub fn draw_svg(alloc: Global, chart: &Chart) -> Result<ByteList, NoMemory>
    ensures { IfOk result (λ picture. picture ≡ picture_of chart.now) }
{
    let lines = RowLines::of(alloc, chart)?;
    let mut picture = ByteList::new(alloc);
    put_head(&mut picture, chart, &lines)?;
    for (at, row) in chart.rows().iter().enumerate() {
        put_row(&mut picture, chart, &lines, at, row)?;
    }
    picture.extend(b"</svg>\n")?;
    Ok(picture)
}

/// All that stands before the rows.
#[tactic(auto, unfolding(crate::specs::Pictures::picture_head))]
fn put_head(to: &mut ByteList, chart: &Chart, lines: &RowLines) -> Result<(), NoMemory>
    requires { AreLinesOf chart.now lines.now }
    ensures { OnOk result (to.new ≡ to.old ++ picture_head chart.now) }
{
    let lanes = chart.lanes();
    put_opening(to, chart, lines)?;
    put_lane_lines(to, LINE * lines.count(chart) - 8, lanes.len())?;
    put_words(
        to,
        b"head",
        8,
        16,
        fitting(chart.title(), 8, right_end(lanes.len())),
    )?;
    to.extend(b"\n")?;
    put_names(to, 36, lanes)
}

/// The element itself, what it is called, and its style.
#[tactic(auto, unfolding(crate::specs::Pictures::opening))]
fn put_opening(to: &mut ByteList, chart: &Chart, lines: &RowLines) -> Result<(), NoMemory>
    requires { AreLinesOf chart.now lines.now }
    ensures { OnOk result (to.new ≡ to.old ++ opening chart.now) }
{
    to.extend(b"<svg xmlns=\"http://www.w3.org/2000/svg\" role=\"img\"")?;
    put_sizes(to, width(chart.lanes().len()), LINE * lines.count(chart))?;
    to.extend(b">\n")?;
    put_title(to, chart.title())?;
    to.extend(b"\n")?;
    put_description(to, chart)?;
    to.extend(STYLE)
}

/// Width and height.
#[tactic(auto, unfolding(crate::specs::Pictures::sizes))]
fn put_sizes(to: &mut ByteList, width: u64, height: u64) -> Result<(), NoMemory>
    ensures { OnOk result (to.new ≡ to.old ++ sizes width height) }
{
    to.extend(b" viewBox=\"0 0 ")?;
    put_point(to, width, height)?;
    to.extend(b"\"")?;
    put_attribute(to, b"width", width)?;
    put_attribute(to, b"height", height)
}

/// How much the chart shows.
#[tactic(auto, unfolding(crate::specs::Pictures::described))]
fn put_description(to: &mut ByteList, chart: &Chart) -> Result<(), NoMemory>
    ensures { OnOk result (to.new ≡ to.old ++ described chart.now) }
{
    to.extend(b"<desc>Lanes: ")?;
    put_decimal(to, chart.lanes().len() as u64)?;
    to.extend(b", rows: ")?;
    put_decimal(to, chart.rows().len() as u64)?;
    to.extend(b", arrows: ")?;
    put_decimal(to, chart.arrows().len() as u64)?;
    to.extend(b"</desc>\n")
}

/// The lines of so many lanes, down to a height.
fn put_lane_lines(to: &mut ByteList, height: u64, lanes: usize) -> Result<(), NoMemory>
    requires { lanes ≤ MOST_LANES }
    ensures { OnOk result (to.new ≡ to.old ++ lane_lines height lanes) }
{
    for lane in 0..lanes {
        put_lane_line(to, height, lane)?;
    }
    Ok(())
}

#[tactic(auto, unfolding(crate::specs::Pictures::lane_line))]
fn put_lane_line(to: &mut ByteList, height: u64, lane: usize) -> Result<(), NoMemory>
    requires { lane ≤ MOST_LANES }
    ensures { OnOk result (to.new ≡ to.old ++ lane_line height lane) }
{
    to.extend(b"<path class=\"lane\" d=\"M")?;
    put_point(to, lane_x(lane), 42)?;
    to.extend(b"V")?;
    put_decimal(to, height)?;
    to.extend(b"\"/>\n")
}

/// The names of the lanes.
fn put_names(to: &mut ByteList, y: u64, names: &[ByteList]) -> Result<(), NoMemory>
    requires { length names.now ≤ MOST_LANES }
    ensures { OnOk result (to.new ≡ to.old ++ names_from y 0 names.now) }
{
    for (lane, name) in names.iter().enumerate() {
        put_name(to, y, lane, name.bytes())?;
    }
    Ok(())
}

#[tactic(auto, unfolding(crate::specs::Pictures::name_line))]
fn put_name(to: &mut ByteList, y: u64, lane: usize, name: &[u8]) -> Result<(), NoMemory>
    requires { lane ≤ MOST_LANES }
    ensures { OnOk result (to.new ≡ to.old ++ name_line y lane name.now) }
{
    put_words(to, b"name", words_x(lane), y, fitting(name, 0, 148))?;
    to.extend(b"\n")
}

/// The names of the lanes once more, if they stand above a line.
fn put_names_if(
    to: &mut ByteList,
    is_headed: bool,
    line: u64,
    names: &[ByteList],
) -> Result<(), NoMemory>
    requires few { length names.now ≤ MOST_LANES }
    requires low { 1 ≤ line }
    requires high { line < 2 ^ 40 }
    ensures { OnOk result (to.new ≡ to.old ++ names_if is_headed line names.now) }
{
    if !is_headed {
        return Ok(());
    }
    put_names(to, LINE * (line - 1) + 16, names)
}

/// The group of the row of an index.
#[tactic(auto, unfolding(crate::specs::Pictures::row_group))]
fn put_row(
    to: &mut ByteList,
    chart: &Chart,
    lines: &RowLines,
    at: usize,
    row: &ChartRow,
) -> Result<(), NoMemory>
    requires lines { AreLinesOf chart.now lines.now }
    requires there { at < length chart.now.rows }
    requires placed { IsRowOf chart.now.lanes row.now }
    ensures { OnOk result (to.new ≡ to.old ++ row_group chart.now at row.now) }
{
    let line = lines.line(chart, at);
    put_names_if(to, is_headed(at), line, chart.lanes())?;
    to.extend(b"<g class=\"row\">")?;
    put_row_head(to, chart.lanes().len(), line, row)?;
    to.extend(b"\n")?;
    put_arrows(to, chart, lines, at, row.lane, line + 1)?;
    to.extend(b"</g>\n")
}

/// A row in a line, without its arrows.
#[tactic(auto, unfolding(crate::specs::Pictures::row_head))]
fn put_row_head(to: &mut ByteList, lanes: usize, line: u64, row: &ChartRow) -> Result<(), NoMemory>
    requires few { lanes ≤ MOST_LANES }
    requires placed { row.now.lane < lanes }
    requires room { line < 2 ^ 40 }
    ensures { OnOk result (to.new ≡ to.old ++ row_head lanes line row.now) }
{
    let y = LINE * line;
    put_row_title(to, row)?;
    put_across_if(to, row.is_mark, lanes, y + 4)?;
    put_dot(to, lane_x(row.lane), y + 4)?;
    put_tick(to, row.tick, y + 16)?;
    let x = words_x(row.lane);
    put_words(
        to,
        b"label",
        x,
        y + 16,
        fitting(row.label.bytes(), x, right_end(lanes)),
    )
}

#[tactic(auto, unfolding(crate::specs::Pictures::row_title))]
fn put_row_title(to: &mut ByteList, row: &ChartRow) -> Result<(), NoMemory>
    ensures { OnOk result (to.new ≡ to.old ++ row_title row.now) }
{
    to.extend(b"<title>")?;
    put_decimal(to, row.tick)?;
    to.extend(b" ")?;
    put_escaped(to, row.label.bytes())?;
    to.extend(b"</title>")
}

/// The line across all lanes, where the row is a mark.
fn put_across_if(to: &mut ByteList, is_mark: bool, lanes: usize, y: u64) -> Result<(), NoMemory>
    requires { lanes ≤ MOST_LANES }
    ensures { OnOk result (to.new ≡ to.old ++ across_if is_mark lanes y) }
{
    if !is_mark {
        return Ok(());
    }
    put_across(to, lanes, y)
}

#[tactic(auto, unfolding(crate::specs::Pictures::across))]
fn put_across(to: &mut ByteList, lanes: usize, y: u64) -> Result<(), NoMemory>
    requires { lanes ≤ MOST_LANES }
    ensures { OnOk result (to.new ≡ to.old ++ across lanes y) }
{
    to.extend(b"<path class=\"across\" d=\"M104 ")?;
    put_decimal(to, y)?;
    to.extend(b"H")?;
    put_decimal(to, right_end(lanes))?;
    to.extend(b"\"/>")
}

#[tactic(auto, unfolding(crate::specs::Pictures::dot))]
fn put_dot(to: &mut ByteList, x: u64, y: u64) -> Result<(), NoMemory>
    ensures { OnOk result (to.new ≡ to.old ++ dot x y) }
{
    to.extend(b"<circle")?;
    put_attribute(to, b"cx", x)?;
    put_attribute(to, b"cy", y)?;
    to.extend(b" r=\"4\"/>")
}

#[tactic(auto, unfolding(crate::specs::Pictures::tick_words))]
fn put_tick(to: &mut ByteList, tick: u64, y: u64) -> Result<(), NoMemory>
    ensures { OnOk result (to.new ≡ to.old ++ tick_words tick y) }
{
    to.extend(b"<text class=\"tick\" x=\"100\"")?;
    put_attribute(to, b"y", y)?;
    to.extend(b">")?;
    put_decimal(to, tick)?;
    to.extend(b"</text>")
}
