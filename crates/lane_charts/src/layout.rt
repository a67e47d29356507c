//! Where things stand in a picture, in pixels.
ghost use Rattle.std.specs.Prelude.{◌≡◌, ◌≤◌, ◌<◌, ◌+◌, ◌/◌, ◌^◌, length, IfOk};
ghost use Rattle.lane_charts.specs.ArrowKeys.{key_as};
ghost use Rattle.lane_charts.specs.Layout.{fitting as fitting_text, lane_x as lane_x_of, line_of, lines_in, lines_to, right_of, stub_x as stub_x_of, width_of, words_x as words_x_of};
ghost use Rattle.lane_charts.specs.Lines.{AreLinesOf};
ghost use Rattle.lane_charts.specs.Places.{AreKeyed};
ghost use Rattle.lane_charts.specs.declared.by_row.Standing.TheVariants.{Sent};

use crate::by_row::{Standing, by_rows};
use crate::chart::{Chart, MOST_LANES, MOST_ROWS};
use crate::cuts::first_of;
use crate::places::KeyedPlaces;
use crate::way::Way;
use std::alloc::Global;
use uid_names::{ItemList, NoMemory};

/// How high a line is.
pub(crate) const LINE: u64 = 20;

/// How far the lanes are from each other.
const STEP: u64 = 160;

pub(crate) fn lane_x(lane: usize) -> u64
    requires { lane ≤ MOST_LANES }
    ensures value { result ≡ lane_x_of lane }
    ensures left { 100 ≤ result }
    ensures right { result < 2 ^ 16 }
{
    112 + STEP * lane as u64
}

/// Where the texts of a lane begin.
pub(crate) fn words_x(lane: usize) -> u64
    requires { lane ≤ MOST_LANES }
    ensures { result ≡ words_x_of lane }
{
    124 + STEP * lane as u64
}

/// How wide a picture of so many lanes is.
pub(crate) fn width(lanes: usize) -> u64
    requires { lanes ≤ MOST_LANES }
    ensures { result ≡ width_of lanes }
{
    252 + STEP * lanes as u64
}

/// Where the texts of such a picture end.
pub(crate) fn right_end(lanes: usize) -> u64
    requires { lanes ≤ MOST_LANES }
    ensures value { result ≡ right_of lanes }
    ensures few { result < 2 ^ 16 }
{
    244 + STEP * lanes as u64
}

/// What fits of a text between two places.
pub(crate) fn fitting(text: &[u8], left: u64, right: u64) -> &[u8]
    requires { right < 2 ^ 16 }
    ensures { result.now ≡ fitting_text left right text.now }
{
    first_of(text, (right.saturating_sub(left) * 10 / 73) as usize)
}

/// The line of the row of an index that has so many arrows above it.
fn line_at(at: usize, above: usize) -> u64
    requires rows { at ≤ MOST_ROWS }
    requires arrows { above ≤ MOST_ROWS }
    ensures { result ≡ 2 + at + at / 50 + above }
{
    2 + (at + at / 50 + above) as u64
}

/// The lines of all rows, and the first below all rows and arrows.
fn lines_of(alloc: Global, chart: &Chart, sent: &KeyedPlaces) -> Result<ItemList<u64>, NoMemory>
    requires { AreKeyed (key_as Sent) (length chart.now.rows) sent.now chart.now.arrows }
    ensures { IfOk result (λ lines. lines ≡ lines_to chart.now.arrows (length chart.now.rows + 1)) }
{
    let rows = chart.rows().len();
    let _few = chart.arrows();
    let mut lines = ItemList::new(alloc);
    let mut above = 0;
    for at in 0..rows {
        lines.push(line_at(at, above))?;
        above += sent.of(at).len();
    }
    lines.push(line_at(rows, above))?;
    Ok(lines)
}

/// The lines of a chart's rows, and its arrows by the rows that send them.
#[derive(Drop, Debug)]
pub(crate) struct RowLines {
    lines: ItemList<u64>,
    pub(crate) sent: KeyedPlaces,
}

impl RowLines {
    pub(crate) fn of(alloc: Global, chart: &Chart) -> Result<RowLines, NoMemory>
        ensures { IfOk result (AreLinesOf chart.now) }
    {
        let sent = by_rows(alloc, chart, Standing::Sent)?;
        let lines = lines_of(alloc, chart, &sent)?;
        Ok(RowLines { lines, sent })
    }

    /// The line of the row of an index; that of the last one and one more is the first below all rows and arrows.
    pub(crate) fn line(&self, chart: &Chart, at: usize) -> u64
        requires lines { AreLinesOf chart.now self.now }
        requires there { at ≤ length chart.now.rows }
        ensures value { result ≡ line_of chart.now.arrows at }
        ensures low { 2 ≤ result }
        ensures high { result < 2 ^ 35 }
    {
        let _few_rows = chart.rows();
        let _few_arrows = chart.arrows();
        self.lines.items()[at]
    }

    /// How many lines the picture has.
    #[tactic(auto, unfolding(crate::specs::Layout::lines_in))]
    pub(crate) fn count(&self, chart: &Chart) -> u64
        requires { AreLinesOf chart.now self.now }
        ensures value { result ≡ lines_in chart.now }
        ensures low { 3 ≤ result }
        ensures high { result < 2 ^ 36 }
    {
        self.line(chart, chart.rows().len()) + 1
    }
}

/// Where an arrow ends that starts here and that no row takes.
pub(crate) fn stub_x(way: Way, x: u64) -> u64
    requires low { 60 ≤ x }
    requires high { x < 2 ^ 16 }
    ensures { result ≡ stub_x_of way x }
{
    match way {
        Way::Right | Way::Back => x + 60,
        Way::Left => x - 60,
    }
}
