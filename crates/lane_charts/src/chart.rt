//! What a chart shows.
ghost use Rattle.std.specs.Prelude.{◌≡◌, ◌<◌, ◌≤◌, Some, length, slice_get, All, IfOk, OnOk, OnErr};

use std::alloc::Global;
use std::marker::Model;
use uid_names::{ByteList, ItemList, NoMemory};

/// The most lanes of a chart.
pub const MOST_LANES: usize = 64;

/// The most rows of a chart, and the most arrows.
pub const MOST_ROWS: usize = 1 << 32;

/// What happened in a lane at a tick.
#[derive(Drop, Debug)]
pub struct ChartRow {
    pub tick: u64,
    /// The index of its lane.
    pub lane: usize,
    /// What happened.
    pub label: ByteList,
    /// Whether it is drawn as a line across all lanes.
    pub is_mark: bool,
}

/// What became of an arrow.
#[derive(Clone, Copy, Debug, PartialEq, Eq)]
pub enum Arrival {
    /// The row of this index took it.
    Row(usize),
    /// It was lost on its way.
    Lost,
    /// It did not arrive, and was not lost.
    Never,
}

/// What was sent from a row to a lane.
#[derive(Drop, Debug)]
pub struct Arrow {
    /// The index of the row that it starts at.
    pub sender: usize,
    /// The index of the lane that it goes to.
    pub to: usize,
    pub end: Arrival,
    /// Whether another arrow is what was sent, and this one the same once more.
    pub is_copy: bool,
    /// What stands beside it.
    pub label: ByteList,
    /// All that is to be said of it.
    pub title: ByteList,
}

/// A chart: lanes side by side, rows from the top down, and arrows. Each row is in one of the lanes, and each arrow goes from one
/// of the rows to one of the lanes, and ends at one of the rows if at all.
#[derive(Drop, Debug)]
pub struct Chart {
    title: ByteList,
    lanes: ItemList<ByteList>,
    rows: ItemList<ChartRow>,
    arrows: ItemList<Arrow>,
}

impl Model for Chart {
    ghost use Rattle.lane_charts.specs.Charts.{Drawing, IsChart};

    ghost Value = { Drawing };

    ghost view = { λ c. record { title = c.title; lanes = c.lanes; rows = c.rows; arrows = c.arrows } };

    ghost invariant = { λ c. IsChart (record { title = c.title; lanes = c.lanes; rows = c.rows; arrows = c.arrows }) };
}

impl Chart {
    ghost use Rattle.lane_charts.specs.Charts.{IsArrowOf, IsRowOf, blank, lane_at, with_arrow, with_row};

    /// A chart with these lanes, by their names from left to right, and no row yet. Refused as for want of memory where there are
    /// more than `MOST_LANES`.
    pub fn new(alloc: Global, title: ByteList, lanes: ItemList<ByteList>) -> Result<Chart, NoMemory>
        ensures { IfOk result (λ chart. chart ≡ blank title lanes) }
    {
        if lanes.items().len() > MOST_LANES {
            return Err(NoMemory);
        }
        Ok(Chart {
            title,
            lanes,
            rows: ItemList::new(alloc),
            arrows: ItemList::new(alloc),
        })
    }

    /// Puts a row last, below all others. Without memory the chart stays as it was; so it is where it has `MOST_ROWS` already.
    pub fn add_row(&mut self, row: ChartRow) -> Result<(), NoMemory>
        requires { IsRowOf self.old.lanes row }
        ensures ok { OnOk result (self.new ≡ with_row self.old row) }
        ensures err { OnErr result (self.new ≡ self.old) }
    {
        if self.rows.items().len() >= MOST_ROWS {
            return Err(NoMemory);
        }
        self.rows.push(row)
    }

    /// Puts an arrow last. Without memory the chart stays as it was; so it is where it has `MOST_ROWS` arrows already.
    pub fn add_arrow(&mut self, arrow: Arrow) -> Result<(), NoMemory>
        requires { IsArrowOf self.old.lanes self.old.rows arrow }
        ensures ok { OnOk result (self.new ≡ with_arrow self.old arrow) }
        ensures err { OnErr result (self.new ≡ self.old) }
    {
        if self.arrows.items().len() >= MOST_ROWS {
            return Err(NoMemory);
        }
        self.arrows.push(arrow)
    }

    /// What is shown.
    pub fn title(&self) -> &[u8]
        ensures { result.now ≡ self.now.title }
    {
        self.title.bytes()
    }

    /// The names of the lanes, from left to right.
    pub fn lanes(&self) -> &[ByteList]
        ensures value { result.now ≡ self.now.lanes }
        ensures few { length self.now.lanes ≤ MOST_LANES }
    {
        self.lanes.items()
    }

    /// The rows, from the top down.
    pub fn rows(&self) -> &[ChartRow]
        ensures value { result.now ≡ self.now.rows }
        ensures placed { All (IsRowOf self.now.lanes) self.now.rows }
        ensures few { length self.now.rows ≤ MOST_ROWS }
    {
        self.rows.items()
    }

    /// The arrows, in the order in which they were added.
    pub fn arrows(&self) -> &[Arrow]
        ensures value { result.now ≡ self.now.arrows }
        ensures placed { All (IsArrowOf self.now.lanes self.now.rows) self.now.arrows }
        ensures few { length self.now.arrows ≤ MOST_ROWS }
    {
        self.arrows.items()
    }

    /// The arrow at this place among them.
    pub fn arrow(&self, place: usize) -> &Arrow
        requires { place < length self.now.arrows }
        ensures value { slice_get self.now.arrows place ≡ Some result.now }
        ensures placed { IsArrowOf self.now.lanes self.now.rows result.now }
    {
        &self.arrows.items()[place]
    }

    /// The lane of the row of this index.
    pub fn lane_of(&self, row: usize) -> usize
        requires { row < length self.now.rows }
        ensures value { result ≡ lane_at self.now.rows row }
        ensures placed { result < length self.now.lanes }
    {
        match self.rows.items().get(row) {
            Some(row) => row.lane,
            None => unreachable!(),
        }
    }
}
