//! Reads the descriptions of charts.
ghost use Rattle.std.specs.Prelude.{IsTrue};
ghost use Rattle.lane_charts.specs.Charts.{EndsAmong};

use anyhow::{Result, bail};
use dom_text::{cut, decimal};
use lane_charts::{Arrival, Arrow, Chart, ChartRow};
use std::alloc::Global;
use uid_names::{ByteList, ItemList};

/// The chart of a description.
pub fn read_chart(alloc: Global, text: &str) -> Result<Chart> {
    let mut lines = text.lines();
    let (Some(title), Some(names)) = (lines.next(), lines.next()) else {
        bail!("a description is cut short");
    };
    let title = ByteList::from_slice(alloc, title.as_bytes())?;
    let mut chart = Chart::new(alloc, title, read_names(alloc, names)?)?;
    for line in lines {
        read_line(alloc, &mut chart, line.as_bytes())?;
    }
    Ok(chart)
}

/// The names of a line.
fn read_names(alloc: Global, line: &str) -> Result<ItemList<ByteList>> {
    let mut names = ItemList::new(alloc);
    for name in line.split_whitespace() {
        names.push(ByteList::from_slice(alloc, name.as_bytes())?)?;
    }
    Ok(names)
}

/// What stands before and behind the first blank.
fn parted(text: &[u8]) -> Result<(&[u8], &[u8])> {
    match cut(text, b' ') {
        Some(parts) => Ok(parts),
        None => bail!("a line is cut short"),
    }
}

/// The number in front of a blank, and what stands behind it.
fn numbered(text: &[u8]) -> Result<(u64, &[u8])> {
    let (word, behind) = parted(text)?;
    Ok((decimal(word)?, behind))
}

/// A line of a row or of an arrow.
fn read_line(alloc: Global, chart: &mut Chart, line: &[u8]) -> Result<()> {
    let (kind, rest) = parted(line)?;
    let is_mark = kind == b"mark".as_slice();
    if is_mark || kind == b"event".as_slice() {
        return read_row(alloc, chart, rest, is_mark);
    }
    let is_copy = kind == b"copy".as_slice();
    if is_copy || kind == b"sent".as_slice() {
        return read_arrow(alloc, chart, rest, is_copy);
    }
    bail!("a line is of nothing that a chart has")
}

fn read_row(alloc: Global, chart: &mut Chart, text: &[u8], is_mark: bool) -> Result<()> {
    let (tick, rest) = numbered(text)?;
    let (lane, label) = numbered(rest)?;
    let row = ChartRow {
        tick,
        lane: lane as usize,
        label: ByteList::from_slice(alloc, label)?,
        is_mark,
    };
    add_row(chart, row)
}

fn add_row(chart: &mut Chart, row: ChartRow) -> Result<()> {
    if row.lane >= chart.lanes().len() {
        bail!("a row is in no lane");
    }
    chart.add_row(row)?;
    Ok(())
}

/// How an arrow ends.
fn read_end(word: &[u8]) -> Result<Arrival> {
    if word == b"lost".as_slice() {
        return Ok(Arrival::Lost);
    }
    if word == b"never".as_slice() {
        return Ok(Arrival::Never);
    }
    Ok(Arrival::Row(decimal(word)? as usize))
}

fn read_arrow(alloc: Global, chart: &mut Chart, text: &[u8], is_copy: bool) -> Result<()> {
    let (sender, rest) = numbered(text)?;
    let (to, rest) = numbered(rest)?;
    let (end, label) = parted(rest)?;
    let mut title = ByteList::from_slice(alloc, label)?;
    title.extend(b", in full")?;
    let arrow = Arrow {
        sender: sender as usize,
        to: to as usize,
        end: read_end(end)?,
        is_copy,
        label: ByteList::from_slice(alloc, label)?,
        title,
    };
    add_arrow(chart, arrow)
}

/// Whether one of these rows takes an arrow, if one does.
fn ends_among(end: Arrival, rows: &[ChartRow]) -> bool
    ensures { IsTrue result → EndsAmong rows.now end }
{
    match end {
        Arrival::Row(row) => row < rows.len(),
        Arrival::Lost | Arrival::Never => true,
    }
}

fn add_arrow(chart: &mut Chart, arrow: Arrow) -> Result<()> {
    let rows = chart.rows();
    if arrow.sender >= rows.len() || arrow.to >= chart.lanes().len() {
        bail!("an arrow is between no rows and lanes");
    }
    if !ends_among(arrow.end, rows) {
        bail!("no row takes an arrow");
    }
    chart.add_arrow(arrow)?;
    Ok(())
}
