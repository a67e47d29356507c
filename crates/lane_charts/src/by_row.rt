//! The arrows of a chart by their rows.
ghost use Rattle.std.specs.Prelude.{◌≡◌, length, IfOk};
ghost use Rattle.lane_charts.specs.ArrowKeys.{failing_of, key_as, taker_of};
ghost use Rattle.lane_charts.specs.ByRow.{AreOfRows};
ghost use Rattle.lane_charts.specs.Places.{AreKeyed};

use crate::chart::{Arrival, Arrow, Chart};
use crate::places::KeyedPlaces;
use std::alloc::Global;
use uid_names::NoMemory;

/// The row that takes an arrow with this end.
fn taker(end: Arrival) -> Option<usize>
    ensures { result ≡ taker_of end }
{
    match end {
        Arrival::Row(at) => Some(at),
        Arrival::Lost | Arrival::Never => None,
    }
}

/// The row that sends an arrow with this end, where no row takes it.
fn failing(sender: usize, end: Arrival) -> Option<usize>
    ensures { result ≡ failing_of sender end }
{
    match end {
        Arrival::Row(_) => None,
        Arrival::Lost | Arrival::Never => Some(sender),
    }
}

/// As what an arrow stands at a row.
#[derive(Clone, Copy, Debug, PartialEq, Eq)]
pub(crate) enum Standing {
    /// The row takes it.
    Taken,
    /// The row sends it, and no row takes it.
    Failed,
    /// The row sends it.
    Sent,
}

/// The row at which an arrow stands as this.
fn row_of(standing: Standing, arrow: &Arrow) -> Option<usize>
    ensures { result ≡ key_as standing arrow.now }
{
    match standing {
        Standing::Taken => taker(arrow.end),
        Standing::Failed => failing(arrow.sender, arrow.end),
        Standing::Sent => Some(arrow.sender),
    }
}

/// The arrows by the rows at which they stand as this.
pub(crate) fn by_rows(
    alloc: Global,
    chart: &Chart,
    standing: Standing,
) -> Result<KeyedPlaces, NoMemory>
    ensures { IfOk result (λ places. AreKeyed (key_as standing) (length chart.now.rows) places chart.now.arrows) }
{
    let mut places = KeyedPlaces::new(alloc, chart.rows().len())?;
    for (place, arrow) in chart.arrows().iter().enumerate() {
        places.put(row_of(standing, arrow), place)?;
    }
    Ok(places)
}

/// The arrows of a chart by the rows at which a text has them.
#[derive(Drop, Debug)]
pub(crate) struct RowArrows {
    /// By the rows that take them.
    pub(crate) taken: KeyedPlaces,
    /// Those that no row takes, by the rows that send them.
    pub(crate) failed: KeyedPlaces,
}

impl RowArrows {
    pub(crate) fn of(alloc: Global, chart: &Chart) -> Result<RowArrows, NoMemory>
        ensures { IfOk result (AreOfRows chart.now) }
    {
        let taken = by_rows(alloc, chart, Standing::Taken)?;
        let failed = by_rows(alloc, chart, Standing::Failed)?;
        Ok(RowArrows { taken, failed })
    }
}
