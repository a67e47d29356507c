//! Where the names of the lanes stand once more.
ghost use Rattle.std.specs.Prelude.{◌≡◌};
ghost use Rattle.lane_charts.specs.Heads.{is_headed as is_headed_at};

/// Whether the names of the lanes stand once more above the row of this index.
pub(crate) fn is_headed(at: usize) -> bool
    ensures { result ≡ is_headed_at at }
{
    0 < at && at.is_multiple_of(50)
}
