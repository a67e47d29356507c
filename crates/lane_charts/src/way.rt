//! Which way an arrow goes.
ghost use Rattle.std.specs.Prelude.{◌≡◌};
ghost use Rattle.lane_charts.specs.Ways.{way_of};

/// Which way an arrow goes over the lanes.
#[derive(Clone, Copy, Debug, PartialEq, Eq)]
pub(crate) enum Way {
    Right,
    Left,
    /// To the lane that it comes from.
    Back,
}

/// Which way an arrow goes from a lane to a lane.
pub(crate) fn way_between(from: usize, to: usize) -> Way
    ensures { result ≡ way_of from to }
{
    if from < to {
        Way::Right
    } else if to < from {
        Way::Left
    } else {
        Way::Back
    }
}
