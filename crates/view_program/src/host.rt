//! What the program knows of where it runs.

/// How wide lanes are drawn, in characters, where nothing says it.
const WIDTH: u64 = 120;

/// What is known of where the program runs. Nothing that is written depends on it but widths, and how far many numbers are.
#[derive(Clone, Copy, Debug, PartialEq, Eq)]
pub struct Host {
    /// How many processors there are for threads.
    pub processors: usize,
    /// Whether it is told how far many numbers are.
    pub tells: bool,
    /// How many characters stand side by side, if that is said.
    pub columns: Option<u64>,
}

impl Host {
    /// How many threads run numbers, of which so many are asked for.
    pub(crate) fn threads(self, asked: Option<u64>) -> usize {
        match asked {
            Some(threads) => usize::try_from(threads).unwrap_or(usize::MAX),
            None => self.processors,
        }
    }

    /// How wide lanes are drawn, in characters, of which so many are asked for.
    pub(crate) fn width(self, asked: Option<u64>) -> usize {
        let width = match (asked, self.columns) {
            (Some(width), _) => width,
            (None, None | Some(0)) => WIDTH,
            (None, Some(columns)) => columns,
        };
        usize::try_from(width).unwrap_or(usize::MAX)
    }
}
