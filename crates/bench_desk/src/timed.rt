//! What was measured.

use std::time::Duration;

/// How many moments a book has after what was measured, and how long that took.
#[derive(Clone, Copy, Debug)]
pub(crate) struct Timed {
    pub(crate) moments: u64,
    pub(crate) took: Duration,
}

impl Timed {
    /// The nanoseconds for each of so many calls or frames.
    pub(crate) fn each(&self, count: u64) -> u64 {
        u64::try_from(self.took.as_nanos()).unwrap_or(u64::MAX) / count.max(1)
    }
}
