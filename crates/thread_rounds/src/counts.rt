//! The tally that workers keep together.

use crate::tally::Tally;
use bt_workers::FrameEnd;
use std::sync::{Mutex, Wait};

/// A tally that threads share by reference.
#[derive(Drop)]
pub struct Counts {
    tally: Mutex<Tally>,
}

impl Counts {
    /// No frame has ended yet.
    pub fn new() -> Counts {
        Counts {
            tally: Mutex::new(Tally::default()),
        }
    }

    /// Counts a frame that ended so.
    pub fn add<R: Wait>(&self, rt: &R, end: FrameEnd) {
        self.tally.lock(rt).count(end);
    }

    /// How many frames have ended so far.
    pub fn read<R: Wait>(&self, rt: &R) -> Tally {
        *self.tally.lock(rt)
    }
}
