//! The frames of a live host, and what its workers and its console share.

ghost use Rattle.std.specs.Prelude.{◌≡◌, ◌<◌, ◌≤◌, None, All};
ghost use Rattle.thread_frames.specs.Faults.{IsShort, frames_fault};

use thread_rounds::{Counts, FrameIn, Order, Orders, Pace};
use thread_trial::Trials;

/// The frames that the workers of a live host serve, pass after pass, and what the threads of the host share: the signal to
/// the workers, their pace, how their frames ended, and the change that the console tries, if it does.
#[derive(Drop)]
pub struct Traffic {
    pub(crate) frames: Vec<FrameIn>,
    pub(crate) workers: u64,
    pub(crate) passes: Option<u64>,
    pub(crate) rate: u64,
    pub(crate) pace: Pace,
    pub(crate) orders: Orders,
    pub(crate) counts: Counts,
    pub(crate) trials: Trials,
    ghost short: { All IsShort frames.items },
    ghost manned: { (0 < workers) × (workers ≤ 64) },
}

impl Traffic {
    /// For so many workers, 1 to 64, which serve at most `rate` frames a second together, with 0 as fast as they can, and so many
    /// passes over the frames, or for ever. The workers go as soon as they have come. The journal of their host keeps so many
    /// moments at most.
    pub fn new(
        frames: Vec<FrameIn>,
        workers: u64,
        rate: u64,
        passes: Option<u64>,
        most_moments: u64,
    ) -> Traffic
        requires good { frames_fault frames.items ≡ None }
        requires manned { (0 < workers) × (workers ≤ 64) }
        ensures frames { result.frames ≡ frames }
        ensures workers { result.workers ≡ workers }
        ensures passes { result.passes ≡ passes }
        ensures rate { result.rate ≡ rate }
        ensures moments { result.trials.most_moments ≡ most_moments }
    {
        Traffic {
            frames,
            workers,
            passes,
            rate,
            pace: Pace::new(rate),
            orders: Orders::new(Order::Go, workers),
            counts: Counts::new(),
            trials: Trials::new(most_moments),
        }
    }

    /// Whether a try of so many seconds may be undone before its time: whether half of the journal may fill within them, with a
    /// moment a frame.
    pub(crate) fn crowds(&self, seconds: u32) -> bool {
        let frames = u64::from(seconds).saturating_mul(self.rate);
        self.rate == 0 || frames > self.trials.room()
    }
}
