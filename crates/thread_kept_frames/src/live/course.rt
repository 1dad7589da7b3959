//! How far the frames of a live host have come.

use crate::live::counted::tallied;
use bt_workers::FrameResult;
use thread_rounds::Tally;

/// How many frames a portion has at most.
pub const MOST_PORTION: usize = 1_024;

/// How far the frames of a live host have come.
#[derive(Clone, Copy, Debug, PartialEq, Eq)]
pub struct Course {
    /// How many passes were made.
    pub pass: u64,
    /// How many frames of the next pass were served.
    pub next: usize,
    /// How all frames ended that were served.
    pub tally: Tally,
}

impl Course {
    ghost use Rattle.std.specs.Prelude.{◌≡◌, ◌+◌, ◌≤◌, ◌<◌, ◌^◌, IfSome};
    ghost use Rattle.thread_kept_frames.specs.Courses.{start, further, AreDue};

    /// Before the first frame.
    pub(crate) fn start() -> Course
        ensures { result ≡ start }
    {
        Course {
            pass: 0,
            next: 0,
            tally: Tally::default(),
        }
    }

    // How many of so many frames make the next portion, with at most so many. None if no pass is to be made any more, and if there
    // are no frames.
    pub(crate) fn due(self, all: usize, passes: Option<u64>, most: usize) -> Option<usize>
        requires few { most ≤ MOST_PORTION }
        ensures due { IfSome result (AreDue all passes self) }
        ensures bound { IfSome result (λ _. self.pass + 1 < 2 ^ 64) }
    {
        let count = all.saturating_sub(self.next).min(most);
        if count == 0 || self.pass >= passes.unwrap_or(u64::MAX) {
            return None;
        }
        Some(count)
    }

    // After a portion of so many of so many frames, which ended so.
    pub(crate) fn further(self, all: usize, count: usize, ends: &[FrameResult]) -> Course
        requires there { self.next + count ≤ all }
        requires bound { self.pass + 1 < 2 ^ 64 }
        ensures { result ≡ further all self count ends.now }
    {
        let tally = tallied(self.tally, ends);
        let next = self.next + count;
        if next < all {
            Course {
                pass: self.pass,
                next,
                tally,
            }
        } else {
            Course {
                pass: self.pass + 1,
                next: 0,
                tally,
            }
        }
    }
}
