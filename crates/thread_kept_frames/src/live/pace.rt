//! When portions of frames are due.

ghost use Rattle.std.specs.Prelude.{◌<◌, ◌≤◌};
ghost use Rattle.thread_kept_frames.specs.declared.live.course.TheConstants.{MOST_PORTION};

use crate::live::course::MOST_PORTION;
use std::time::{Clock, Duration};

const NANOS_PER_SECOND: u64 = 1_000_000_000;

// A portion has the frames of such a part of a second.
const PORTIONS_PER_SECOND: u64 = 10;

// How many seconds a host waits at a time for a line while no frames are left to be served.
const REST: u64 = 60;

/// How many frames are served a second at most, 0 for no limit, and when the next ones are due, by the clock.
#[derive(Clone, Copy)]
pub(crate) struct Pace {
    rate: u64,
    due: Duration,
}

impl Pace {
    /// The first frames are due at once.
    pub(crate) fn new(rate: u64) -> Pace {
        Pace {
            rate,
            due: Duration::ZERO,
        }
    }

    /// How many frames a portion has at most.
    pub(crate) fn most(self) -> usize
        ensures some { 0 < result }
        ensures few { result ≤ MOST_PORTION }
    {
        if self.rate == 0 {
            return MOST_PORTION;
        }
        let frames = self.rate / PORTIONS_PER_SECOND;
        frames.clamp(1, MOST_PORTION as u64) as usize
    }

    /// How long the host waits for a line if the next portion has so many frames, or if there is none: until it is due. If the
    /// clock cannot be read, that is now.
    pub(crate) fn patience<R: Clock>(self, rt: &R, portion: Option<usize>) -> Duration {
        if portion.is_none() {
            return Duration::from_secs(REST);
        }
        match rt.monotonic() {
            Ok(now) => self.due.saturating_sub(now),
            Err(_) => Duration::ZERO,
        }
    }

    /// When a portion of so many frames begins: the next one is due when these have had their time. A time that passes otherwise
    /// is not made up for. Nothing changes if there is none, and if the clock cannot be read.
    pub(crate) fn after<R: Clock>(self, rt: &R, portion: Option<usize>) -> Pace {
        let nanos = NANOS_PER_SECOND.saturating_mul(portion.unwrap_or(0) as u64);
        let Some(nanos) = nanos.checked_div(self.rate) else {
            return self;
        };
        let Ok(now) = rt.monotonic() else {
            return self;
        };
        let begins = now.saturating_add(self.due.saturating_sub(now));
        Pace {
            rate: self.rate,
            due: begins.saturating_add(Duration::from_nanos(nanos)),
        }
    }
}
