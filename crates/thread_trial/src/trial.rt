//! One change that is tried.

ghost use Rattle.std.specs.Prelude.{◌≡◌};

use crate::ended::{Ended, TrialEnd};
use host_words::Word;
use std::time::{Clock, Duration};

/// A change that is tried.
#[derive(Drop)]
pub(crate) struct Trial {
    /// The name of its mark.
    pub(crate) name: Word,
    /// A copy of the name for the undo, which takes it along: there may be no memory for a copy then.
    pub(crate) spare: Word,
    /// When its time is up, by the clock.
    pub(crate) until: Duration,
    ghost same: { spare ≡ name },
}

// The longest time, in milliseconds, from one look of the keeper to the next.
const LOOK: u64 = 250;

impl Trial {
    /// Whether its time is up; if the clock cannot be read it is not.
    pub(crate) fn is_due<R: Clock>(&self, rt: &R) -> bool {
        match rt.monotonic() {
            Ok(now) => self.until <= now,
            Err(_) => false,
        }
    }

    /// How long the keeper may sleep before it looks at it.
    pub(crate) fn sleep<R: Clock>(&self, rt: &R) -> Duration {
        let most = Duration::from_millis(LOOK);
        match rt.monotonic() {
            Ok(now) if self.until.saturating_sub(now) < most => self.until.saturating_sub(now),
            _ => most,
        }
    }

    /// What is told of it if it ended so.
    pub(crate) fn ended(self, end: TrialEnd) -> Ended
        ensures { result ≡ record { name = self.name; end = end } }
    {
        let Trial {
            name,
            spare: _,
            until: _,
        } = self;
        Ended { name, end }
    }
}
