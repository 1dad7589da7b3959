//! What the console of a live host keeps from line to line.

ghost use Rattle.std.specs.Prelude.{◌≡◌};

use console_script::Summary;
use std::time::{Clock, Duration};
use thread_at_desk::Session;

/// When the workers were looked at, and how many frames had ended.
#[derive(Clone, Copy, Debug)]
pub(crate) struct Glance {
    pub(crate) at: Duration,
    pub(crate) frames: u64,
}

/// What the console of a live host keeps from line to line: its open runs and where its boxes come from, how many lines were
/// accepted and refused, how many moments the journal keeps at most, for how many seconds the last line tries a change if that
/// may be undone before, and when it last looked at its workers.
#[derive(Drop)]
pub struct Operator<S> {
    pub session: Session<S>,
    pub summary: Summary,
    pub most_moments: u64,
    pub crowded: Option<u32>,
    pub(crate) last: Option<Glance>,
}

impl<S> Operator<S> {
    /// Before the first line, and before the workers' first frame.
    pub fn new<R: Clock>(
        rt: &R,
        session: Session<S>,
        summary: Summary,
        most_moments: u64,
    ) -> Operator<S>
        ensures session { result.session ≡ session }
        ensures summary { result.summary ≡ summary }
        ensures most { result.most_moments ≡ most_moments }
    {
        let last = match rt.monotonic() {
            Ok(at) => Some(Glance { at, frames: 0 }),
            Err(_) => None,
        };
        Operator {
            session,
            summary,
            most_moments,
            crowded: None,
            last,
        }
    }
}
