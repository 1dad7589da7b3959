//! A counter, the least state to share.
use crate::sequential::Sequential;

/// A count, to which threads add.
#[derive(Debug, Drop)]
pub struct Counter {
    pub count: u64,
}

/// What is asked of a counter. The answer is the count after it.
#[derive(Clone, Copy, Debug)]
pub enum Ask {
    /// Adds so much. At 2^64 the count begins anew.
    Add(u64),
    /// Adds nothing.
    Read,
}

impl Sequential for Counter {
    type Event = Ask;

    type Answer = u64;

    ghost use Rattle.thread_lock.specs.Counter.{Counts};

    ghost steps = { Counts };
}

impl Counter {
    ghost use Rattle.thread_lock.specs.Counter.{Counts};

    /// Does what is asked, and answers the count after it.
    pub fn step(&mut self, event: Ask) -> u64
        ensures { Counts self.old event result self.new }
    {
        if let Ask::Add(more) = event {
            self.count = self.count.wrapping_add(more);
        }
        self.count
    }
}
