//! How many cases passed, and how many failed.

use std::fmt;

/// Two counts, of which each stays at the greatest number once it is there.
#[derive(Clone, Copy)]
pub struct Tally {
    passed: u64,
    failed: u64,
}

impl Tally {
    pub fn new() -> Tally {
        Tally {
            passed: 0,
            failed: 0,
        }
    }

    pub fn pass(&mut self) {
        self.passed = self.passed.saturating_add(1);
    }

    pub fn fail(&mut self) {
        self.failed = self.failed.saturating_add(1);
    }

    pub fn all_passed(&self) -> bool {
        self.failed == 0
    }
}

impl fmt::Display for Tally {
    fn fmt<W: fmt::Write>(&self, f: &mut fmt::Formatter<W>) -> fmt::Result {
        let passed = self.passed;
        let failed = self.failed;
        write!(f, "{passed} passed, {failed} failed")
    }
}
