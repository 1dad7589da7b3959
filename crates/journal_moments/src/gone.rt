//! How many records were given up.

ghost use Rattle.std.specs.Prelude.{◌≡◌, ℕ, ◌+◌, ◌<◌, ◌^◌, if◌then◌else◌};

use std::marker::Model;

/// How many records were given up, fewer than 2^63. The positions of moments count them, so that none changes when more go.
#[derive(Drop)]
pub struct Gone {
    count: usize,
}

impl Model for Gone {
    ghost Value = { ℕ };

    ghost view = { λ g. g.count };

    ghost invariant = { λ g. g.count < 2 ^ 63 };
}

impl Gone {
    /// None was given up yet.
    pub fn none() -> Gone
        ensures { result ≡ 0 }
    {
        Gone { count: 0 }
    }

    /// Their number.
    pub fn count(&self) -> usize
        ensures { result ≡ self.now }
    {
        self.count
    }

    /// The position after so many records in place.
    pub fn behind(&self, in_place: usize) -> usize
        requires { in_place < 2 ^ 63 }
        ensures { result ≡ self.now + in_place }
    {
        self.count + in_place
    }

    /// Counts so many more, if all of them are fewer than 2^63.
    pub(crate) fn add(&mut self, more: usize) -> bool
        requires { more < 2 ^ 63 }
        ensures { self.new ≡ (if result then self.old + more else self.old) }
    {
        let sum = self.count + more;
        if sum < 1 << 63 {
            self.count = sum;
            return true;
        }
        false
    }

    /// Counts these alone.
    pub(crate) fn restart(&mut self, count: usize)
        requires { count < 2 ^ 63 }
        ensures { self.new ≡ count }
    {
        self.count = count;
    }
}
