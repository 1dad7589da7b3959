//! A thread's part in the calls.
ghost use Rattle.std.specs.Prelude.{◌≡◌, ◌≤◌, []};
ghost use Rattle.thread_lock.specs.declared.turns.TheConstants.{MOST_CALLS};
ghost use Rattle.thread_lock.specs.declared.rule.Stage.TheVariants.{Idle};

use crate::rule::Place;
use crate::sequential::Sequential;
use std::error::Error;
use std::fmt;

/// A thread's part in the calls. It has a number of its own and some calls left, and knows in proofs a history that it has
/// seen.
///
/// Dropping a seat gives its calls up.
#[derive(Drop)]
pub struct Seat<S: Sequential> {
    pub(crate) place: Place<S, S::Event, S::Answer>,
    pub(crate) left: u64,
    /// The ticket after the last one of this seat.
    pub(crate) next: u64,
    ghost counted: { place.me.0.left ≡ left },
    ghost few: { left ≤ MOST_CALLS },
    ghost idle: { place.me.0.stage ≡ Idle },
    ghost empty: { place.me.1 ≡ [] },
}

impl<S: Sequential> Seat<S> {
    ghost use Rattle.thread_lock.specs.Seats.{place_of};

    /// The position of its own last call in the history of all calls, from 1; 0 if it has made none since it was split off.
    /// A seat that another is joined into keeps its own.
    pub fn place(&self) -> u64
        ensures { result ≡ place_of self.now }
    {
        self.next
    }
}

/// The seat has no calls left.
#[derive(Clone, Copy, Debug, PartialEq, Eq)]
pub struct SeatSpent;

impl fmt::Display for SeatSpent {
    fn fmt<W: fmt::Write>(&self, f: &mut fmt::Formatter<W>) -> fmt::Result {
        write!(f, "the seat has no calls left")
    }
}

impl Error for SeatSpent {}
