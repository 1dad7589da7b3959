//! Why a line was not answered to its end.

/// What ends a console of a live host.
#[derive(Clone, Copy, PartialEq, Eq, Debug)]
pub enum LineFault {
    /// A write failed or took no byte. The line was done, and a front of its text was written.
    Write,
    /// The console's seat has no calls left.
    SeatSpent,
}
