//! How far a run is.

use program_access::Expected;
use program_machine::Reason;
use program_step::Action;

/// How far a run is.
#[derive(Clone, Copy, Debug, PartialEq, Eq)]
pub enum Phase {
    /// At an instruction that it can do.
    Running,
    /// At one that has asked something, and waits for what it expects.
    Asked(Expected),
    /// It ended with EXIT.
    Finished(Action),
    /// It was aborted.
    Aborted(Reason),
}
