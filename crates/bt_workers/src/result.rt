//! How frames end.

use bt_interp::End;
use journal_model::StartFault;

/// How a frame ended.
#[derive(Clone, Copy, Debug, PartialEq, Eq)]
pub enum FrameEnd {
    /// Its program came to its end, or none is attached to its device.
    Ended(End),
    /// Its program could not be started: there is no such device, or no memory.
    NotStarted(StartFault),
    /// The worker's seat had no calls left for the next one that the frame makes. The calls before it stand.
    SeatSpent,
}

/// The end of a frame, by the frame's number.
#[derive(Clone, Copy, Debug, PartialEq, Eq)]
pub struct FrameResult {
    pub number: u64,
    pub end: FrameEnd,
}
