//! What a kept book remembers: each accepted change, and each move of the journal.

use host_state::Change;
use host_words::Word;

/// One event that changed a book. Questions, refusals and frames are none: what a frame's program changed is a change like
/// any other, with the program as its origin.
#[derive(Debug, Drop)]
pub enum KeptEvent {
    /// A change was recorded under this serial.
    Changed { serial: u64, change: Change },
    /// A mark was made (`journal mark NAME`).
    Marked(Word),
    /// The moments after a mark were undone (`journal undo NAME`).
    UndoneTo(Word),
    /// The last moment was undone (`journal undo`).
    UndoneLast,
    /// The moment that was undone last was done again (`journal redo`).
    Redone,
    /// The change of `serial` was taken out alone (`journal without SERIAL`); `own` is the serial of the taking out.
    TakenOut { serial: u64, own: u64 },
    /// What lies before a mark was given up (`journal forget NAME`).
    Forgot(Word),
}
