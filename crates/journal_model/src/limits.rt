//! How far a book may go.

/// The limits of a book. `Book::new` of bt_journal takes a journal of 1 to 1,000,000 moments, and all values of the others. Who
/// makes the book chooses them: the program does in `console_script/src/host.rt`.
#[derive(Clone, Copy, PartialEq, Eq, Debug)]
pub struct Limits {
    /// How many moments may be in force: 1 to 1,000,000. The oldest joins the base if there would be more.
    pub journal: u64,
    /// How much the boxes of all its maps may charge together, in bytes.
    pub budget: u64,
    /// The last map id that may be given.
    pub last_id: u32,
    /// The last serial that may be given.
    pub last_serial: u64,
}
