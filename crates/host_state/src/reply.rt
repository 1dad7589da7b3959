//! What a change answers.

use crate::taken_item::TakenItem;
use bt_mapkind::Errno;

/// The reply of an accepted change.
#[derive(PartialEq, Eq, Debug, Drop)]
pub enum Reply {
    Done,
    /// The id of the map that was made.
    Id(u32),
    /// The id of the program that was loaded.
    Loaded(u32),
    /// The bytes of an item that was taken.
    Value(TakenItem),
    /// The number that stood where an atomic instruction wrote.
    Old(u64),
}

/// Why a change was refused. `NoMemory` is told only if an allocation failed.
#[derive(Clone, Copy, PartialEq, Eq, Debug)]
pub enum Refusal {
    /// An error of the bpf system call (bpf(2)).
    Errno(Errno),
    NoMemory,
    /// As many moments are in force as may be, and the oldest cannot join the base: a moment in force took its
    /// change out.
    JournalFull,
    /// The charges of the boxes would go past the host's budget.
    BudgetFull,
    /// The last serial was given.
    SerialsSpent,
    /// The last id was given.
    IdsSpent,
    /// A create has no box, or one that is not fresh or has other attributes.
    WrongBlank,
}
