//! Why a call on a book is refused. `NoMemory` is told only if an allocation failed.

/// Why a book is not made.
#[derive(Clone, Copy, PartialEq, Eq, Debug)]
pub enum BookFault {
    /// Not 1 to 16 devices of good names, no two of them equal.
    BadDevices,
    /// A journal of no moment, or of more than 1,000,000.
    BadLimits,
    NoMemory,
}

/// Why a mark is not made.
#[derive(Clone, Copy, PartialEq, Eq, Debug)]
pub enum MarkFault {
    /// Not 1 to 15 of `A-Z a-z 0-9 _ . -`.
    BadName,
    /// A mark of this name stands.
    MarkTaken,
    NoMemory,
}

/// Why there is no undo to a mark.
#[derive(Clone, Copy, PartialEq, Eq, Debug)]
pub enum UndoFault {
    /// No mark of this name stands.
    NoMark,
    /// The mark of this name was forgotten: the moment after it has joined the base, as newer ones came.
    MarkForgotten,
}

/// No moment is in force.
#[derive(Clone, Copy, PartialEq, Eq, Debug)]
pub struct NothingToUndo;

/// Why no program is started on a frame.
#[derive(Clone, Copy, PartialEq, Eq, Debug)]
pub enum StartFault {
    /// There is no such device.
    NoDevice,
    NoMemory,
}

/// Why no moment comes back.
#[derive(Clone, Copy, PartialEq, Eq, Debug)]
pub enum RedoFault {
    /// No moment is undone.
    NothingToRedo,
    /// The moments that were undone last were given up by the change of this serial.
    RedoLost(u64),
}

/// Why a change is not taken out.
#[derive(Clone, Copy, PartialEq, Eq, Debug)]
pub enum WithoutFault {
    /// No change in force has this serial: none was recorded under it, or it is undone, was taken out, or lies before the
    /// base. A taking out is no change in force.
    NotInForce,
    /// The last serial that may be given has been given.
    SerialsSpent,
    /// As many moments are in force as may be, and the oldest cannot join the base: its change is the one to
    /// take out, or a moment in force took it out.
    JournalFull,
    /// The change of this serial would answer otherwise without it: the first of those that would.
    DependsOn(u64),
    NoMemory,
}

/// Why the past before a mark is not given up.
#[derive(Clone, Copy, PartialEq, Eq, Debug)]
pub enum ForgetFault {
    /// No mark of this name stands.
    NoMark,
    /// The mark of this name was forgotten: the moment after it has joined the base, as newer ones came.
    MarkForgotten,
    /// The taking out of this serial, later than the mark and in force or undone, took out a change from before the mark:
    /// the first of those that did.
    StillTakenOut(u64),
}
