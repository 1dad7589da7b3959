//! Why a run ends before EXIT.

/// Why a run was aborted.
#[derive(Clone, Copy, Debug, PartialEq, Eq)]
pub enum Reason {
    /// A map, or the key of a value, is no longer there.
    Gone,
    /// What is read or written does not lie within its region.
    OutOfRange,
    /// A value of the wrong kind: a pointer where a number is wanted, or another map, or the like.
    WrongKind,
    /// An access was refused, and the instruction has no way to tell.
    Refused,
    /// A reply does not fit the access.
    WrongReply,
}
