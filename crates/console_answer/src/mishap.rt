//! What went wrong in a line.

use crate::fault::Fault;
use bt_interp::Abort;

/// What went wrong in a line.
#[derive(Clone, Copy, PartialEq, Eq, Debug)]
pub enum Mishap {
    /// It was refused.
    Refused(Fault),
    /// Its program was aborted.
    Aborted(Abort),
    /// Its program ended with EXIT and returned 0, or a number that is no action.
    NoAction,
}
