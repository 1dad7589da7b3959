//! Why a range was not answered, and why the change of one serial stays.

use console_answer::Fault;
use kept_file::OpenFault;
use kept_lines::LinesFault;

/// Why a range was not answered.
#[derive(Clone, Copy, PartialEq, Eq, Debug)]
pub enum RangeFault {
    /// All are taken out, and that is not kept; or the answer was not written to its end. In the first case the book is ahead
    /// of its database, and of no use any more.
    Lines(LinesFault),
    /// One is refused, and the book was not opened again: it is ahead of its database, and of no use any more. Nothing was
    /// written.
    Open(OpenFault),
}

/// Why the change of one serial is not taken out, and whether the book is ahead of its database nevertheless.
#[derive(Clone, Copy)]
pub(crate) struct Refusal {
    pub(crate) fault: Fault,
    pub(crate) changed: bool,
}
