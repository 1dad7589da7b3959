//! Why a script, and frames after it, on a kept book did not come to their end.

use crate::fault::ServeFault;
use kept_lines::KeptFault;
use sqlite::Error;

/// Why a script, and frames after it, on a kept book did not come to their end.
#[derive(Clone, Copy, PartialEq, Eq, Debug)]
pub enum HostRunFault {
    /// The book was not begun, or the script was not run to its end. No frame was served.
    Script(KeptFault),
    /// The script was run to its end, and is kept and answered. Its frames were not served, or not kept, or not told to the last.
    Frames(ServeFault),
}

/// Why a script, and frames after it, on the book of a file did not come to their end.
#[derive(Clone, Copy, PartialEq, Eq, Debug)]
pub enum HostInFileFault {
    /// The bytes are no frames. The file was not opened, and no line was run.
    BadFrames,
    /// There is no memory for the frames. The file was not opened, and no line was run.
    NoMemory,
    /// The file is not opened as a database. No line was run.
    Unopened(Error),
    /// Script and frames did not come to their end on its book.
    Kept(HostRunFault),
}
