//! Why a live host on a kept book did not come to its end.

use crate::fault::ServeFault;
use kept_host::Broken;
use kept_lines::KeptFault;
use sqlite::Error;

/// Why a live host on a kept book did not come to its end. What was answered before is on the disk, with the frames before it.
#[derive(Clone, Copy, Debug)]
pub enum LiveFault {
    /// A line was not read, not kept or not answered.
    Line(Broken),
    /// Frames were not served, or what they changed is not kept.
    Frames(ServeFault),
}

/// Why a live host on the book of a database did not come to its end.
#[derive(Clone, Copy, Debug)]
pub enum LiveHostFault {
    /// The book was not begun, or the setup was not run to its end. No line was read, and no frame was served.
    Script(KeptFault),
    /// The setup was run to its end, and is kept. What it answered has not left the output, or the lines and frames after it did not
    /// come to their end.
    Live(LiveFault),
}

/// Why a live host on the book of a file did not come to its end.
#[derive(Clone, Copy, Debug)]
pub enum LiveInFileFault {
    /// The file is not opened as a database. No line was run, and no frame was served.
    Unopened(Error),
    /// It did not come to its end on the book of the file.
    Kept(LiveHostFault),
}
