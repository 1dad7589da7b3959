//! Why lines on the host that a file keeps were not run to their end.

use crate::range::RangeFault;
use console_input::ReadFault;
use kept_file::OpenFault;
use kept_lines::{InFileFault, LinesFault};
use kept_log::LogFault;
use sqlite::Error;

/// Why the log of a file is not told.
#[derive(Clone, Copy, Debug, PartialEq, Eq)]
pub enum LogInFileFault {
    /// The file is not opened as a database. Nothing was written.
    Unopened(Error),
    /// The log is not read, or not written to its end.
    Log(LogFault),
}

/// Why a dialogue on the book of a file did not come to its end.
#[derive(Clone, Copy, Debug)]
pub enum TalkFault {
    /// As a script on it was not run to its end.
    InFile(InFileFault),
    /// A line was not read, or there is no memory for it or for a file that it names.
    Unread(ReadFault),
}

/// Why the lines of a dialogue on a kept book were not all answered.
#[derive(Clone, Copy, Debug)]
pub enum Broken {
    /// What a line did is not kept, or not answered to the last.
    Lines(LinesFault),
    /// The book was ahead of its database after a range that was refused, and was not opened again.
    Open(OpenFault),
    /// A line was not read, or there is no memory for it or for a file that it names.
    Unread(ReadFault),
}

impl Broken {
    ghost use Rattle.std.specs.Prelude.{◌≡◌};
    ghost use Rattle.kept_host.specs.Talks.{of_range};

    /// Why a range was not answered.
    pub(crate) fn of_range(fault: RangeFault) -> Broken
        ensures { result ≡ of_range fault }
    {
        match fault {
            RangeFault::Lines(fault) => Broken::Lines(fault),
            RangeFault::Open(fault) => Broken::Open(fault),
        }
    }
}
