//! Why a host run did not come to its end.

ghost use Rattle.std.specs.Prelude.{◌≡◌};
ghost use Rattle.thread_host_run.specs.Faults.{fault_of_lines, fault_of_capture, fault_of_frames, fault_of_book, fault_of_run};

use bt_workers::{FramesFault, RunFault};
use journal_model::BookFault;
use thread_capture::CaptureFault;
use thread_frame_lines::LinesFault;

/// What keeps a host run from its end.
#[derive(Clone, Copy, PartialEq, Eq, Debug)]
pub enum RunHostFault {
    /// There are not 1 to 16 devices of good and distinct names. Nothing was run.
    BadDevices,
    /// A journal of no moment, or of more than 1,000,000. Nothing was run.
    BadLimits,
    /// The file of the frames has a line that spells none, or too many lines; or it is a capture of another link type than
    /// Ethernet, or with a packet that is cut off, or with too many packets or too long a one. Nothing was run.
    BadFrames,
    /// An allocation failed outside the script's lines and the frames' accesses. The script was run to its end or not at all,
    /// and nothing is written of any frame.
    NoMemory,
    /// No second thread could be started. The script was run to its end, and no frame was served.
    NoThread,
    /// A write failed or took no byte. Of the whole text a front was written.
    Write,
}

impl From<LinesFault> for RunHostFault {
    ghost from_gives = { λ fault made. made ≡ fault_of_lines fault };

    fn from(fault: LinesFault) -> RunHostFault {
        match fault {
            LinesFault::BadLine => RunHostFault::BadFrames,
            LinesFault::NoMemory => RunHostFault::NoMemory,
        }
    }
}

impl From<CaptureFault> for RunHostFault {
    ghost from_gives = { λ fault made. made ≡ fault_of_capture fault };

    fn from(fault: CaptureFault) -> RunHostFault {
        match fault {
            CaptureFault::NotACapture => RunHostFault::BadFrames,
            CaptureFault::NoMemory => RunHostFault::NoMemory,
        }
    }
}

impl From<FramesFault> for RunHostFault {
    ghost from_gives = { λ fault made. made ≡ fault_of_frames fault };

    fn from(fault: FramesFault) -> RunHostFault {
        match fault {
            FramesFault::TooMany | FramesFault::FrameTooLong(_) => RunHostFault::BadFrames,
            FramesFault::NoMemory => RunHostFault::NoMemory,
        }
    }
}

impl From<BookFault> for RunHostFault {
    ghost from_gives = { λ fault made. made ≡ fault_of_book fault };

    fn from(fault: BookFault) -> RunHostFault {
        match fault {
            BookFault::BadDevices => RunHostFault::BadDevices,
            BookFault::BadLimits => RunHostFault::BadLimits,
            BookFault::NoMemory => RunHostFault::NoMemory,
        }
    }
}

impl From<RunFault> for RunHostFault {
    ghost from_gives = { λ fault made. made ≡ fault_of_run fault };

    fn from(fault: RunFault) -> RunHostFault {
        match fault {
            RunFault::NoMemory => RunHostFault::NoMemory,
            RunFault::NoThread => RunHostFault::NoThread,
        }
    }
}
