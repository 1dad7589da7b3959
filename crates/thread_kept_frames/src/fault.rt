//! Why frames were not served, or are not kept.

ghost use Rattle.std.specs.Prelude.{◌≡◌};
ghost use Rattle.thread_kept_frames.specs.Faults.{fault_of_frames, fault_of_run};

use bt_workers::FramesFault;
use kept_lines::LinesFault;
use thread_host_run::RunHostFault;

/// Why frames were not served, or are not kept.
#[derive(Clone, Copy, PartialEq, Eq, Debug)]
pub enum ServeFault {
    /// There are too many frames, or too long a one. No frame was served.
    BadFrames,
    /// An allocation failed outside the frames' accesses. Nothing is kept or written of any frame.
    NoMemory,
    /// No second thread could be started, and no frame was served.
    NoThread,
    /// All were served, and that is not kept, and nothing was written; or it is kept, and their ends were not written to the last.
    Lines(LinesFault),
}

impl From<FramesFault> for ServeFault {
    ghost from_gives = { λ fault made. made ≡ fault_of_frames fault };

    fn from(fault: FramesFault) -> ServeFault {
        match fault {
            FramesFault::TooMany | FramesFault::FrameTooLong(_) => ServeFault::BadFrames,
            FramesFault::NoMemory => ServeFault::NoMemory,
        }
    }
}

/// Why the workers did not serve the frames, or the text of their ends was not held back.
pub(crate) fn fault_of_run(fault: RunHostFault) -> ServeFault
    ensures { result ≡ fault_of_run fault }
{
    match fault {
        RunHostFault::NoThread => ServeFault::NoThread,
        RunHostFault::BadFrames
        | RunHostFault::BadDevices
        | RunHostFault::BadLimits
        | RunHostFault::NoMemory
        | RunHostFault::Write => ServeFault::NoMemory,
    }
}
