//! Why a file has no frames.

use std::alloc::AllocError;

/// Why a file has no frames.
#[derive(Clone, Copy, PartialEq, Eq, Debug)]
pub enum CaptureFault {
    /// The file is no capture, or has a packet of more than 4,096 bytes, or more than 65,536 packets.
    NotACapture,
    /// An allocation failed.
    NoMemory,
}

impl From<AllocError> for CaptureFault {
    ghost use Rattle.std.specs.Prelude.{◌≡◌};
    ghost use Rattle.thread_capture.specs.declared.fault.CaptureFault.TheVariants.{NoMemory};

    ghost from_gives = { λ _ made. made ≡ NoMemory };

    fn from(_error: AllocError) -> CaptureFault {
        CaptureFault::NoMemory
    }
}
