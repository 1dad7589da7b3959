//! Why frames are refused.

use std::alloc::AllocError;

/// Why a list of frames is refused. Nothing was taken then, and the frames are dropped.
#[derive(Clone, Copy, PartialEq, Eq, Debug)]
pub enum FramesFault {
    /// There are more than 65,536.
    TooMany,
    /// The frame of this number, from 1, is the first that has more than 4,096 bytes.
    FrameTooLong(u64),
    /// An allocation failed.
    NoMemory,
}

impl From<AllocError> for FramesFault {
    ghost use Rattle.std.specs.Prelude.{◌≡◌};
    ghost use Rattle.thread_frames.specs.declared.fault.FramesFault.TheVariants.{NoMemory};

    ghost from_gives = { λ _ made. made ≡ NoMemory };

    fn from(_error: AllocError) -> FramesFault {
        FramesFault::NoMemory
    }
}
