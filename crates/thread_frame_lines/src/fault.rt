//! Why a text is no list of frames.

use std::alloc::AllocError;

/// Why a text has no frames.
#[derive(Clone, Copy, PartialEq, Eq, Debug)]
pub enum LinesFault {
    /// A line spells no frame, or there are more than 65,536 lines.
    BadLine,
    /// An allocation failed.
    NoMemory,
}

impl From<AllocError> for LinesFault {
    ghost use Rattle.std.specs.Prelude.{◌≡◌};
    ghost use Rattle.thread_frame_lines.specs.declared.fault.LinesFault.TheVariants.{NoMemory};

    ghost from_gives = { λ _ made. made ≡ NoMemory };

    fn from(_error: AllocError) -> LinesFault {
        LinesFault::NoMemory
    }
}
