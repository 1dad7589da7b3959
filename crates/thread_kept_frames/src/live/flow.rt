//! The frames of a live host, and how they are served.

use thread_frames::FrameIn;

/// The frames of a live host, and how they are served.
#[derive(Drop)]
pub struct Flow {
    /// The frames of one pass, each of at most 4,096 bytes.
    pub frames: Vec<FrameIn>,
    /// How many passes are made; `None` if they have no end.
    pub passes: Option<u64>,
    /// How many frames are served a second at most; 0 if there is no limit.
    pub rate: u64,
}
