//! A frame, and its number.

ghost use Rattle.std.specs.Prelude.{◌≤◌, length};
ghost use Rattle.thread_frames.specs.declared.frame.TheConstants.{MOST_BYTES};

use host_words::Word;

/// The most frames of a host run.
pub const MOST_FRAMES: usize = 65_536;

/// The most bytes of a frame.
pub const MOST_BYTES: usize = 4_096;

/// A frame that came in on a device.
#[derive(Debug, Drop)]
pub struct FrameIn {
    /// The name of the device, which need not exist.
    pub device: Word,
    pub bytes: Vec<u8>,
}

/// A frame with its number, from 1 in the order in which the frames were handed in. It has at most 4,096 bytes.
#[derive(Debug, Drop)]
pub struct Numbered {
    pub number: u64,
    pub frame: FrameIn,
    pub ghost short: { length frame.bytes.items ≤ MOST_BYTES },
}
