//! The frames of a host run, each of which is taken once.
//!
//! [`Frames`] is a queue of numbered frames that threads share. Each takes its frames with a [`Take`] of its own, which in proofs
//! knows all frames and the numbers that it took. The takes of all threads together take each frame once.
#![tactic(auto)]

mod deal;
mod fault;
mod frame;
mod frames;

pub use deal::MOST_PARTS;
pub use fault::FramesFault;
pub use frame::{FrameIn, MOST_BYTES, MOST_FRAMES, Numbered};
pub use frames::{Frames, Take};
