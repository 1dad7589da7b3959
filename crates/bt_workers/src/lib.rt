//! The workers: threads that serve frames at a desk.
//!
//! A [`worker`] takes frames until none is left. It starts the program of each frame's device and takes it to its end; each
//! access of the program is a call of its own at the desk, so that other threads work between them. [`run_two`] has two workers
//! serve the same frames on two threads.
#![tactic(auto)]

mod gate;
pub mod laws;
mod result;
pub mod serve;
mod two;
mod workers;

pub use gate::{Gate, OpenGate};
pub use result::{FrameEnd, FrameResult};
pub use thread_frames::{FrameIn, Frames, FramesFault, MOST_BYTES, MOST_FRAMES, Numbered, Take};
pub use two::{RunFault, run_two};
pub use workers::worker;
