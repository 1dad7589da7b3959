//! A host run: a script, and then frames that two workers serve on the host that the script made.
//!
//! [`run_host`] runs a script on a book and writes its transcript, shares the book at a desk, has two workers serve the frames
//! on two threads, and writes how each frame ended and how many moments the book then has. [`run_new_host`] does so on a host
//! in which nothing was done, with this project's kinds of maps. [`frames_of`] and [`serve_frames`] are its two halves around the
//! script, for a caller that runs the script itself.
#![tactic(auto)]

mod fault;
mod frames;
mod host_run;
mod no_frames;
mod refused;
mod serve;
mod text;

pub use fault::RunHostFault;
pub use frames::{frames_in, frames_of};
pub use host_run::{run_host, run_new_host, serve_frames};
pub use no_frames::{NoFrames, why_none};
pub use refused::refused_in;
