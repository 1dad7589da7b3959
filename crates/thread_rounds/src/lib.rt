//! The workers of a live host: each serves its share of the frames, pass after pass, while a console answers lines at the same
//! desk.
//!
//! [`serve_rounds`] is what a worker's thread does. All workers share the [`Orders`], by which the console has them rest, go on
//! and stop, the [`Pace`], by which they serve so many frames a second at most, and the [`Counts`] of how their frames ended.
#![tactic(auto)]

mod counts;
mod orders;
mod pace;
mod place;
mod rounds;
mod share;
mod tally;

pub use bt_workers::FrameEnd;
pub use counts::Counts;
pub use orders::{Order, Orders, Standing};
pub use pace::Pace;
pub use place::Place;
pub use rounds::serve_rounds;
pub use share::Share;
pub use tally::Tally;
pub use thread_frames::FrameIn;
