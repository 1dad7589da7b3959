//! The frames of a host run as a file has them, one a line: `DEVICE hex:DIGITS`.
#![tactic(auto)]

mod fault;
mod lines;

pub use fault::LinesFault;
pub use lines::frames_in;
