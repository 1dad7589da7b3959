//! The console at a desk: commands on a book that running programs write meanwhile.
//!
//! [`command_at`] does a command. All but a frame is done in one call of the desk: nothing comes between the look-up of a name
//! and the change that it is for, and all other threads find the book as it was before the command or after it. A frame has a
//! call for its start and one for each access of its program, so that others work between its accesses. [`line_at`] reads a
//! line before its call, and writes its answer after it.
#![tactic(auto)]

mod command;
mod frame;
mod line;
mod look;
mod run;
mod session;

pub use command::command_at;
pub use frame::frame_at;
pub use line::line_at;
pub use look::moments_at;
pub use run::run_at;
pub use session::Session;
