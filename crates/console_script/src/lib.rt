//! A script: its lines run in order against a book, and the text of each answer written.
//!
//! [`tell_line`] does one line and writes its answer as soon as it is known; what is told of it stands in `specs/Telling`.
//! [`run_on_new_host`] makes a book in which nothing was done, and a box of this project's kinds ([`HostKind`]) for each map when
//! the script comes to it; [`run_on_new_book`] takes the boxes from a supplier of the caller's.
//!
//! [`run_script`] runs the lines of a script, and those of a batch in place of its line; a [`Dialogue`] runs each line when it
//! is given. What a line does and what is written stands in `specs/Transcript`, when a supplier of boxes is asked in
//! `specs/Supplied`, and lines one after the other in `specs/Running`.
#![tactic(auto)]

mod batch;
mod dialogue;
mod fault;
mod host;
mod kind;
pub mod kind_laws;
pub mod laws;
mod new_host;
mod script;
mod summary;
mod supply;
mod tally;
mod telling;

pub use bt_console::{Book, NoBox, Runs, Supply, frame, put_line, run_supplied};
pub use console_text::Output;
pub use dialogue::Dialogue;
pub use fault::HostFault;
pub use host::{MOMENTS, devices, limits, new_book};
pub use kind::HostKind;
pub use new_host::{run_on_new_book, run_on_new_host};
pub use script::{ScriptFault, run_script};
pub use summary::Summary;
pub use supply::HostSupply;
pub use tally::Tally;
pub use telling::{tell_answer, tell_line, tell_refused};
