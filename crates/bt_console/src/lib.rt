//! The console: a command of a script done to a book, and what it answers.
//!
//! [`run_supplied`] does a command, a frame or a step of an open run among them, and [`change_map`] one that changes one map; a
//! [`Supply`] gives the boxes for the maps that commands make. What a command does stands in `specs/Commands` and
//! `specs/Frames`, what a line does in `specs/Lines`, and with what the supplier gives in `specs/Supply`; the text of an answer
//! stands in `specs/Text` of `console_text`. `console_script` reads a line and writes what it answered.
#![tactic(auto)]

mod command;
pub mod edit;
pub mod frame;
pub mod inquiry;
mod journal;
pub mod laws;
mod line;
mod net;
mod prog;
mod run_command;
mod runs;
pub mod supply;

pub use bt_without::Book;
pub use command::change_map;
pub use console_answer::{Answer, End, Fault};
pub use console_text::{WriteFault, put_answer};
pub use edit::Edit;
pub use line::{put_line, run_supplied};
pub use runs::Runs;
pub use supply::{NoBox, Supply};
