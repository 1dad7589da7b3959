//! The log of a kept book: what was done to it, event by event, also what was undone, taken out and given up, each with its time.
//!
//! [`log_line`] reads the lines that ask for it: `journal log`, and `journal log N` for the last N events. [`tell_log`] reads them
//! from the table of events and writes them, one a line. It asks and changes nothing. In `specs/`, `LogGrammar` says which words
//! spell such a line, `Timed` how the table is asked for the last events, `Logged` what a log tells of an event, `LogText` how it
//! is written, and `Telling` what a call of it does.
#![tactic(auto)]

mod event;
mod line;
mod rows;
mod telling;
mod text;
mod time;
mod timed;

pub use event::LogEvent;
pub use line::{LogLine, log_line};
pub use rows::{LogRow, read_log};
pub use telling::{LogFault, tell_log};
pub use text::put_log;
pub use time::LogTime;
