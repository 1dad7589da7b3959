//! The lines that only a live host has, each read into a [`LiveCommand`]: `workers show|stop|go|wait`, `journal try NAME
//! SECONDS`, `journal confirm NAME`.
//!
//! They are looked for before a line is read as one of the console: [`parse_live_line`] gives `None` if a line is none
//! of them. In `specs/`, `LiveGrammar` says which words spell which command, and `LiveLines` what each line comes to.
#![tactic(auto)]

mod command;
mod parse;

pub use command::{LiveCommand, WorkersCommand};
pub use parse::parse_live_line;
