//! A talk: lines of an input that are answered one by one, each when it is given.
//!
//! A [`Manner`] says how lines are asked for, which of them ask for help or for a look into the journal, and which end the talk;
//! [`read_line`] reads the next one. What a talk is, from its first line to its last, stands in `specs/Talk`.
#![tactic(auto)]

mod manner;
mod reading;

pub use console_input::{Cause, FileReader, MOST_SCRIPT, ReadFault, Terminal, read_named};
pub use manner::{Manner, is_alone};
pub use reading::read_line;
