//! The commands on maps, as bpftool-map(8) has them, read a word at a time after the word `map`.
//!
//! `MapGrammar` in `specs/` says which words spell which command, and `MapSteps` how they are read.
#![tactic(auto)]

mod command;
mod create;
mod key;
mod push;
mod state;
mod update;
mod whole;

pub use command::{MapCommand, UpdateFlag};
pub use create::CreateState;
pub use state::MapState;
pub use std::alloc::AllocError as NoMemory;
