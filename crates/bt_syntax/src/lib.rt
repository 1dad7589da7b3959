//! One line of a console script read into a [`Command`], and the maps that a script makes.
//!
//! The commands are those of bpftool-map(8), bpftool-prog(8) and bpftool-net(8), and of pins, frames, runs and the
//! journal. [`first_line`] cuts a text into lines, [`parse_line`] reads one, and [`needs`] lists the attributes of the
//! maps that a script makes. The grammar stands in `specs/`, a module a family of commands: `ProgGrammar`, `NetGrammar`,
//! `FrameGrammar`, `RunGrammar`, `JournalGrammar`, and `Grammar` on top; that of maps in `console_map_syntax`.
#![tactic(auto)]

mod batch;
mod command;
mod device;
mod fault;
mod files;
mod frame;
mod journal;
pub mod laws;
mod net;
mod parse;
mod prog;
mod run;
mod script;
mod unpin;

pub use command::Command;
pub use console_map_syntax::{MapCommand, UpdateFlag};
pub use console_operand::{DataBytes, Object, Reference, Value, first_line};
pub use fault::SyntaxFault;
pub use files::{FileText, batch_path, file_at, files_in, opened};
pub use frame::{Frame, FrameBytes, frame_bytes};
pub use journal::JournalCommand;
pub use net::NetCommand;
pub use parse::{LINE_MAX, parse_line};
pub use prog::ProgCommand;
pub use run::RunCommand;
pub use script::{Script, need_of, needs};
pub use std::alloc::AllocError as NoMemory;
