//! The verifier: which programs are run, and the first fault of every other.
//!
//! [`verify`] takes instructions to a [`Verified`] program, of which every path is safe: it has no
//! loop, jumps to instructions alone, ends with EXIT, reads no register that was not written, and
//! calls and names what exists. A [`Program`] is one of these with its id.
#![tactic(auto)]

mod code;
mod fault;
mod flow;
mod helper;
mod lookup;
mod maps;
mod pass;
mod program;
mod registers;
mod row;
mod rules;
mod slot;
mod verified;

pub use code::Code;
pub use fault::VerifyFault;
pub use helper::Helper;
pub use maps::MapList;
pub use program::Program;
pub use row::Row;
pub use slot::Slot;
pub use verified::{Verified, verify};
