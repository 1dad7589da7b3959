//! The text of each answer, written without memory.
//!
//! [`put_answer`] writes what `specs/Text` says, and [`put_short_answer`] the same of a change or a frame; `specs/Written` is
//! what a write of it does to the writer. Other texts of the same make are written by [`put_pieces`], [`put_fault`],
//! [`put_made`], [`put_aborted`] and [`put_end`]. All are written to an [`Output`], and fail only if it took no byte.
#![tactic(auto)]

mod fault_text;
mod frame_text;
mod gathered;
mod journal_text;
mod listed;
mod net_text;
mod output;
mod piece;
mod prog_text;
mod text;

pub use fault_text::put_fault;
pub use frame_text::{put_aborted, put_end};
pub use journal_text::put_made;
pub use output::{Output, WriteFault};
pub use piece::{Piece, put, put_pieces};
pub use text::{put_answer, put_short_answer};
