//! Lines of the console on a book that is kept in a database: each line is done, what changed the book is noted, and its answer
//! is held back until that is on the disk.
//!
//! [`keep_lines`] runs a script so, a [`KeptDialogue`] each line when it is given, and [`HostBoxes`] makes the maps of a book that
//! is opened again. Who is told what goes wrong in a line is a trait's, [`Hints`], and what else is told beside
//! the answers another's, [`Asides`]. What is noted of a line stands in
//! `specs/Noting`, and what the reader has seen when a line is not kept in `specs/Kept`.
//!
//! [`range_of`] reads the line that asks for a range of changes to be taken out, `journal without FIRST LAST`, which no script has, and
//! [`chosen`] lists the changes that a range has; `specs/RangeGrammar` and `specs/Chosen` say which.
//!
//! [`begin`] opens the book of a database, or makes it in one that has no table; `specs/Begun` says which book that is. Where the
//! databases of files are opened is a trait's, [`Databases`], of which contracts say what may be found there; the runtime is one,
//! and waits for a file that is in use.
#![tactic(auto)]

mod asides;
mod asked;
mod batch;
mod begun;
mod boxes;
mod choice;
mod databases;
mod dialogue;
mod fault;
mod group;
mod hints;
pub mod laws;
mod line;
mod note;
mod range;
mod script;
mod words;

pub use asides::Asides;
pub use begun::{begin, is_blank};
pub use boxes::HostBoxes;
pub use choice::chosen;
pub use console_script::{Summary, Supply, Tally};
pub use console_text::Output;
pub use databases::{Database, Databases};
pub use dialogue::KeptDialogue;
pub use fault::{InFileFault, KeptFault, LinesFault};
pub use hints::{Hints, Wrong, wrong_in};
pub use kept_file::KeepFault;
pub use range::{SerialRange, range_of};
pub use script::{keep_events, keep_lines};
pub use words::{put_read, put_unkept, put_unread};
