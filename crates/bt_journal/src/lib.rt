//! The journal of a host: its moments in order, and how they are undone and done again.
#![tactic(auto)]

pub mod book;
mod forgetting;
mod listed;
mod questions;
mod recording;
mod refusing;
mod serials;
mod serve;
pub mod taking;
mod undoing;

pub use book::Book;
pub use journal_keeping::{AgainFault, OfName};
pub use journal_model::{
    BookFault, ChangeRow, Deed, ForgetFault, JournalList, Limits, MarkFault, MarkRow,
    NothingToUndo, RedoFault, StartFault, UndoFault, WithoutFault,
};
pub use taking::{Stage, TakenOut};
