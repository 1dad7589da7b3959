//! What a journal means: the plain book, which keeps every past state (`specs/Book.antt`, `specs/Run.antt`). What
//! runs here only names what a change did: a journal that keeps no past state promises the plain book's functions.
#![tactic(auto)]

pub mod faults;
pub mod limits;
pub mod listed;

pub use faults::{
    BookFault, ForgetFault, MarkFault, NothingToUndo, RedoFault, StartFault, UndoFault,
    WithoutFault,
};
pub use limits::Limits;
pub use listed::{ChangeRow, Deed, JournalList, MarkRow, origin_of};
