//! A book kept in a database: it is opened by doing its events again from what it began with, and it is kept by adding what was
//! noted of it.
//!
//! [`open_book`] makes the book that a database keeps, and [`new_book`] one that begins with some terms. [`noted`] gives the changes
//! that a book recorded since a serial. [`keep_first`] makes the tables with the first events, and [`keep`] adds events that led on:
//! once one of these two returns Ok, each crash leaves the events that lead to the book as it is; before that it leaves the ones
//! before or these.
#![tactic(auto)]

mod fault;
mod keeping;
pub mod laws;
mod opening;

pub use fault::{KeepFault, OpenFault};
pub use keeping::{keep, keep_first, noted};
pub use kept_book::{KeptEvent, MakeBox};
pub use kept_ledger::{ReadFault, Terms};
pub use opening::{new_book, open_book};
