//! A kept book in a database of SQLite: a table with one row for what it began with, and a table with a row for each event, under
//! the number of its place.
//!
//! [`create`] makes both tables with the first events, [`append_all`] adds events, each in one transaction; [`read_terms`] and
//! [`read`] give all of it again. A crash at any moment leaves the book as it was before a call, or with all that the call added.
//!
//! Who asks the table of events another question reads its rows by [`number_at`] and [`row_at`], and tells why it was not answered
//! by [`query_fault`].
#![tactic(auto)]

mod columns;
mod event_at;
mod fault;
mod group;
mod lent;
mod making;
mod table;
mod terms;
mod terms_at;
mod terms_row;

pub use columns::{number_at, row_at};
pub use fault::{ReadFault, query_fault};
pub use group::append_all;
pub use making::create;
pub use table::{read, read_terms};
pub use terms::Terms;
