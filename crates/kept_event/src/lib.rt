//! What a kept book remembers, event by event, and the row of a table that each event is.
//!
//! [`row_of`] gives the row of an event, and [`event_in`] the event of a row; a row that is no event's has none.
#![tactic(auto)]

mod change_row;
mod code;
mod column;
mod event;
mod event_row;
mod kind;
pub mod laws;
mod maps;
mod op_row;
mod read;
mod read_change;
mod read_op;
mod row;
mod verb;

pub use event::KeptEvent;
pub use event_row::row_of;
pub use host_words::NoMemory;
pub use kind::{type_of, type_word};
pub use read::event_in;
pub use row::Row;
pub use verb::Verb;
