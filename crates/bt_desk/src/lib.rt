//! The desk: one history of the book for many threads.
//!
//! Threads share a book by a [`Desk`]. Each calls it through a seat of its own, one event at a time. All calls
//! stand in one history, which the plain book does too: what is promised of a book that one thread runs holds of the book
//! that threads leave.
#![tactic(auto)]

mod desk;
pub mod laws;
mod lent;
mod shared;

pub use bt_without::{Answer, Event, step};
pub use desk::{Desk, Seat};
pub use lent::Picked;
pub use shared::Shared;
pub use thread_lock::{MOST_CALLS, SeatSpent};
