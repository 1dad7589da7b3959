//! A lock with one history for all threads, over any state.
//!
//! A `Sequential` is a state that one thread changes by events, each of which gets an answer. `Turns` share it among threads by
//! a ticket lock: each call draws a ticket, waits until it is let in, does one event, and lets the next ticket in. A visit has
//! a function of the caller's do the event, which may ask the state before and after. A thread calls through a `Seat`, which in
//! proofs knows a beginning of the one history of all calls.
#![tactic(auto)]

mod bell;
mod calls;
mod counter;
mod entry;
mod lent;
mod plays;
mod rule;
mod seat;
mod seats;
mod sequential;
mod tickets;
mod turns;
mod visits;
mod witness;

pub use counter::{Ask, Counter};
pub use entry::Entry;
pub use lent::Lent;
pub use seat::{Seat, SeatSpent};
pub use sequential::Sequential;
pub use turns::{MOST_CALLS, Turns};
