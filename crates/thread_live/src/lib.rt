//! A live host: workers serve frames on threads of their own while a console answers lines at the same desk.
//!
//! [`Traffic`] holds the frames, and what the threads share. [`serve_beside`] has the workers serve on threads of their own,
//! and a keeper take back what is tried, while a [`Console`] talks on this one. [`answer_line`] answers one line of a console: a
//! line of a script, in one call of the desk, or one of those that only a live host has. [`put_report`] writes what is told of
//! the workers.
#![tactic(auto)]

mod batch;
mod crew;
mod fault;
mod line;
mod operator;
mod report;
mod traffic;
mod trying;
mod workers;

pub use crew::{Console, serve_beside};
pub use fault::LineFault;
pub use line::answer_line;
pub use operator::Operator;
pub use report::{Report, State, put_report};
pub use thread_at_desk::Session;
pub use traffic::Traffic;
pub use workers::end_traffic;
