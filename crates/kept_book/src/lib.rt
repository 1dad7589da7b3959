//! A book and the events that are kept of it: those that changed it are noted as they happen, and done again later they lead
//! to the same book. So a book outlives the process that has it.
#![tactic(auto)]

pub mod boxes;
pub mod laws;
pub mod misfit;
mod noting;
mod redoing;

pub use boxes::MakeBox;
pub use kept_event::KeptEvent;
pub use misfit::{Misfit, Stop};
pub use noting::changes_since;
pub use redoing::{redo_event, redo_events};
