//! What takes a change back.
#![tactic(auto)]

pub mod plain;
pub mod turn;
pub mod undoing;

pub use plain::PlainUndoing;
pub use turn::{turn_contents, turn_part};
pub use undoing::{Part, Undoing};
