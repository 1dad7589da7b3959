//! The boxes of a host: maps of any make, found by id, with what they charge and how much work was done on them.
#![tactic(auto)]

pub mod keep;
pub mod make;
pub mod objects;
pub mod operated;
mod placed;

pub use keep::{Keep, is_among};
pub use make::Make;
pub use objects::{Objects, PlaceFault};
pub use operated::Operated;
