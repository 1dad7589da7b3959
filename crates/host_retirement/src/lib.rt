//! Retirement: the links that the boxes hold, and the objects that they no longer keep live.
#![tactic(auto)]

pub mod elements;
pub mod retire;

pub use elements::{count_elements, element, id_under};
