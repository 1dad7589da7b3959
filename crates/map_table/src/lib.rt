//! Tables of entries by key, in ascending order of the keys, with room for all of them reserved.
#![tactic(auto)]

mod search;
pub mod table;

pub use table::Table;
