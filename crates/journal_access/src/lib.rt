//! The accesses of a running program: the changes that it asks for, and what it is told of their answers.
#![tactic(auto)]

mod attr_told;
mod by_program;
mod told;

pub use attr_told::AttrTold;
pub use by_program::{atomic_by, delete_by, pop_by, push_by, store_by, update_by};
pub use told::{
    fetch_told, load_read, peek_told, start_told, told_by_helper, told_by_pointer, told_or,
};
