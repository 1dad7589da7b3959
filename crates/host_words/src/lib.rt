//! Words of a script: names and paths as bytes, and how a name and a path are spelled.
#![tactic(auto)]

mod spelling;
mod word;

pub use spelling::{is_name, is_path};
pub use std::alloc::AllocError as NoMemory;
pub use word::Word;
