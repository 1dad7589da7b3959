//! What a command names, found in a book: maps and programs by their references, values, and the code of a program that is
//! to be loaded.
#![tactic(auto)]

mod judge;
mod prog_reference;
mod reference;
mod value;

pub use judge::{find_code, name_of};
pub use prog_reference::find_prog;
pub use reference::{FoundMap, find_map, find_template};
pub use value::{Item, find_item};
