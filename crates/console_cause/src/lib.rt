//! Why a line was refused, asked of the host as it is: a refused line has not changed it. If memory is lacking to ask, nothing
//! is told of the host.
#![tactic(auto)]

mod files;
mod journal;
mod maps;
mod objects;
mod programs;
mod refusal;

pub use files::file_hint;
pub use refusal::{NO_ACTION, NOTHING_CHANGED, hint_of};
