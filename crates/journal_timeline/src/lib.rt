//! The moments of a world in order, each an exchange of records: how they are undone and done again, and how one change is
//! taken out.
#![tactic(auto)]

mod doing;
mod past;
mod stage;
mod timeline;

pub use journal_moments::{OfName, World, drop_front};
pub use stage::{AgainFault, LineStage};
pub use timeline::Timeline;
