//! What is kept of the moments of a timeline: the boxes that its states have, the newest ids by moments, and the marks. Also the
//! way back and forth by several moments.
#![tactic(auto)]

mod boxes;
mod going;
mod ids;
mod marks;

pub use boxes::{advance, fold, keep_only, note_moment};
pub use going::{go_back, go_forth};
pub use ids::{Ids, LastIds};
pub use journal_timeline::{AgainFault, LineStage, OfName, Timeline, World};
pub use marks::Marks;
