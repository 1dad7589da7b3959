//! Looking into the journal: what a change in force did, and what an undo takes back.
//!
//! [`look_of`] reads the lines that only look: `journal show SERIAL`, and `journal undo -n` with or without a name. They change
//! nothing, and scripts have none of them. [`show`] is the change of a serial with what stood at its place before and after
//! it, [`put_shown`] writes that, and [`answer_show`] does both. [`taken_back`] is what an undo takes back, the oldest moment
//! first, and [`put_turned`] writes it. In `specs/`, `LookGrammar` says which words spell what, `Shown` and `Turned` what is looked
//! at, and `LookText` and `TurnedText` how it is written.
#![tactic(auto)]

mod answered;
mod deed;
mod look;
mod place;
mod shown;
mod shown_text;
mod stood;
mod turned;
mod turned_text;

pub use answered::{answer_show, put_looked};
pub use look::{Look, look_of};
pub use shown::{ChangeShown, Showing, show};
pub use shown_text::put_shown;
pub use turned::{MOST_TOLD, MomentRow, Turned, last_moments, taken_back, taken_out};
pub use turned_text::put_turned;
