//! What a line of a script answers, from what the book answers.
#![tactic(auto)]

mod answer;
mod fault;
mod mishap;
mod short_answer;
mod told;

pub use answer::Answer;
pub use bt_interp::{Abort, End};
pub use fault::Fault;
pub use mishap::Mishap;
pub use short_answer::{ShortAnswer, ShortForm};
pub use told::Told;
