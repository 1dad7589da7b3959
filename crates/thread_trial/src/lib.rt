//! A change that is tried for a while: it comes after a mark, and is undone again unless somebody confirms it in time.
//!
//! [`Trials`] is what a console and the keeper share. [`Trials::begin`] sets the mark, and [`Trials::confirm`] keeps what came
//! after it. [`keep`] is what the keeper's thread does: it undoes to the mark when the time is up, and before that if the
//! journal would soon give the way back up.
#![tactic(auto)]

mod ended;
mod keeper;
mod look;
mod trial;
mod trials;

pub use ended::{Ended, TrialEnd};
pub use keeper::{give_back, keep};
pub use trials::{Trials, TryFault};
