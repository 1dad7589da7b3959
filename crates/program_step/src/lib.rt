//! What each instruction does to the machine, and what the reply to an access does to it.
//!
//! A [`Machine`] does one instruction by [`Machine::step`], or at once by its short form if it works on numbers and on
//! bytes of the stack alone, by [`Machine::quick`]. If an instruction asks something of a map, [`Machine::reply`] takes the
//! answer. None of them takes memory. Tail calls are counted here: `src/calls.rt` asks for a program only if fewer than
//! [`MAX_TAIL_CALLS`] of the run have found one, and `src/answers.rt` counts one when its program starts.
#![tactic(auto)]

mod answers;
mod atomic;
mod calls;
mod machine;
mod memory;
mod outcome;
mod quick;
mod rows;
mod step;
mod table;

pub use calls::MAX_TAIL_CALLS;
pub use machine::Machine;
pub use outcome::{Action, Answered, Outcome};
pub use quick::Counter;
