//! An interpreter of verified XDP programs that stops at each access: a run goes on by itself until it asks something of a map,
//! and again when it is answered, to its end. It takes no memory, and waits for nothing.
#![tactic(auto)]

mod end;
pub mod laws;
mod onward;
mod phase;
mod room;
mod run;

pub use end::{Abort, End};
pub use program_access::{Access, AccessReply};
pub use program_machine::Reason;
pub use program_step::{Action, Outcome};
pub use run::Run;
