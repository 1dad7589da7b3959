//! What a dialogue tells beside the answers of its lines: help, what went wrong, what the journal holds, the access of a step, what
//! an undo, a redo or a taking out turned, and the lines that only look at the journal; and what a host run tells of its frames.
//!
//! Most of it goes to standard error, and no contract speaks of its text. A change that is shown goes to the output: [`look_at`]
//! writes it, [`show_at`] looks at it at a desk, and `specs/Looked` says what is seen and written. [`Beside`] tells of lines on a kept
//! book.
#![tactic(auto)]

mod beside;
mod forms;
mod frames;
mod heading;
mod hints;
mod live_hints;
mod looked;
mod looks;
mod range_turning;
mod stepped;
mod turning;

pub use beside::{Beside, LineOrigin};
pub use forms::show_help;
pub use frames::tell_frames;
pub use heading::{tell_held, tell_held_at};
pub use hints::{put as put_hint, tell_mishap};
pub use live_hints::explain_at;
pub use looked::{show_at, tell_dry};
pub use looks::{LookFault, look_at};
pub use stepped::tell_step;
pub use turning::Turning;
