//! Hints: what is wrong with a line that was refused, in an operator's words.
//!
//! A [`Hint`] is chosen from the line, from what went wrong in it, and from facts that the caller asked of the host, which a
//! refused line has not changed. Each function that chooses one has a contract that says what it chooses; how a hint is
//! written, by its `Display`, has none.
#![tactic(auto)]

mod advised;
mod attributes;
mod code_hint;
mod difference;
mod file_fault;
mod flag;
mod hint;
mod misfit;
mod misstep;
mod misuse;
mod object;
mod operation;
mod place;
mod room;
mod shown;
mod slot;
mod spelling;
mod standing;
mod word;

pub use advised::{advice, errno_advice};
pub use attributes::{AttrFault, attr_fault};
pub use code_hint::{CodeHint, decode_hint, verify_hint};
pub use difference::{Difference, difference_of};
pub use file_fault::FileFault;
pub use flag::{FlagFault, flag_fault};
pub use hint::{Absent, Hint};
pub use misfit::{Misfit, misfit_of};
pub use misstep::{Misstep, insn_at};
pub use object::{ObjectFault, are_digits, object_fault};
pub use operation::{Given, Operation, Verb, operation_of};
pub use place::Place;
pub use room::{NoRoom, no_room};
pub use shown::Shown;
pub use slot::{Slot, slot_at, target_of};
pub use spelling::{NameFault, PathFault, name_fault, path_fault};
pub use standing::{WordHint, word_hint};
pub use word::word_at;
