//! What a BPF program works on: the values in its registers, its stack, the frame and its context. Each is a table of
//! rules for what may be done with which kind of value.
#![tactic(auto)]

mod bytes;
mod context;
mod frame;
mod holder;
mod key;
mod kind;
mod pointer;
mod reason;
mod registers;
mod spilled;
mod stack;

pub use bytes::lie_within;
pub use context::context_field;
pub use frame::{Frame, MAX_FRAME};
pub use holder::Holder;
pub use kind::{Kind, MapHandle};
pub use pointer::{calculate, compared};
pub use reason::Reason;
pub use registers::Registers;
pub use stack::{STACK_SIZE, Stack};
