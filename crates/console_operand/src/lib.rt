//! What the words of a line spell: numbers, bytes, references to objects, values and programs' bytes, each read a word at
//! a time.
//!
//! [`first_line`] cuts a text into lines and [`first_word`] a line into words. The forms are those of bpftool-map(8) and
//! bpftool-prog(8): `Number`, `Data`, `Reference`, `Value` and `Object` in `specs/` are what the words spell, and the
//! modules with `Steps` in their names how they are read.
#![tactic(auto)]

mod data_words;
mod line;
pub mod number;
mod object;
mod pin;
mod reference;
mod short_byte;
mod step;
mod unread;
mod value;
mod words;

pub use data_words::{Data, DataBytes};
pub use line::first_line;
pub use object::{Object, hex_bytes};
pub use pin::PinState;
pub use reference::{Form, LineReference, Named, Naming, Reference};
pub use std::alloc::AllocError as NoMemory;
pub use step::go_to;
pub use unread::Unread;
pub use value::{LineValue, Value, ValueState};
pub use words::{LineWord, behind_word, first_word};
