//! The instruction set: a subset of RFC 9669, BPF Instruction Set Architecture, as a type, and the
//! codec between programs and bytes.
//!
//! An [`Insn`] is a legal form, and no other value exists. [`Insn::new`] finds it by the fields
//! that spell it, [`decode`] reads the instructions that bytes spell or tells the first fault, and
//! [`encode`] writes their one spelling. [`laws`] has what follows of all bytes.
#![tactic(auto)]

mod alu;
mod codes;
mod decoder;
mod encoder;
mod fault;
mod fields;
mod insn;
mod jump;
pub mod laws;
mod load_store;
mod operand;
mod reading;
mod register;
mod spelling;

pub use alu::{AluOp, ByteOrder, SignExtension, SwapSize};
pub use decoder::{MAX_SLOTS, decode};
pub use encoder::encode;
pub use fault::DecodeFault;
pub use fields::{Fields, SLOT_BYTES};
pub use insn::Insn;
pub use jump::{Condition, Distance};
pub use load_store::{AtomicOp, SignedSize, Size};
pub use operand::{Operand, Width};
pub use register::Register;
pub use std::alloc::AllocError as NoMemory;
