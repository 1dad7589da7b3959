//! Arithmetic and comparisons of BPF on 64-bit numbers (RFC 9669, sections 4.1 Arithmetic Instructions, 4.2 Byte Swap
//! Instructions and 4.3 Jump Instructions), by themselves: what an instruction gives for the numbers in its operands.
#![tactic(auto)]

mod arithmetic;
mod comparison;
mod extension;
mod swap;

pub use arithmetic::{alu, immediate, low_half, negated};
pub use comparison::holds;
pub use extension::extended;
pub use swap::swapped;
