//! The numbers of RFC 9669: classes (section 3.3 Instruction Classes), codes (sections 4.1 to 4.3)
//! and modes (section 5).

pub(crate) const LDX: u8 = 1;

pub(crate) const ST: u8 = 2;

pub(crate) const STX: u8 = 3;

pub(crate) const ALU: u8 = 4;

pub(crate) const JMP: u8 = 5;

pub(crate) const JMP32: u8 = 6;

pub(crate) const ALU64: u8 = 7;

pub(crate) const NEG: u8 = 8;

pub(crate) const MOV: u8 = 11;

pub(crate) const END: u8 = 13;

pub(crate) const JA: u8 = 0;

pub(crate) const CALL: u8 = 8;

pub(crate) const EXIT: u8 = 9;

pub(crate) const MEM: u8 = 3;

pub(crate) const MEMSX: u8 = 4;

pub(crate) const ATOMIC: u8 = 6;

/// The opcode of the one instruction of class LD, an immediate of 64 bits.
pub(crate) const LDDW: u8 = 0x18;
