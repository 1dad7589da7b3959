//! What operations work on: how wide, and on what beside the destination.

ghost use Rattle.std.specs.Prelude.{◌≡◌, ◌<◌, IfSome};
ghost use Rattle.bt_insn.specs.Operand.{operand_of, source_bit, source_number, source_immediate};
ghost use Rattle.bt_insn.specs.Classes.{alu_class, jump_class, store_class};

use crate::codes::{ALU, ALU64, JMP, JMP32, ST, STX};
use crate::register::Register;

/// How many bits an operation works on.
#[derive(Clone, Copy, Debug, PartialEq, Eq)]
pub enum Width {
    /// 32 bits: classes ALU and JMP32, size W of an atomic operation.
    Word,
    /// 64 bits: classes ALU64 and JMP, size DW of an atomic operation.
    DoubleWord,
}

impl Width {
    /// The class of arithmetic on as many bits.
    pub(crate) fn alu_class(self) -> u8
        ensures value { result ≡ alu_class self }
        ensures within { result < 8 }
    {
        match self {
            Width::Word => ALU,
            Width::DoubleWord => ALU64,
        }
    }

    /// The class of jumps that compare as many bits.
    pub(crate) fn jump_class(self) -> u8
        ensures value { result ≡ jump_class self }
        ensures within { result < 8 }
    {
        match self {
            Width::Word => JMP32,
            Width::DoubleWord => JMP,
        }
    }
}

/// The second operand: an immediate (source bit K) or a register (source bit X).
#[derive(Clone, Copy, Debug, PartialEq, Eq)]
pub enum Operand {
    Immediate(i32),
    Register(Register),
}

impl Operand {
    /// The operand that a source bit, a source register and an immediate spell. The one of the two
    /// that the bit does not name is 0.
    #[tactic(auto, unfolding(crate::specs::Operand::operand_of))]
    pub(crate) fn of(source: u8, number: u8, immediate: i32) -> Option<Operand>
        ensures value { result ≡ operand_of source number immediate }
        ensures bit { IfSome result (λ o. source_bit o ≡ source) }
        ensures number { IfSome result (λ o. source_number o ≡ number) }
        ensures immediate { IfSome result (λ o. source_immediate o ≡ immediate) }
    {
        match source {
            0 => {
                if number == 0 {
                    Some(Operand::Immediate(immediate))
                } else {
                    None
                }
            }
            1 => {
                if immediate == 0 {
                    Some(Operand::Register(Register::new(number)?))
                } else {
                    None
                }
            }
            _ => None,
        }
    }

    pub(crate) fn source(self) -> u8
        ensures value { result ≡ source_bit self }
        ensures within { result < 2 }
    {
        match self {
            Operand::Immediate(_) => 0,
            Operand::Register(_) => 1,
        }
    }

    pub(crate) fn number(self) -> u8
        ensures value { result ≡ source_number self }
        ensures within { result < 11 }
    {
        match self {
            Operand::Immediate(_) => 0,
            Operand::Register(register) => register.number(),
        }
    }

    pub(crate) fn immediate(self) -> i32
        ensures { result ≡ source_immediate self }
    {
        match self {
            Operand::Immediate(immediate) => immediate,
            Operand::Register(_) => 0,
        }
    }

    /// The class that stores it.
    pub(crate) fn store_class(self) -> u8
        ensures value { result ≡ store_class self }
        ensures within { result < 8 }
    {
        match self {
            Operand::Immediate(_) => ST,
            Operand::Register(_) => STX,
        }
    }
}
