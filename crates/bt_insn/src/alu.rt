//! Arithmetic and byte swaps.

ghost use Rattle.std.specs.Prelude.{◌≡◌, ◌<◌, IfSome};
ghost use Rattle.bt_insn.specs.Alu.{alu_code, alu_offset, alu_op_of, extension_class, extension_bits, extension_of, order_class, order_source, order_of, swap_bits, swap_size_of};
ghost use Rattle.bt_insn.specs.Classes.{alu_class};

use crate::codes::{ALU, ALU64};
use crate::operand::Width;

/// An arithmetic operation of two operands, by the name that RFC 9669, section 4.1 Arithmetic
/// Instructions, gives it. `Sdiv` and `Smod` are those of signed numbers, `Lsh` and `Rsh` shift left
/// and right, `Arsh` shifts right and keeps the sign.
#[derive(Clone, Copy, Debug, PartialEq, Eq)]
pub enum AluOp {
    Add,
    Sub,
    Mul,
    Div,
    Sdiv,
    Or,
    And,
    Lsh,
    Rsh,
    Mod,
    Smod,
    Xor,
    Mov,
    Arsh,
}

impl AluOp {
    /// The operation with this code and offset.
    #[tactic(auto, unfolding(crate::specs::Alu::alu_op_of))]
    pub(crate) fn of(code: u8, offset: i16) -> Option<AluOp>
        ensures value { result ≡ alu_op_of code offset }
        ensures code { IfSome result (λ op. alu_code op ≡ code) }
        ensures offset { IfSome result (λ op. alu_offset op ≡ offset) }
    {
        match offset {
            0 => match code {
                0 => Some(AluOp::Add),
                1 => Some(AluOp::Sub),
                2 => Some(AluOp::Mul),
                3 => Some(AluOp::Div),
                4 => Some(AluOp::Or),
                5 => Some(AluOp::And),
                6 => Some(AluOp::Lsh),
                7 => Some(AluOp::Rsh),
                9 => Some(AluOp::Mod),
                10 => Some(AluOp::Xor),
                11 => Some(AluOp::Mov),
                12 => Some(AluOp::Arsh),
                _ => None,
            },
            1 => match code {
                3 => Some(AluOp::Sdiv),
                9 => Some(AluOp::Smod),
                _ => None,
            },
            _ => None,
        }
    }

    pub(crate) fn code(self) -> u8
        ensures value { result ≡ alu_code self }
        ensures within { result < 16 }
    {
        match self {
            AluOp::Add => 0,
            AluOp::Sub => 1,
            AluOp::Mul => 2,
            AluOp::Div | AluOp::Sdiv => 3,
            AluOp::Or => 4,
            AluOp::And => 5,
            AluOp::Lsh => 6,
            AluOp::Rsh => 7,
            AluOp::Mod | AluOp::Smod => 9,
            AluOp::Xor => 10,
            AluOp::Mov => 11,
            AluOp::Arsh => 12,
        }
    }

    pub(crate) fn offset(self) -> i16
        ensures { result ≡ alu_offset self }
    {
        match self {
            AluOp::Sdiv | AluOp::Smod => 1,
            _ => 0,
        }
    }
}

/// From which size to which a move extends the sign (RFC 9669, section 4.1 Arithmetic Instructions,
/// MOVSX).
#[derive(Clone, Copy, Debug, PartialEq, Eq)]
pub enum SignExtension {
    ByteToWord,
    HalfToWord,
    ByteToDoubleWord,
    HalfToDoubleWord,
    WordToDoubleWord,
}

impl SignExtension {
    /// The extension to this width from as many bits as the offset says.
    #[tactic(auto, unfolding(crate::specs::Alu::extension_of))]
    pub(crate) fn of(width: Width, offset: i16) -> Option<SignExtension>
        ensures value { result ≡ extension_of width offset }
        ensures class { IfSome result (λ e. extension_class e ≡ alu_class width) }
        ensures bits { IfSome result (λ e. extension_bits e ≡ offset) }
    {
        match width {
            Width::Word => match offset {
                8 => Some(SignExtension::ByteToWord),
                16 => Some(SignExtension::HalfToWord),
                _ => None,
            },
            Width::DoubleWord => match offset {
                8 => Some(SignExtension::ByteToDoubleWord),
                16 => Some(SignExtension::HalfToDoubleWord),
                32 => Some(SignExtension::WordToDoubleWord),
                _ => None,
            },
        }
    }

    pub(crate) fn class(self) -> u8
        ensures value { result ≡ extension_class self }
        ensures within { result < 8 }
    {
        match self {
            SignExtension::ByteToWord | SignExtension::HalfToWord => ALU,
            _ => ALU64,
        }
    }

    pub(crate) fn bits(self) -> i16
        ensures { result ≡ extension_bits self }
    {
        match self {
            SignExtension::ByteToWord | SignExtension::ByteToDoubleWord => 8,
            SignExtension::HalfToWord | SignExtension::HalfToDoubleWord => 16,
            SignExtension::WordToDoubleWord => 32,
        }
    }
}

/// What a byte swap makes of its register (RFC 9669, section 4.2 Byte Swap Instructions).
#[derive(Clone, Copy, Debug, PartialEq, Eq)]
pub enum ByteOrder {
    /// Between the host's order and little-endian.
    Little,
    /// Between the host's order and big-endian.
    Big,
    /// The other order, whatever the host's is.
    Swapped,
}

impl ByteOrder {
    /// The order in the class of this width with this source bit.
    #[tactic(auto, unfolding(crate::specs::Alu::order_of))]
    pub(crate) fn of(width: Width, source: u8) -> Option<ByteOrder>
        ensures value { result ≡ order_of width source }
        ensures class { IfSome result (λ o. order_class o ≡ alu_class width) }
        ensures source { IfSome result (λ o. order_source o ≡ source) }
    {
        match width {
            Width::Word => match source {
                0 => Some(ByteOrder::Little),
                1 => Some(ByteOrder::Big),
                _ => None,
            },
            Width::DoubleWord => match source {
                0 => Some(ByteOrder::Swapped),
                _ => None,
            },
        }
    }

    pub(crate) fn class(self) -> u8
        ensures value { result ≡ order_class self }
        ensures within { result < 8 }
    {
        match self {
            ByteOrder::Swapped => ALU64,
            _ => ALU,
        }
    }

    pub(crate) fn source(self) -> u8
        ensures value { result ≡ order_source self }
        ensures within { result < 2 }
    {
        match self {
            ByteOrder::Big => 1,
            _ => 0,
        }
    }
}

/// How many bits a byte swap works on.
#[derive(Clone, Copy, Debug, PartialEq, Eq)]
pub enum SwapSize {
    /// 16 bits.
    Half,
    /// 32 bits.
    Word,
    /// 64 bits.
    DoubleWord,
}

impl SwapSize {
    #[tactic(auto, unfolding(crate::specs::Alu::swap_size_of))]
    pub(crate) fn of(bits: i32) -> Option<SwapSize>
        ensures value { result ≡ swap_size_of bits }
        ensures found { IfSome result (λ s. swap_bits s ≡ bits) }
    {
        match bits {
            16 => Some(SwapSize::Half),
            32 => Some(SwapSize::Word),
            64 => Some(SwapSize::DoubleWord),
            _ => None,
        }
    }

    pub(crate) fn bits(self) -> i32
        ensures { result ≡ swap_bits self }
    {
        match self {
            SwapSize::Half => 16,
            SwapSize::Word => 32,
            SwapSize::DoubleWord => 64,
        }
    }
}
