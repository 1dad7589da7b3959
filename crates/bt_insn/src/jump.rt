//! Jumps.

ghost use Rattle.std.specs.Prelude.{◌≡◌, ◌<◌, IfSome};
ghost use Rattle.bt_insn.specs.Jump.{condition_code, condition_of, distance_of, distance_in, distance_class, distance_offset, distance_immediate};
ghost use Rattle.bt_insn.specs.Classes.{jump_class};
ghost use Rattle.bt_insn.specs.Table.{FitsDistance};

use crate::codes::{JMP, JMP32};
use crate::operand::Width;

/// When a jump is taken, by RFC 9669, section 4.3 Jump Instructions, without the J. `S` before a
/// comparison makes it one of signed numbers.
#[derive(Clone, Copy, Debug, PartialEq, Eq)]
pub enum Condition {
    Eq,
    Gt,
    Ge,
    /// A bit is set in both operands.
    Set,
    Ne,
    Sgt,
    Sge,
    Lt,
    Le,
    Slt,
    Sle,
}

impl Condition {
    #[tactic(auto, unfolding(crate::specs::Jump::condition_of))]
    pub(crate) fn of(code: u8) -> Option<Condition>
        ensures value { result ≡ condition_of code }
        ensures found { IfSome result (λ c. condition_code c ≡ code) }
    {
        match code {
            1 => Some(Condition::Eq),
            2 => Some(Condition::Gt),
            3 => Some(Condition::Ge),
            4 => Some(Condition::Set),
            5 => Some(Condition::Ne),
            6 => Some(Condition::Sgt),
            7 => Some(Condition::Sge),
            10 => Some(Condition::Lt),
            11 => Some(Condition::Le),
            12 => Some(Condition::Slt),
            13 => Some(Condition::Sle),
            _ => None,
        }
    }

    pub(crate) fn code(self) -> u8
        ensures value { result ≡ condition_code self }
        ensures within { result < 16 }
    {
        match self {
            Condition::Eq => 1,
            Condition::Gt => 2,
            Condition::Ge => 3,
            Condition::Set => 4,
            Condition::Ne => 5,
            Condition::Sgt => 6,
            Condition::Sge => 7,
            Condition::Lt => 10,
            Condition::Le => 11,
            Condition::Slt => 12,
            Condition::Sle => 13,
        }
    }
}

/// How far a jump that is always taken goes: slots from the slot after it. JA of class JMP has it
/// in the offset, JA of class JMP32 in the immediate.
#[derive(Clone, Copy, Debug, PartialEq, Eq)]
pub enum Distance {
    Short(i16),
    Long(i32),
}

impl Distance {
    /// The distance in the class of this width with this offset and this immediate, of which the
    /// other is 0.
    #[tactic(auto, unfolding(crate::specs::Jump::distance_in))]
    pub(crate) fn of(width: Width, offset: i16, immediate: i32) -> Option<Distance>
        ensures value { result ≡ distance_in width offset immediate }
        ensures fits { IfSome result FitsDistance }
        ensures class { IfSome result (λ d. distance_class d ≡ jump_class width) }
        ensures offset { IfSome result (λ d. distance_offset d ≡ offset) }
        ensures immediate { IfSome result (λ d. distance_immediate d ≡ immediate) }
    {
        match width {
            Width::DoubleWord if immediate == 0 => Some(Distance::Short(offset)),
            Width::Word if offset == 0 => Some(Distance::Long(immediate)),
            _ => None,
        }
    }

    /// The distance in slots, whichever field has it.
    #[inline]
    pub fn slots(self) -> i32
        ensures { result ≡ distance_of self }
    {
        match self {
            Distance::Short(offset) => i32::from(offset),
            Distance::Long(immediate) => immediate,
        }
    }

    /// The class of the jump.
    pub(crate) fn class(self) -> u8
        ensures value { result ≡ distance_class self }
        ensures within { result < 8 }
    {
        match self {
            Distance::Short(_) => JMP,
            Distance::Long(_) => JMP32,
        }
    }

    pub(crate) fn offset(self) -> i16
        ensures { result ≡ distance_offset self }
    {
        match self {
            Distance::Short(offset) => offset,
            Distance::Long(_) => 0,
        }
    }

    pub(crate) fn immediate(self) -> i32
        ensures { result ≡ distance_immediate self }
    {
        match self {
            Distance::Short(_) => 0,
            Distance::Long(immediate) => immediate,
        }
    }
}
