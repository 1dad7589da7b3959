//! Comparisons of two operands.

ghost use Rattle.std.specs.Prelude.{◌≡◌};
ghost use Rattle.bt_insn.specs.declared.operand.Width.TheVariants.{Word, DoubleWord};
ghost use Rattle.program_alu.specs.Comparison as comparison;

use crate::arithmetic::low_half;
use bt_insn::{Condition, Width};

#[inline(always)]
fn holds_64(condition: Condition, a: u64, b: u64) -> bool
    ensures { result ≡ comparison.is_met condition DoubleWord a b }
{
    match condition {
        Condition::Eq => a == b,
        Condition::Ne => a != b,
        Condition::Gt => a > b,
        Condition::Ge => a >= b,
        Condition::Lt => a < b,
        Condition::Le => a <= b,
        Condition::Set => a & b != 0,
        Condition::Sgt => a.cast_signed() > b.cast_signed(),
        Condition::Sge => a.cast_signed() >= b.cast_signed(),
        Condition::Slt => a.cast_signed() < b.cast_signed(),
        Condition::Sle => a.cast_signed() <= b.cast_signed(),
    }
}

#[inline(always)]
fn holds_32(condition: Condition, a: u32, b: u32) -> bool
    ensures { result ≡ comparison.is_met condition Word a b }
{
    match condition {
        Condition::Eq => a == b,
        Condition::Ne => a != b,
        Condition::Gt => a > b,
        Condition::Ge => a >= b,
        Condition::Lt => a < b,
        Condition::Le => a <= b,
        Condition::Set => a & b != 0,
        Condition::Sgt => a.cast_signed() > b.cast_signed(),
        Condition::Sge => a.cast_signed() >= b.cast_signed(),
        Condition::Slt => a.cast_signed() < b.cast_signed(),
        Condition::Sle => a.cast_signed() <= b.cast_signed(),
    }
}

/// Whether a condition holds of two numbers. A word comparison takes their low halves.
#[inline(always)]
pub fn holds(width: Width, condition: Condition, a: u64, b: u64) -> bool
    ensures { result ≡ comparison.holds width condition a b }
{
    match width {
        Width::DoubleWord => holds_64(condition, a, b),
        Width::Word => holds_32(condition, low_half(a), low_half(b)),
    }
}
