//! Arithmetic of two operands.

ghost use Rattle.std.specs.Prelude.{◌≡◌, ◌^◌, ◌%◌, ◌<◌};
ghost use Rattle.std.specs.Int.{cast_unsigned, w64};
ghost use Rattle.bt_insn.specs.declared.operand.Width.TheVariants.{Word, DoubleWord};
ghost use Rattle.program_alu.specs.Arithmetic as arithmetic;

use bt_insn::{AluOp, Width};

/// The low 32 bits.
#[inline(always)]
pub fn low_half(number: u64) -> u32
    ensures { result ≡ number % 2 ^ 32 }
{
    (number & 0xffff_ffff) as u32
}

/// An immediate of 32 bits as a number of 64: its sign is extended.
#[inline(always)]
pub fn immediate(number: i32) -> u64
    ensures { result ≡ cast_unsigned w64 number }
{
    i64::from(number).cast_unsigned()
}

fn divided(a: u64, b: u64) -> u64
    ensures { result ≡ arithmetic.computed AluOp.Sdiv DoubleWord a b }
{
    if b == 0 {
        0
    } else {
        a.cast_signed()
            .wrapping_div(b.cast_signed())
            .cast_unsigned()
    }
}

fn remainder(a: u64, b: u64) -> u64
    ensures { result ≡ arithmetic.computed AluOp.Smod DoubleWord a b }
{
    if b == 0 {
        a
    } else {
        a.cast_signed()
            .wrapping_rem(b.cast_signed())
            .cast_unsigned()
    }
}

// The operation on 64 bits.
#[inline(always)]
fn alu_64(op: AluOp, a: u64, b: u64) -> u64
    ensures { result ≡ arithmetic.computed op DoubleWord a b }
{
    match op {
        AluOp::Add => a.wrapping_add(b),
        AluOp::Sub => a.wrapping_sub(b),
        AluOp::Mul => a.wrapping_mul(b),
        AluOp::Div => { if b == 0 { 0 } else { a / b } }
        AluOp::Sdiv => divided(a, b),
        AluOp::Or => a | b,
        AluOp::And => a & b,
        AluOp::Lsh => a << (b % 64),
        AluOp::Rsh => a >> (b % 64),
        AluOp::Mod => { if b == 0 { a } else { a % b } }
        AluOp::Smod => remainder(a, b),
        AluOp::Xor => a ^ b,
        AluOp::Mov => b,
        AluOp::Arsh => (a.cast_signed() >> (b % 64)).cast_unsigned(),
    }
}

fn divided_word(a: u32, b: u32) -> u32
    ensures { result ≡ arithmetic.computed AluOp.Sdiv Word a b }
{
    if b == 0 {
        0
    } else {
        a.cast_signed()
            .wrapping_div(b.cast_signed())
            .cast_unsigned()
    }
}

fn remainder_word(a: u32, b: u32) -> u32
    ensures { result ≡ arithmetic.computed AluOp.Smod Word a b }
{
    if b == 0 {
        a
    } else {
        a.cast_signed()
            .wrapping_rem(b.cast_signed())
            .cast_unsigned()
    }
}

// The operation on 32 bits.
#[inline(always)]
fn alu_32(op: AluOp, a: u32, b: u32) -> u32
    ensures { result ≡ arithmetic.computed op Word a b }
{
    match op {
        AluOp::Add => a.wrapping_add(b),
        AluOp::Sub => a.wrapping_sub(b),
        AluOp::Mul => a.wrapping_mul(b),
        AluOp::Div => { if b == 0 { 0 } else { a / b } }
        AluOp::Sdiv => divided_word(a, b),
        AluOp::Or => a | b,
        AluOp::And => a & b,
        AluOp::Lsh => a << (b % 32),
        AluOp::Rsh => a >> (b % 32),
        AluOp::Mod => { if b == 0 { a } else { a % b } }
        AluOp::Smod => remainder_word(a, b),
        AluOp::Xor => a ^ b,
        AluOp::Mov => b,
        AluOp::Arsh => (a.cast_signed() >> (b % 32)).cast_unsigned(),
    }
}

/// What an arithmetic operation gives. A word operation takes the low halves and clears the upper half. Sums,
/// differences and products wrap; division by zero gives 0, and modulo by zero the first operand; the least signed
/// number divided by -1 gives itself; shifts count modulo the width.
#[inline(always)]
pub fn alu(width: Width, op: AluOp, a: u64, b: u64) -> u64
    ensures { result ≡ arithmetic.alu width op a b }
{
    match width {
        Width::DoubleWord => alu_64(op, a, b),
        Width::Word => u64::from(alu_32(op, low_half(a), low_half(b))),
    }
}

/// What NEG gives: the number with which the sum wraps to 0. A word operation takes the low half and clears the upper.
#[inline(always)]
pub fn negated(width: Width, number: u64) -> u64
    ensures { result ≡ arithmetic.negated width number }
{
    match width {
        Width::DoubleWord => 0u64.wrapping_sub(number),
        Width::Word => u64::from(0u32.wrapping_sub(low_half(number))),
    }
}
