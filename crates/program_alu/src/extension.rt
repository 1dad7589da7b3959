//! Extension of signs.

ghost use Rattle.std.specs.Prelude.{◌≡◌};
ghost use Rattle.program_alu.specs.Extension as extension;

use crate::arithmetic::low_half;
use bt_insn::SignExtension;

#[inline(always)]
fn byte(number: u64) -> i8
    ensures { result ≡ extension.low_byte number }
{
    ((number & 0xff) as u8).cast_signed()
}

#[inline(always)]
fn half(number: u64) -> i16
    ensures { result ≡ extension.low_half_word number }
{
    ((number & 0xffff) as u16).cast_signed()
}

#[inline(always)]
fn word(number: u64) -> i32
    ensures { result ≡ extension.low_word number }
{
    low_half(number).cast_signed()
}

/// What MOVSX gives: the low 8, 16 or 32 bits, read as a signed number, as one of 32 bits with a cleared upper half or
/// of 64 bits.
#[inline(always)]
pub fn extended(how: SignExtension, number: u64) -> u64
    ensures { result ≡ extension.extended how number }
{
    match how {
        SignExtension::ByteToWord => u64::from(i32::from(byte(number)).cast_unsigned()),
        SignExtension::HalfToWord => u64::from(i32::from(half(number)).cast_unsigned()),
        SignExtension::ByteToDoubleWord => i64::from(byte(number)).cast_unsigned(),
        SignExtension::HalfToDoubleWord => i64::from(half(number)).cast_unsigned(),
        SignExtension::WordToDoubleWord => i64::from(word(number)).cast_unsigned(),
    }
}
