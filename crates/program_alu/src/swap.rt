//! Byte orders.

ghost use Rattle.std.specs.Prelude.{◌≡◌};
ghost use Rattle.program_alu.specs.Swap as swap;

use crate::arithmetic::low_half;
use bt_insn::{ByteOrder, SwapSize};

// The low bytes, as they stand.
#[inline(always)]
fn low_bytes(size: SwapSize, number: u64) -> u64
    ensures { result ≡ swap.low_bits size number }
{
    match size {
        SwapSize::Half => number & 0xffff,
        SwapSize::Word => number & 0xffff_ffff,
        SwapSize::DoubleWord => number,
    }
}

// The low bytes, the last one first.
#[inline(always)]
#[tactic(auto, unfolding(crate::specs::Swap::reversed))]
fn reversed(size: SwapSize, number: u64) -> u64
    ensures { result ≡ swap.reversed size number }
{
    match size {
        SwapSize::Half => u64::from(((number & 0xffff) as u16).swap_bytes()),
        SwapSize::Word => u64::from(low_half(number).swap_bytes()),
        SwapSize::DoubleWord => number.swap_bytes(),
    }
}

/// What END gives, on a little-endian machine: the low 16, 32 or 64 bits, as they stand for little-endian, with their
/// bytes reversed for big-endian and for a swap. What is above is cleared.
#[inline(always)]
pub fn swapped(order: ByteOrder, size: SwapSize, number: u64) -> u64
    ensures { result ≡ swap.swapped order size number }
{
    match order {
        ByteOrder::Little => low_bytes(size, number),
        ByteOrder::Big | ByteOrder::Swapped => reversed(size, number),
    }
}
