//! Numbers in memory, the lowest byte first.

ghost use Rattle.std.specs.Prelude.{◌≡◌, ◌+◌, ◌^◌, ◌<◌, ◌≤◌, length};
ghost use Rattle.bt_insn.specs.LoadStore.{size_bytes};
ghost use Rattle.program_machine.specs.Bytes as spec;

use bt_insn::Size;
use byteorder::{ByteOrder, LittleEndian};

/// Whether so many bytes from the position on lie in a region of this size.
#[inline(always)]
pub fn lie_within(region: usize, position: u64, count: usize) -> bool
    ensures { result ≡ spec.lie_within region position count }
{
    count <= region && position <= (region - count) as u64
}

/// The number that stands there.
#[inline(always)]
#[tactic(auto, unfolding(crate::specs::Bytes::number_at))]
pub(crate) fn number_at(bytes: &[u8], start: usize, size: Size) -> u64
    requires { start + size_bytes size ≤ length bytes.now }
    ensures { result ≡ spec.number_at bytes.now start size }
{
    match size {
        Size::Byte => u64::from(bytes[start]),
        Size::Half => u64::from(LittleEndian::read_u16(&bytes[start..])),
        Size::Word => u64::from(LittleEndian::read_u32(&bytes[start..])),
        Size::DoubleWord => LittleEndian::read_u64(&bytes[start..]),
    }
}

/// Puts the lowest bytes of the number there.
#[inline(always)]
#[tactic(auto, unfolding(crate::specs::Bytes::with_number))]
pub(crate) fn put_number(bytes: &mut [u8], start: usize, size: Size, number: u64)
    requires { start + size_bytes size ≤ length bytes.old }
    ensures { bytes.new ≡ spec.with_number bytes.old start size number }
{
    match size {
        Size::Byte => bytes[start] = (number % 0x100) as u8,
        Size::Half => LittleEndian::write_u16(&mut bytes[start..], (number % 0x1_0000) as u16),
        Size::Word => {
            LittleEndian::write_u32(&mut bytes[start..], (number % 0x1_0000_0000) as u32);
        }
        Size::DoubleWord => LittleEndian::write_u64(&mut bytes[start..], number),
    }
}

/// Puts other bytes over those from `start` on.
#[tactic(auto, unfolding(crate::specs::Bytes::overwritten))]
pub(crate) fn overwrite(bytes: &mut [u8], start: usize, new: &[u8])
    requires { start + length new.now ≤ length bytes.old }
    ensures { bytes.new ≡ spec.overwritten bytes.old start new.now }
{
    bytes[start..start + new.len()].copy_from_slice(new);
}
