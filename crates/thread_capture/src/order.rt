//! The byte order of a capture, and numbers in it.

use byteorder::{BigEndian, ByteOrder, LittleEndian};

/// The byte order of all numbers of a capture.
#[derive(Clone, Copy)]
pub(crate) enum Order {
    /// The lowest byte first.
    Little,
    /// The highest byte first.
    Big,
}

impl Order {
    ghost use Rattle.std.specs.Prelude.{◌≡◌, ◌+◌, ◌≤◌, length};
    ghost use Rattle.thread_capture.specs.Captures.{number_at};

    /// The number of two bytes at a position.
    #[tactic(auto, unfolding(crate::specs::Captures::number_at))]
    pub(crate) fn u16_at(self, bytes: &[u8], place: usize) -> u16
        requires { place + 2 ≤ length bytes.now }
        ensures { result ≡ number_at self 2 bytes.now place }
    {
        match self {
            Order::Little => LittleEndian::read_u16(&bytes[place..]),
            Order::Big => BigEndian::read_u16(&bytes[place..]),
        }
    }

    /// The number of four bytes at a position.
    #[tactic(auto, unfolding(crate::specs::Captures::number_at))]
    pub(crate) fn u32_at(self, bytes: &[u8], place: usize) -> u32
        requires { place + 4 ≤ length bytes.now }
        ensures { result ≡ number_at self 4 bytes.now place }
    {
        match self {
            Order::Little => LittleEndian::read_u32(&bytes[place..]),
            Order::Big => BigEndian::read_u32(&bytes[place..]),
        }
    }
}
