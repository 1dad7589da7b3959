//! Prefixes of a key.

ghost use Rattle.std.specs.Prelude.{◌≡◌, ◌+◌, ◌≤◌, ◌++◌, length};
ghost use Rattle.bt_mapkind.specs.Prefix.{high_bits, masked, has_its_bits, stored_prefix, prefix_data};
ghost use Rattle.bt_lpm.specs.Prefixes.{prefix_of};

use bt_mapkind::Bytes;
use std::alloc::Global;

/// Whether a key has as many bits as its prefix length asks for.
pub fn has_its_bits(key: &Bytes) -> bool
    requires { 4 ≤ length key.now }
    ensures { result ≡ has_its_bits key.now }
{
    let data_size = key.as_slice().len() - 4;
    key.index() as usize <= 8 * data_size
}

/// The key as it is stored: bits past its prefix are zero.
pub fn stored_prefix(alloc: Global, key: &Bytes) -> Bytes
    requires { 4 ≤ length key.now }
    ensures { result ≡ stored_prefix key.now }
{
    with_head(alloc, key, key.index(), &key.as_slice()[..4])
}

/// The prefix of a key that has so many bits: that length, and the key's data with the bits past it zero.
pub fn prefix_of(alloc: Global, key: &Bytes, bits: u32) -> Bytes
    requires { 4 ≤ length key.now }
    ensures { result ≡ prefix_of key.now bits }
{
    with_head(alloc, key, bits, &bits.to_le_bytes())
}

// These four bytes, and then the key's data with all bits past the first ones zero.
fn with_head(alloc: Global, key: &Bytes, bits: u32, head: &[u8]) -> Bytes
    requires key_size { 4 ≤ length key.now }
    requires head_size { length head.now ≡ 4 }
    ensures { result ≡ head.now ++ masked bits (prefix_data key.now) }
{
    let bytes = key.as_slice();
    let len = bytes.len();
    let mut room = [0u8; 260];
    fill(&mut room[..len], head, &bytes[4..], bits);
    Bytes::short(alloc, &room[..len])
}

// Puts four bytes, and after them the first bits of others, into room for both.
fn fill(room: &mut [u8], head: &[u8], tail: &[u8], bits: u32)
    requires head_size { length head.now ≡ 4 }
    requires size { length room.old ≡ 4 + length tail.now }
    ensures { room.new ≡ head.now ++ masked bits tail.now }
{
    let (front, back) = room.split_at_mut(4);
    front.copy_from_slice(head);
    back.copy_from_slice(tail);
    mask(back, bits);
}

// Leaves the first bits of bytes, and makes the others zero.
fn mask(bytes: &mut [u8], bits: u32)
    ensures { bytes.new ≡ masked bits bytes.old }
{
    let mut left = bits;
    for byte in bytes.iter_mut() {
        *byte = high_bits(*byte, left.min(8));
        left = left.saturating_sub(8);
    }
}

// The first bits of a byte, the others zero.
fn high_bits(byte: u8, bits: u32) -> u8
    requires { bits ≤ 8 }
    ensures { result ≡ high_bits bits byte }
{
    let unit = 1u32 << (8 - bits);
    (u32::from(byte) / unit * unit) as u8
}
