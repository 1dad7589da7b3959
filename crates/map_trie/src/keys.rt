//! The bits of prefixes.

ghost use Rattle.std.specs.Prelude.{◌≡◌, ◌+◌, ◌*◌, ◌<◌, ◌≤◌, ◌^◌, length, max};
ghost use Rattle.bt_mapkind.specs.Prefix.{high_bits, masked, prefix_length, is_prefix_of, is_same};
ghost use Rattle.map_trie.specs.Ways.{bit_of};
ghost use Rattle.map_trie.specs.Trie.{worth};

/// How many bits a prefix has.
pub fn length_of(key: &[u8]) -> usize
    requires { 4 ≤ length key.now }
    ensures bits { result ≡ prefix_length key.now }
    ensures few { result < 2 ^ 32 }
{
    u32::from_le_bytes([key[0], key[1], key[2], key[3]]) as usize
}

/// A bit of a key's data, of which the highest of the first byte comes first.
pub fn bit_of(key: &[u8], index: usize) -> usize
    requires { index + 32 < 8 * length key.now }
    ensures bit { result ≡ bit_of key.now index }
    ensures low { result < 2 }
{
    usize::from(key[4 + index / 8] >> (7 - index % 8)) % 2
}

/// The larger of a number and what a stored prefix is worth to a key: one more than its bits, if it matches.
pub fn better(best: usize, key: &[u8], stored: &[u8]) -> usize
    requires key { 4 ≤ length key.now }
    requires size { length stored.now ≡ length key.now }
    ensures { result ≡ max best (worth key.now stored.now) }
{
    let bits = length_of(stored);
    if bits < best || !matches(key, stored, bits) {
        return best;
    }
    bits + 1
}

// Whether a stored prefix of so many bits is one of a key.
fn matches(key: &[u8], stored: &[u8], bits: usize) -> bool
    requires key { 4 ≤ length key.now }
    requires size { length stored.now ≡ length key.now }
    requires bits { bits ≡ prefix_length stored.now }
    ensures { result ≡ is_prefix_of key.now stored.now }
{
    bits <= length_of(key) && has_bits(&stored[4..], &key[4..], bits)
}

// Whether a prefix is the first bits of bytes, and zeros.
fn has_bits(prefix: &[u8], bytes: &[u8], bits: usize) -> bool
    requires { length prefix.now ≡ length bytes.now }
    ensures { result ≡ is_same prefix.now (masked bits bytes.now) }
{
    let mut left = bits;
    for place in 0..prefix.len() {
        if prefix[place] != high_bits(bytes[place], left.min(8)) {
            return false;
        }
        left = left.saturating_sub(8);
    }
    true
}

// The first bits of a byte, the others zero.
fn high_bits(byte: u8, bits: usize) -> u8
    requires { bits ≤ 8 }
    ensures { result ≡ high_bits bits byte }
{
    let unit = 1u32 << (8 - bits);
    (u32::from(byte) / unit * unit) as u8
}
