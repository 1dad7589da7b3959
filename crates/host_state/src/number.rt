//! The numbers that bytes are, the lowest first.

ghost use Rattle.std.specs.Prelude.{◌≡◌, slice_index};
ghost use Rattle.bt_mapkind.specs.Index.{index_of, number_of};

// The byte at a place, or zero if there is none.
fn byte_at(bytes: &[u8], place: usize) -> u8
    ensures { result ≡ slice_index bytes.now place }
{
    match bytes.get(place) {
        Some(byte) => *byte,
        None => 0,
    }
}

/// The number that at most eight bytes are, the lowest first; those that are not there count as zero.
#[tactic(auto, unfolding(bt_mapkind::specs::Index::number_of))]
pub fn number_of(bytes: &[u8]) -> u64
    ensures { result ≡ number_of bytes.now }
{
    u64::from_le_bytes([
        byte_at(bytes, 0),
        byte_at(bytes, 1),
        byte_at(bytes, 2),
        byte_at(bytes, 3),
        byte_at(bytes, 4),
        byte_at(bytes, 5),
        byte_at(bytes, 6),
        byte_at(bytes, 7),
    ])
}

/// The number that the first four bytes are, the lowest first: the index that a key of an array is, and the prefix length
/// with which a key of an LPM trie begins. Those that are not there count as zero.
#[tactic(auto, unfolding(bt_mapkind::specs::Index::index_of))]
pub fn index_of(bytes: &[u8]) -> u32
    ensures { result ≡ index_of bytes.now }
{
    u32::from_le_bytes([
        byte_at(bytes, 0),
        byte_at(bytes, 1),
        byte_at(bytes, 2),
        byte_at(bytes, 3),
    ])
}
