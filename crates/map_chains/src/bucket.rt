//! The bucket of a key.

ghost use Rattle.std.specs.Prelude.{◌≡◌, ◌+◌, ◌<◌, ◌≤◌, ◌^◌};
ghost use Rattle.map_chains.specs.Buckets.{hash_of, bucket_of};

/// FNV-1a's hash of no bytes.
const BASIS: u32 = 2_166_136_261;

/// What FNV-1a multiplies by.
const PRIME: u64 = 16_777_619;

/// How many buckets a table with so much room has: a power of two that is at least as much, or one if the room is
/// more than 2^30.
pub fn bucket_count(room: usize) -> usize
    requires { room < 2 ^ 32 }
    ensures some { 0 < result }
    ensures few { room + result ≤ 2 ^ 32 }
{
    if room > 0x4000_0000 {
        return 1;
    }
    room.next_power_of_two()
}

/// The bucket of a key among so many.
pub fn bucket_of(key: &[u8], count: usize) -> usize
    requires { 0 < count }
    ensures bucket { result ≡ bucket_of count key.now }
    ensures within { result < count }
{
    hash_of(key) as usize & (count - 1)
}

// FNV-1a over the bytes of a key.
fn hash_of(key: &[u8]) -> u32
    ensures { result ≡ hash_of key.now }
{
    let mut hash = BASIS;
    for byte in key {
        hash = (u64::from(hash ^ u32::from(*byte)) * PRIME % 0x1_0000_0000) as u32;
    }
    hash
}
