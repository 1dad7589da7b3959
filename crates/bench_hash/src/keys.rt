//! Keys of four bytes.

use std::alloc::{AllocError, Global};

/// So many keys without order.
pub fn shuffled(alloc: Global, count: u32) -> Result<Vec<u32>, AllocError> {
    let mut keys = Vec::new(alloc);
    for index in 0..count {
        keys.push(index.wrapping_mul(2_654_435_761))?;
    }
    Ok(keys)
}

/// So many keys, or as many as there are, that share a bucket of 65,536 and of fewer: the last two bytes of their FNV-1a
/// hash are zero.
pub fn colliding(alloc: Global, count: u32) -> Result<Vec<u32>, AllocError> {
    let mut keys = Vec::new(alloc);
    for prefix in 0..0x100_0000_u32 {
        if keys.len() == count as usize {
            break;
        }
        let [first, second, third, _] = prefix.to_le_bytes();
        let hash = hash_of(&[first, second, third]);
        if (hash >> 8) & 0xff == 0 {
            let last = (hash & 0xff) as u8;
            keys.push(u32::from_le_bytes([first, second, third, last]))?;
        }
    }
    Ok(keys)
}

/// Keys in another order.
pub fn reordered(alloc: Global, keys: &[u32]) -> Result<Vec<u32>, AllocError> {
    let mut others = Vec::new(alloc);
    for index in 0..keys.len() {
        others.push(keys[(index % 65_536) * 40_507 % keys.len()])?;
    }
    Ok(others)
}

// FNV-1a's hash.
fn hash_of(bytes: &[u8]) -> u32 {
    let mut hash: u32 = 2_166_136_261;
    for byte in bytes {
        hash = (hash ^ u32::from(*byte)).wrapping_mul(16_777_619);
    }
    hash
}
