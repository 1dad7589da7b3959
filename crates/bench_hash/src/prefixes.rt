//! Prefixes of IPv4 addresses in an LPM trie.

use crate::calls::{Call, Called};
use bt_lpm::LpmKind;
use bt_mapkind::Bytes;
use std::alloc::{AllocError, Global};

/// A prefix of an address.
#[derive(Clone, Copy)]
pub struct Prefix {
    bits: u32,
    address: u32,
}

/// So many prefixes of 16 to 24 bits, without order.
pub fn mixed(alloc: Global, count: u32) -> Result<Vec<Prefix>, AllocError> {
    let mut prefixes = Vec::new(alloc);
    for index in 0..count {
        let bits = 16 + index % 9;
        let address = index.wrapping_mul(2_654_435_761);
        prefixes.push(Prefix { bits, address })?;
    }
    Ok(prefixes)
}

/// The addresses of prefixes, in another order.
pub fn addresses(alloc: Global, prefixes: &[Prefix]) -> Result<Vec<Prefix>, AllocError> {
    let mut addresses = Vec::new(alloc);
    for index in 0..prefixes.len() {
        let address = prefixes[(index % 65_536) * 40_507 % prefixes.len()].address;
        addresses.push(Prefix { bits: 32, address })?;
    }
    Ok(addresses)
}

/// Makes a call with each prefix; how often the map did it.
pub fn all(map: &mut Called<LpmKind>, alloc: Global, call: Call, prefixes: &[Prefix]) -> u64 {
    let mut count = 0;
    for prefix in prefixes {
        let [a, b, c, d] = prefix.bits.to_le_bytes();
        let [e, f, g, h] = prefix.address.to_be_bytes();
        let key = Bytes::short(alloc, &[a, b, c, d, e, f, g, h]);
        if map.call(alloc, call, key, prefix.address.into()) {
            count += 1;
        }
    }
    count
}
