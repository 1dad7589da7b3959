//! An LPM trie: entries stand under prefixes, which a trie of their bits finds.

ghost use Rattle.std.specs.Prelude.{◌≡◌, length, IsTrue};
ghost use Rattle.bt_mapkind.specs.declared.attr.MapType.TheVariants.{LpmTrie};
ghost use Rattle.bt_mapkind.specs.Prefix.{has_its_bits, longest_match};
ghost use Rattle.bt_mapkind.specs.Read.{found};
ghost use Rattle.bt_hash.specs.Held.{IsHeld};
ghost use Rattle.bt_lpm.specs.Held.{HasKeys};
ghost use Rattle.bt_lpm.specs.Stays.{keys_stay};

use crate::prefix::{has_its_bits, prefix_of, stored_prefix};
use bt_hash::{Address, Addressing, EntriesKind};
use bt_mapkind::{Bytes, Errno, MapAttr, MapFault, MapReply, MapType};
use map_table::Table;
use map_trie::Trie;
use std::alloc::{AllocError, Global};

/// An LPM trie: values under prefixes, which lie in a table by ascending bytes, the length's four bytes first. All its
/// room is reserved when it is made, so no call after that takes memory. A look-up goes by the bits of its key through a
/// trie of the prefixes, at most 33 of them for an IPv4 address, and then searches the table once. Every other call
/// addresses the exact prefix of its key, whatever the key's bits past it.
pub type LpmKind = EntriesKind<Prefixes>;

/// The address of a key is its prefix, with the bits past it zero, and a trie has the prefixes.
#[derive(Drop)]
pub struct Prefixes {
    trie: Trie,
}

impl Prefixes {
    // The answer that gives the longest stored prefix that matches a key, and its value.
    fn longest(&self, alloc: Global, attr: MapAttr, table: &Table, key: &Bytes) -> MapReply
        requires held { IsHeld LpmTrie attr table.now }
        requires indexed { ∥ HasKeys table.now self.now.trie ∥₁ }
        requires size { length key.now ≡ attr.key_size }
        requires bits { IsTrue (has_its_bits key.now) }
        ensures { result ≡ found (longest_match table.now.entries key.now) }
    {
        let Some(bits) = self.trie.longest(key.as_slice()) else {
            return MapReply::Nothing;
        };
        let prefix = prefix_of(alloc, key, bits as u32);
        match table.get(&prefix) {
            Some(value) => MapReply::Found {
                key: prefix,
                value: Bytes::short(alloc, value),
            },
            None => unreachable!(),
        }
    }
}

impl Addressing for Prefixes {
    ghost serves = { LpmTrie };

    ghost indexes = { λ prefixes table. HasKeys table prefixes.trie };

    fn map_type() -> MapType {
        MapType::LpmTrie
    }

    fn full() -> Errno {
        Errno::ENOSPC
    }

    fn new(alloc: Global, attr: MapAttr) -> Result<Prefixes, AllocError> {
        match Trie::new(alloc, attr.max_entries as usize, attr.key_size as usize) {
            Ok(trie) => Ok(Prefixes { trie }),
            Err(error) => Err(error),
        }
    }

    fn address<'k>(alloc: Global, _attr: MapAttr, key: &'k Bytes) -> Option<Address<'k>> {
        if !has_its_bits(key) {
            return None;
        }
        Some(Address::made(key, stored_prefix(alloc, key)))
    }

    fn lookup(
        &self,
        alloc: Global,
        attr: MapAttr,
        table: &Table,
        key: &Bytes,
    ) -> Result<MapReply, MapFault> {
        if key.len() != attr.key_size as usize {
            return Err(MapFault::Errno(Errno::EINVAL));
        }
        if !has_its_bits(key) {
            return Ok(MapReply::Nothing);
        }
        Ok(self.longest(alloc, attr, table, key))
    }

    fn insert(&mut self, _attr: MapAttr, _table: &Table, stored: &Bytes) {
        self.trie.insert(stored.as_slice());
    }

    fn remove(&mut self, _table: &Table, stored: &Bytes) {
        self.trie.remove(stored.as_slice());
    }

    ghost stays = { λ prefixes table stored value there right. keys_stay table prefixes.trie stored value there right };
}
