//! A hash map: each entry stands under its key.

ghost use Rattle.bt_mapkind.specs.declared.attr.MapType.TheVariants.{Hash};

use crate::address::Address;
use crate::addressing::Addressing;
use crate::entries::EntriesKind;
use bt_mapkind::{Bytes, Errno, MapAttr, MapFault, MapReply, MapType};
use map_table::Table;
use std::alloc::{AllocError, Global};

/// A hash map. All its room is reserved when it is made, so no call after that takes memory. A key is found in a few
/// looks when the keys spread over the buckets, and in time logarithmic in the number of entries whatever
/// they are; the entries of a dump and the keys of a walk come in ascending order of their bytes.
pub type HashKind = EntriesKind<WholeKey>;

/// The address of a key is the key itself, which the table finds without an index.
#[derive(Drop)]
pub struct WholeKey {}

impl Addressing for WholeKey {
    ghost serves = { Hash };

    ghost indexes = { λ _ _. Unit {0} };

    fn map_type() -> MapType {
        MapType::Hash
    }

    fn full() -> Errno {
        Errno::E2BIG
    }

    fn new(_alloc: Global, _attr: MapAttr) -> Result<WholeKey, AllocError> {
        Ok(WholeKey {})
    }

    fn address<'k>(_alloc: Global, _attr: MapAttr, key: &'k Bytes) -> Option<Address<'k>> {
        Some(Address::lent(key))
    }

    fn lookup(
        &self,
        alloc: Global,
        attr: MapAttr,
        table: &Table,
        key: &Bytes,
    ) -> Result<MapReply, MapFault> {
        if key.len() != attr.key_size as usize {
            return Err(MapFault::Errno(Errno::EINVAL));
        }
        match table.get(key) {
            Some(value) => Ok(MapReply::Found {
                key: key.copy(),
                value: Bytes::short(alloc, value),
            }),
            None => Ok(MapReply::Nothing),
        }
    }

    fn insert(&mut self, _attr: MapAttr, _table: &Table, _stored: &Bytes) {}

    fn remove(&mut self, _table: &Table, _stored: &Bytes) {}

    ghost stays = { λ _ _ _ _ _ _. tt };
}
