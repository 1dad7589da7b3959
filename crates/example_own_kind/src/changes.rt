//! The changes of the example: a hash of addresses is made, and counts are put into it.

use bt_mapkind::{Bytes, MapAttr, MapOp, MapType};
use host_state::{Change, Origin};
use host_words::{NoMemory, Word};
use std::alloc::Global;

/// A hash of 8 counts of 8 bytes, by addresses of 4 bytes.
pub(crate) const ADDRESSES: MapAttr = MapAttr {
    kind: MapType::Hash,
    key_size: 4,
    value_size: 8,
    max_entries: 8,
    flags: 0,
};

/// Makes the hash and pins it at `/seen`. The book gives it its id and its charge.
pub(crate) fn create(alloc: Global) -> Result<Change, NoMemory> {
    Ok(Change::Create {
        id: 1,
        attr: ADDRESSES,
        charge: 0,
        name: Word::new(alloc, b"seen")?,
        path: Word::new(alloc, b"/seen")?,
        template: None,
    })
}

/// Puts a count under an address, whether there is one or not.
pub(crate) fn update(alloc: Global, address: u32, count: u64) -> Result<Change, NoMemory> {
    Ok(Change::Operate {
        origin: Origin::Console,
        map: 1,
        op: MapOp::Update {
            key: Bytes::short(alloc, &address.to_be_bytes()),
            value: Bytes::short(alloc, &count.to_le_bytes()),
            flag: 0,
        },
    })
}
