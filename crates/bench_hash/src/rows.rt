//! A table alone, whose search hands out no copy of a key or a value.

use bt_hash::Table;
use bt_mapkind::Bytes;
use std::alloc::{AllocError, Global};

/// A table with values of eight bytes under these keys, or under the first 65,536.
pub fn filled(alloc: Global, keys: &[u32]) -> Result<Table, AllocError> {
    let count = keys.len().min(65_536);
    let mut table = Table::new(alloc, count, 4, 8)?;
    for key in keys {
        let bytes = Bytes::short(alloc, &key.to_le_bytes());
        if table.len() < count {
            let _ = table.set(&bytes, &[0; 8]);
        }
    }
    Ok(table)
}

/// How many of the keys are there.
pub fn held(table: &Table, alloc: Global, keys: &[u32]) -> u64 {
    let mut count = 0;
    for key in keys {
        if table.holds(&Bytes::short(alloc, &key.to_le_bytes())) {
            count += 1;
        }
    }
    count
}
