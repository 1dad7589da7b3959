//! Calls of a map.

ghost use Rattle.std.specs.Prelude.{◌≤◌};
ghost use Rattle.bt_mapkind.specs.Kept.{room_of};

use bt_mapkind::{Bytes, KeptBack, MapKind, MapOp, MapReply, Query};
use std::alloc::{AllocError, Global};

/// A call of a map.
#[derive(Clone, Copy)]
pub enum Call {
    Insert,
    LookUp,
    Update,
    Delete,
}

/// A map with a block that each of its exchanges is kept in, as the world keeps them.
#[derive(Drop)]
pub struct Called<M: MapKind> {
    map: M,
    kept: KeptBack,
    ghost room: { room_of (M.seen map).attr ≤ kept.room },
}

impl<M: MapKind> Called<M> {
    /// A map with room for its exchanges.
    pub fn new(alloc: Global, map: M) -> Result<Called<M>, AllocError> {
        let attr = map.attr();
        let value_size = attr.value_size as usize;
        let room = value_size.max(attr.key_size as usize) + value_size;
        match KeptBack::with_room(alloc, room) {
            Ok(kept) => Ok(Called { map, kept }),
            Err(error) => Err(error),
        }
    }

    /// Makes a call with a key and, if it takes one, a value; whether the map did it.
    pub fn call(&mut self, alloc: Global, call: Call, key: Bytes, value: u64) -> bool {
        match call {
            Call::LookUp => self.finds(&Query::Lookup(key)),
            Call::Delete => self.does(&MapOp::Delete { key }),
            Call::Insert | Call::Update => {
                let value = Bytes::short(alloc, &value.to_le_bytes());
                self.does(&MapOp::Update {
                    key,
                    value,
                    flag: 0,
                })
            }
        }
    }

    // Asks the map; whether it found a value of eight bytes.
    fn finds(&self, query: &Query) -> bool {
        match &self.map.read(query) {
            Ok(MapReply::Found { key: _, value }) => value.len() == 8,
            _ => false,
        }
    }

    // Makes a change; whether the map did it.
    fn does(&mut self, op: &MapOp) -> bool {
        match self.map.change_into(op, &mut self.kept) {
            Ok(()) => true,
            Err(_) => false,
        }
    }
}
