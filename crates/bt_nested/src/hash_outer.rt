//! A hash of maps over a table.

ghost use Rattle.std.specs.Prelude.{◌≡◌, ◌≤◌, ◌↔◌, ◌≢◌, true, length, IfOk, IfSome, IsTrue, option_map, slice_get};
ghost use Rattle.std.specs.FinMap as map;
ghost use Rattle.bt_mapkind.specs.declared.attr.MapType.TheVariants.{HashOfMaps};
ghost use Rattle.bt_mapkind.specs.Attributes.{charge_of, IsGoodFor};
ghost use Rattle.bt_mapkind.specs.Contents.{Links, fresh};
ghost use Rattle.bt_mapkind.specs.Seen.{Seen};
ghost use Rattle.bt_mapkind.specs.Index.{index_of};
ghost use Rattle.bt_mapkind.specs.Read.{key_found};
ghost use Rattle.bt_mapkind.specs.Exchange.{has_room, links_fit, put_under};
ghost use Rattle.bt_mapkind.specs.Answers.{IsAnswer, IsChange, Follows, Replies};
ghost use Rattle.bt_nested.specs.Ids.{ids_of};
ghost use Rattle.bt_nested.specs.Held.{IsHashOfIds};

use bt_mapkind::{
    Back, Bytes, Errno, MapAttr, MapFault, MapKind, MapOp, MapReply, MapType, NewFault, Query,
};
use map_table::Table;
use std::alloc::Global;

/// A hash of maps: the ids of maps under keys of one size. All its room is reserved when it is made, so no call after
/// that takes memory. A key is found in time logarithmic in the number of entries; the keys of a dump and
/// of a walk come in ascending order of their bytes.
#[derive(Drop)]
pub struct HashOuterKind {
    alloc: Global,
    attr: MapAttr,
    table: Table,
    ghost held: { IsHashOfIds attr table },
}

impl HashOuterKind {
    /// An empty hash of maps. BadAttr for attributes that are not good, or of another type.
    pub fn new(alloc: Global, attr: MapAttr) -> Result<HashOuterKind, NewFault>
        ensures fresh { IfOk result (λ h. ⟦<HashOuterKind as MapKind>⟧.seen h ≡ record { attr = attr; contents = fresh attr; charge = charge_of attr; roomy = true }) }
        ensures bad_attr { (result ≡ Err NewFault.BadAttr) ↔ ¬ (IsGoodFor HashOfMaps attr) }
    {
        if attr.kind != MapType::HashOfMaps || !attr.good() {
            return Err(NewFault::BadAttr);
        }
        match Table::new(alloc, attr.max_entries as usize, attr.key_size as usize, 4) {
            Ok(table) => Ok(HashOuterKind { alloc, attr, table }),
            Err(_) => Err(NewFault::NoMemory),
        }
    }

    fn lookup(&self, key: &Bytes) -> Result<MapReply, MapFault>
        ensures answer { Replies self.now.attr (Links (ids_of self.now.table.entries)) (Query.Lookup key.now) result }
        ensures room { result ≢ Err MapFault.NoMemory }
    {
        if key.len() != self.attr.key_size as usize {
            return Err(MapFault::Errno(Errno::EINVAL));
        }
        match self.table.get(key) {
            Some(value) => Ok(MapReply::Link(id_of(value))),
            None => Ok(MapReply::Nothing),
        }
    }

    fn next(&self, key: &Option<Bytes>) -> Result<MapReply, MapFault>
        ensures answer { Replies self.now.attr (Links (ids_of self.now.table.entries)) (Query.Next key.now) result }
        ensures room { result ≢ Err MapFault.NoMemory }
    {
        let Some(key) = key else {
            return Ok(self.key(0));
        };
        if key.len() != self.attr.key_size as usize {
            return Err(MapFault::Errno(Errno::EINVAL));
        }
        if self.table.holds(key) {
            return Ok(MapReply::of_key(self.table.after(key)));
        }
        Ok(self.key(0))
    }

    // Key `index`, or nothing if there are not so many.
    fn key(&self, index: usize) -> MapReply
        ensures { result ≡ key_found (slice_get (map.keys (ids_of self.now.table.entries)) index) }
    {
        MapReply::of_key(self.table.nth_key(index))
    }

    // Whether a key is there, or one more has room.
    fn has_room(&self, key: &Bytes) -> bool
        ensures { result ≡ has_room self.now.attr (ids_of self.now.table.entries) key.now }
    {
        self.table.len() < self.attr.max_entries as usize || self.table.holds(key)
    }

    // Puts an id under a key, or takes the key away. Gives the id that stood there.
    fn exchange(&mut self, key: &Bytes, id: Option<u32>) -> Option<u32>
        requires { IsTrue (links_fit self.old.attr (ids_of self.old.table.entries) (Back.Link key.now id)) }
        ensures put { ids_of self.new.table.entries ≡ put_under (ids_of self.old.table.entries) key.now id }
        ensures before { result ≡ map.get (ids_of self.old.table.entries) key.now }
        ensures attr { self.new.attr ≡ self.old.attr }
    {
        let value = bytes_of(self.alloc, id);
        match self.table.exchange(key, value) {
            Some(before) => Some(before.index()),
            None => None,
        }
    }

    fn delete(&mut self, key: &Bytes) -> Result<(MapReply, Back), MapFault>
        ensures step { Follows self.old.attr (Links (ids_of self.old.table.entries)) (MapOp.Delete key.now) result (Links (ids_of self.new.table.entries)) }
        ensures attr { self.new.attr ≡ self.old.attr }
        ensures room { result ≢ Err MapFault.NoMemory }
    {
        if key.len() != self.attr.key_size as usize {
            return Err(MapFault::Errno(Errno::EINVAL));
        }
        match self.exchange(key, None) {
            Some(before) => Ok((MapReply::Done, back_to(key, Some(before)))),
            None => Err(MapFault::Errno(Errno::ENOENT)),
        }
    }

    fn set_link(&mut self, key: &Bytes, id: u32, flag: u64) -> Result<(MapReply, Back), MapFault>
        ensures step { Follows self.old.attr (Links (ids_of self.old.table.entries)) (MapOp.SetLink key.now id flag) result (Links (ids_of self.new.table.entries)) }
        ensures attr { self.new.attr ≡ self.old.attr }
        ensures room { result ≢ Err MapFault.NoMemory }
    {
        if flag > 2 || key.len() != self.attr.key_size as usize {
            return Err(MapFault::Errno(Errno::EINVAL));
        }
        if let Some(errno) = self.table.put_fault(key, flag, Errno::E2BIG) {
            return Err(MapFault::Errno(errno));
        }
        let before = self.exchange(key, Some(id));
        Ok((MapReply::Done, back_to(key, before)))
    }
}

// The id that bytes are, the lowest first.
fn id_of(bytes: &[u8]) -> u32
    requires { 4 ≤ length bytes.now }
    ensures { result ≡ index_of bytes.now }
{
    u32::from_le_bytes([bytes[0], bytes[1], bytes[2], bytes[3]])
}

// The bytes of an id, if there is one.
fn bytes_of(alloc: Global, id: Option<u32>) -> Option<Bytes>
    ensures ids { option_map index_of result ≡ id }
    ensures sizes { IfSome result (λ bytes. length bytes ≡ 4) }
{
    match id {
        Some(id) => Some(Bytes::of(alloc, &id.to_le_bytes()).unwrap()),
        None => None,
    }
}

// The exchange that puts an id, or none, back under a key.
fn back_to(key: &Bytes, id: Option<u32>) -> Back
    ensures { result ≡ Back.Link key.now id }
{
    Back::Link {
        key: key.copy(),
        id,
    }
}

impl MapKind for HashOuterKind {
    ghost seen = { λ h. record { attr = h.attr; contents = Links (ids_of h.table.entries); charge = charge_of h.attr; roomy = true } };

    fn attr(&self) -> MapAttr {
        self.attr
    }

    fn charge(&self) -> u64 {
        self.attr.charge()
    }

    fn is_fresh(&self) -> bool {
        self.table.len() == 0
    }

    fn read(&self, query: &Query) -> Result<MapReply, MapFault> {
        match query {
            Query::Lookup(key) => self.lookup(key),
            Query::Next(key) => self.next(key),
            Query::Item(number) => Ok(self.key(*number as usize)),
            Query::Peek => Err(MapFault::Errno(Errno::EINVAL)),
            Query::Count => Ok(MapReply::Count(self.table.len() as u32)),
        }
    }

    fn change(&mut self, op: &MapOp) -> Result<(MapReply, Back), MapFault> {
        match op {
            MapOp::Delete { key } => self.delete(key),
            MapOp::SetLink { key, id, flag } => self.set_link(key, *id, *flag),
            MapOp::Update {
                key: _,
                value: _,
                flag: _,
            }
            | MapOp::Push { value: _, flag: _ }
            | MapOp::Pop
            | MapOp::Store {
                key: _,
                offset: _,
                bytes: _,
            }
            | MapOp::Atomic {
                key: _,
                offset: _,
                size: _,
                op: _,
                operand: _,
            } => Err(MapFault::Errno(Errno::EINVAL)),
        }
    }

    fn fits(&self, back: &Back) -> bool {
        match back {
            Back::Link { key, id } => {
                key.len() == self.attr.key_size as usize && (id.is_none() || self.has_room(key))
            }
            Back::Key { key: _, value: _ }
            | Back::Ends {
                take_front: _,
                take_rear: _,
                put_front: _,
                put_rear: _,
            } => false,
        }
    }

    fn turn(&mut self, back: &mut Back) {
        if let Back::Link { key, id } = back {
            let before = self.exchange(key, *id);
            *id = before;
        }
    }
}
