//! What arrays of maps and program arrays share: a map of an id or none by index.

ghost use Rattle.std.specs.Prelude.{◌≡◌, ◌↔◌, ◌≢◌, ◌<◌, true, length, IfOk, SomeIff};
ghost use Rattle.bt_mapkind.specs.Attributes.{charge_of, IsGoodFor};
ghost use Rattle.bt_mapkind.specs.Contents.{Slots, fresh};
ghost use Rattle.bt_mapkind.specs.Seen.{Seen};
ghost use Rattle.bt_mapkind.specs.Well.{OfSlots, shape_of_type};
ghost use Rattle.bt_mapkind.specs.Index.{index_of};
ghost use Rattle.bt_mapkind.specs.Read.{key_of_index};
ghost use Rattle.bt_mapkind.specs.Answers.{IsAnswer, IsChange, Follows, Replies};
ghost use Rattle.bt_nested.specs.Held.{IsArrayOfIds};

use crate::slots::IdSlots;
use bt_mapkind::{
    Back, Bytes, Errno, MapAttr, MapFault, MapKind, MapOp, MapReply, MapType, NewFault, Query,
};
use std::alloc::Global;

/// An array of maps or a program array, as its attributes say. All its room is reserved when it is made, so no call
/// after that takes memory.
#[derive(Drop)]
pub struct SlotsKind {
    alloc: Global,
    attr: MapAttr,
    slots: IdSlots,
    ghost held: { IsArrayOfIds attr slots },
}

impl SlotsKind {
    /// A map of `kind`, an array of maps or a program array, with no id. BadAttr for attributes that are not good, or
    /// of another type.
    pub fn new(alloc: Global, kind: MapType, attr: MapAttr) -> Result<SlotsKind, NewFault>
        requires { shape_of_type kind ≡ OfSlots }
        ensures fresh { IfOk result (λ s. ⟦<SlotsKind as MapKind>⟧.seen s ≡ record { attr = attr; contents = fresh attr; charge = charge_of attr; roomy = true }) }
        ensures bad_attr { (result ≡ Err NewFault.BadAttr) ↔ ¬ (IsGoodFor kind attr) }
    {
        if attr.kind != kind || !attr.good() {
            return Err(NewFault::BadAttr);
        }
        match IdSlots::new(alloc, attr.max_entries as usize) {
            Ok(slots) => Ok(SlotsKind { alloc, attr, slots }),
            Err(_) => Err(NewFault::NoMemory),
        }
    }

    // The key of an index.
    fn key_of(&self, index: u32) -> Bytes
        ensures { result ≡ key_of_index index }
    {
        Bytes::of(self.alloc, &index.to_le_bytes()).unwrap()
    }

    // The index that a key names; none past the last slot.
    fn slot_of(&self, key: &Bytes) -> Option<usize>
        requires { length key.now ≡ 4 }
        ensures { SomeIff result (index_of key.now < length self.now.slots) (index_of key.now) }
    {
        let index = key.index() as usize;
        (index < self.slots.len()).then_some(index)
    }

    fn lookup(&self, key: &Bytes) -> Result<MapReply, MapFault>
        ensures answer { Replies self.now.attr (Slots self.now.slots) (Query.Lookup key.now) result }
        ensures room { result ≢ Err MapFault.NoMemory }
    {
        if key.len() != 4 {
            return Err(MapFault::Errno(Errno::EINVAL));
        }
        let Some(index) = self.slot_of(key) else {
            return Ok(MapReply::Nothing);
        };
        match self.slots.id(index) {
            Some(id) => Ok(MapReply::Link(id)),
            None => Ok(MapReply::Nothing),
        }
    }

    fn next(&self, key: &Option<Bytes>) -> Result<MapReply, MapFault>
        ensures answer { Replies self.now.attr (Slots self.now.slots) (Query.Next key.now) result }
        ensures room { result ≢ Err MapFault.NoMemory }
    {
        let Some(key) = key else {
            return Ok(MapReply::Key(self.key_of(0)));
        };
        if key.len() != 4 {
            return Err(MapFault::Errno(Errno::EINVAL));
        }
        let index = key.index();
        if index >= self.attr.max_entries {
            return Ok(MapReply::Key(self.key_of(0)));
        }
        if index + 1 >= self.attr.max_entries {
            return Ok(MapReply::Nothing);
        }
        Ok(MapReply::Key(self.key_of(index + 1)))
    }

    // The key of the filled slot of this number.
    fn item(&self, number: u32) -> MapReply
        ensures { Replies self.now.attr (Slots self.now.slots) (Query.Item number) (Ok result) }
    {
        if number as usize >= self.slots.filled_len() {
            return MapReply::Nothing;
        }
        MapReply::Key(self.key_of(self.slots.filled_index(number as usize)))
    }

    fn delete(&mut self, key: &Bytes) -> Result<(MapReply, Back), MapFault>
        ensures step { Follows self.old.attr (Slots self.old.slots) (MapOp.Delete key.now) result (Slots self.new.slots) }
        ensures attr { self.new.attr ≡ self.old.attr }
        ensures room { result ≢ Err MapFault.NoMemory }
    {
        if key.len() != 4 {
            return Err(MapFault::Errno(Errno::EINVAL));
        }
        let Some(index) = self.slot_of(key) else {
            return Err(MapFault::Errno(Errno::E2BIG));
        };
        match self.slots.exchange(index, None) {
            Some(before) => Ok((MapReply::Done, back_to(key, Some(before)))),
            None => Err(MapFault::Errno(Errno::ENOENT)),
        }
    }

    fn set_link(&mut self, key: &Bytes, id: u32, flag: u64) -> Result<(MapReply, Back), MapFault>
        ensures step { Follows self.old.attr (Slots self.old.slots) (MapOp.SetLink key.now id flag) result (Slots self.new.slots) }
        ensures attr { self.new.attr ≡ self.old.attr }
        ensures room { result ≢ Err MapFault.NoMemory }
    {
        if key.len() != 4 || flag != 0 {
            return Err(MapFault::Errno(Errno::EINVAL));
        }
        let Some(index) = self.slot_of(key) else {
            return Err(MapFault::Errno(Errno::E2BIG));
        };
        let before = self.slots.exchange(index, Some(id));
        Ok((MapReply::Done, back_to(key, before)))
    }
}

// The exchange that puts an id, or none, back under a key.
fn back_to(key: &Bytes, id: Option<u32>) -> Back
    ensures { result ≡ Back.Link key.now id }
{
    Back::Link {
        key: key.copy(),
        id,
    }
}

impl MapKind for SlotsKind {
    ghost seen = { λ s. record { attr = s.attr; contents = Slots s.slots; charge = charge_of s.attr; roomy = true } };

    fn attr(&self) -> MapAttr {
        self.attr
    }

    fn charge(&self) -> u64 {
        self.attr.charge()
    }

    fn is_fresh(&self) -> bool {
        self.slots.filled_len() == 0
    }

    fn read(&self, query: &Query) -> Result<MapReply, MapFault> {
        match query {
            Query::Lookup(key) => self.lookup(key),
            Query::Next(key) => self.next(key),
            Query::Item(number) => Ok(self.item(*number)),
            Query::Peek => Err(MapFault::Errno(Errno::EINVAL)),
            Query::Count => Ok(MapReply::Count(self.slots.filled_len() as u32)),
        }
    }

    fn change(&mut self, op: &MapOp) -> Result<(MapReply, Back), MapFault> {
        match op {
            MapOp::Delete { key } => self.delete(key),
            MapOp::SetLink { key, id, flag } => self.set_link(key, *id, *flag),
            MapOp::Update {
                key: _,
                value: _,
                flag: _,
            }
            | MapOp::Push { value: _, flag: _ }
            | MapOp::Pop
            | MapOp::Store {
                key: _,
                offset: _,
                bytes: _,
            }
            | MapOp::Atomic {
                key: _,
                offset: _,
                size: _,
                op: _,
                operand: _,
            } => Err(MapFault::Errno(Errno::EINVAL)),
        }
    }

    fn fits(&self, back: &Back) -> bool {
        match back {
            Back::Link { key, id: _ } => key.len() == 4 && self.slot_of(key).is_some(),
            Back::Key { key: _, value: _ }
            | Back::Ends {
                take_front: _,
                take_rear: _,
                put_front: _,
                put_rear: _,
            } => false,
        }
    }

    fn turn(&mut self, back: &mut Back) {
        if let Back::Link { key, id } = back {
            let index = key.index() as usize;
            let before = self.slots.exchange(index, *id);
            *id = before;
        }
    }
}
