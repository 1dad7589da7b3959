//! An array, with all its values in one block.

ghost use Rattle.std.specs.Prelude.{◌≡◌, ◌≤◌, ◌<◌, ◌↔◌, ◌≢◌, true, All, length, IfOk, IfErr, OnOk};
ghost use Rattle.bt_mapkind.specs.declared.attr.MapType.TheVariants.{Array};
ghost use Rattle.bt_mapkind.specs.Attributes.{charge_of, IsGoodFor};
ghost use Rattle.bt_mapkind.specs.Contents.{Values, fresh};
ghost use Rattle.bt_mapkind.specs.Seen.{Seen};
ghost use Rattle.bt_mapkind.specs.Index.{index_of};
ghost use Rattle.bt_mapkind.specs.Kept.{room_of};
ghost use Rattle.bt_mapkind.specs.Reply.{answer_with};
ghost use Rattle.bt_mapkind.specs.Step.{part_fault, value_set, values_step};
ghost use Rattle.bt_mapkind.specs.Read.{key_of_index};
ghost use Rattle.bt_mapkind.specs.Answers.{IsAnswer, IsChange, Follows, Replies};

use bt_mapkind::{
    AtomicOp, AtomicSize, Back, Bytes, Errno, KeptBack, MapAttr, MapFault, MapKind, MapOp,
    MapReply, MapType, NewFault, Query,
};
use map_block::Block;
use std::alloc::Global;

/// An array map. Its values lie in one block that is reserved when it is made, so no call after that takes memory.
#[derive(Drop)]
pub struct ArrayKind {
    alloc: Global,
    attr: MapAttr,
    values: Block,
    ghost good_attr: { IsGoodFor Array attr },
    ghost count: { length values ≡ attr.max_entries },
    ghost sizes: { All (λ v. length v ≡ attr.value_size) values },
}

impl ArrayKind {
    /// An array whose values are all zero. BadAttr for attributes that are not good, or of another type.
    pub fn new(alloc: Global, attr: MapAttr) -> Result<ArrayKind, NewFault>
        ensures fresh { IfOk result (λ a. ⟦<ArrayKind as MapKind>⟧.seen a ≡ record { attr = attr; contents = fresh attr; charge = charge_of attr; roomy = true }) }
        ensures bad_attr { (result ≡ Err NewFault.BadAttr) ↔ ¬ (IsGoodFor Array attr) }
    {
        if attr.kind != MapType::Array || !attr.good() {
            return Err(NewFault::BadAttr);
        }
        match Block::zeros(alloc, attr.max_entries as usize, attr.value_size as usize) {
            Ok(values) => Ok(ArrayKind {
                alloc,
                attr,
                values,
            }),
            Err(_) => Err(NewFault::NoMemory),
        }
    }

    // The key of an index.
    fn key_of(&self, index: u32) -> Bytes
        ensures { result ≡ key_of_index index }
    {
        Bytes::of(self.alloc, &index.to_le_bytes()).unwrap()
    }

    fn lookup(&self, key: &Bytes) -> Result<MapReply, MapFault>
        ensures answer { Replies self.now.attr (Values self.now.values) (Query.Lookup key.now) result }
        ensures room { result ≢ Err MapFault.NoMemory }
    {
        if key.len() != 4 {
            return Err(MapFault::Errno(Errno::EINVAL));
        }
        let place = key.index() as usize;
        if place >= self.values.len() {
            return Ok(MapReply::Nothing);
        }
        Ok(MapReply::Found {
            key: key.copy(),
            value: self.values.copy_of(place),
        })
    }

    fn next(&self, key: &Option<Bytes>) -> Result<MapReply, MapFault>
        ensures answer { Replies self.now.attr (Values self.now.values) (Query.Next key.now) result }
        ensures room { result ≢ Err MapFault.NoMemory }
    {
        let Some(key) = key else {
            return Ok(MapReply::Key(self.key_of(0)));
        };
        if key.len() != 4 {
            return Err(MapFault::Errno(Errno::EINVAL));
        }
        let index = key.index();
        if index >= self.attr.max_entries {
            return Ok(MapReply::Key(self.key_of(0)));
        }
        if index + 1 >= self.attr.max_entries {
            return Ok(MapReply::Nothing);
        }
        Ok(MapReply::Key(self.key_of(index + 1)))
    }

    fn item(&self, index: u32) -> MapReply
        ensures { Replies self.now.attr (Values self.now.values) (Query.Item index) (Ok result) }
    {
        if index >= self.attr.max_entries {
            return MapReply::Nothing;
        }
        MapReply::Found {
            key: self.key_of(index),
            value: self.values.copy_of(index as usize),
        }
    }

    // Where the value under a key lies, of which so many bytes from an offset on are to be written.
    fn place_of(&self, key: &Bytes, offset: u64, count: usize) -> Result<usize, Errno>
        ensures found { IfOk result (λ index. (part_fault self.now.attr self.now.values key.now offset count ≡ None) × (index ≡ index_of key.now)) }
        ensures errno { IfErr result (λ errno. part_fault self.now.attr self.now.values key.now offset count ≡ Some errno) }
    {
        if key.len() != 4 {
            return Err(Errno::EINVAL);
        }
        let index = key.index() as usize;
        if index >= self.values.len() {
            return Err(Errno::ENOENT);
        }
        let size = self.attr.value_size as usize;
        if count > size || offset > (size - count) as u64 {
            return Err(Errno::EINVAL);
        }
        Ok(index)
    }

    // Where the value under a key lies, in the place of which another is to be written.
    fn place_to_update(&self, key: &Bytes, value: &Bytes, flag: u64) -> Result<usize, Errno>
        ensures found { IfOk result (λ index. (values_step self.now.attr self.now.values (MapOp.Update key.now value.now flag) ≡ value_set self.now.values key.now value.now MapReply.Done) × (index ≡ index_of key.now)) }
        ensures there { IfOk result (λ index. index < length self.now.values) }
        ensures key_size { OnOk result (length key.now ≡ 4) }
        ensures value_size { OnOk result (length value.now ≡ self.now.attr.value_size) }
        ensures errno { IfErr result (λ errno. values_step self.now.attr self.now.values (MapOp.Update key.now value.now flag) ≡ Err errno) }
    {
        if flag > 2 || key.len() != 4 || value.len() != self.attr.value_size as usize {
            return Err(Errno::EINVAL);
        }
        let index = key.index() as usize;
        if index >= self.values.len() {
            return Err(Errno::E2BIG);
        }
        if flag == 1 {
            return Err(Errno::EEXIST);
        }
        Ok(index)
    }

    fn update(
        &mut self,
        key: &Bytes,
        value: &Bytes,
        flag: u64,
    ) -> Result<(MapReply, Back), MapFault>
        ensures step { Follows self.old.attr (Values self.old.values) (MapOp.Update key.now value.now flag) result (Values self.new.values) }
        ensures attr { self.new.attr ≡ self.old.attr }
        ensures room { result ≢ Err MapFault.NoMemory }
    {
        let index = match self.place_to_update(key, value, flag) {
            Ok(index) => index,
            Err(errno) => return Err(MapFault::Errno(errno)),
        };
        let mut before = value.copy();
        self.values.exchange(index, &mut before);
        Ok((MapReply::Done, back_to(key, before)))
    }

    fn update_into(
        &mut self,
        key: &Bytes,
        value: &Bytes,
        flag: u64,
        kept: &mut KeptBack,
    ) -> Result<(), MapFault>
        requires { room_of self.old.attr ≤ kept.old.room }
        ensures step { Follows self.old.attr (Values self.old.values) (MapOp.Update key.now value.now flag) (answer_with (MapOp.Update key.now value.now flag) result kept.new.back) (Values self.new.values) }
        ensures attr { self.new.attr ≡ self.old.attr }
        ensures room { result ≢ Err MapFault.NoMemory }
        ensures kept { kept.new.room ≡ kept.old.room }
    {
        let index = match self.place_to_update(key, value, flag) {
            Ok(index) => index,
            Err(errno) => return Err(MapFault::Errno(errno)),
        };
        kept.fill_keyed(key.as_slice(), self.values.row(index));
        self.values.replace(index, value.as_slice());
        Ok(())
    }

    fn store(
        &mut self,
        key: &Bytes,
        offset: u64,
        bytes: &Bytes,
    ) -> Result<(MapReply, Back), MapFault>
        ensures step { Follows self.old.attr (Values self.old.values) (MapOp.Store key.now offset bytes.now) result (Values self.new.values) }
        ensures attr { self.new.attr ≡ self.old.attr }
        ensures room { result ≢ Err MapFault.NoMemory }
    {
        let index = match self.place_of(key, offset, bytes.len()) {
            Ok(index) => index,
            Err(errno) => return Err(MapFault::Errno(errno)),
        };
        let before = self.values.copy_of(index);
        self.values.write(index, offset as usize, bytes.as_slice());
        Ok((MapReply::Done, back_to(key, before)))
    }

    fn store_into(
        &mut self,
        key: &Bytes,
        offset: u64,
        bytes: &Bytes,
        kept: &mut KeptBack,
    ) -> Result<(), MapFault>
        requires { room_of self.old.attr ≤ kept.old.room }
        ensures step { Follows self.old.attr (Values self.old.values) (MapOp.Store key.now offset bytes.now) (answer_with (MapOp.Store key.now offset bytes.now) result kept.new.back) (Values self.new.values) }
        ensures attr { self.new.attr ≡ self.old.attr }
        ensures room { result ≢ Err MapFault.NoMemory }
        ensures kept { kept.new.room ≡ kept.old.room }
    {
        let index = match self.place_of(key, offset, bytes.len()) {
            Ok(index) => index,
            Err(errno) => return Err(MapFault::Errno(errno)),
        };
        kept.fill_keyed(key.as_slice(), self.values.row(index));
        self.values.write(index, offset as usize, bytes.as_slice());
        Ok(())
    }

    fn combine(
        &mut self,
        key: &Bytes,
        offset: u64,
        size: AtomicSize,
        op: AtomicOp,
        operand: u64,
    ) -> Result<(MapReply, Back), MapFault>
        ensures step { Follows self.old.attr (Values self.old.values) (MapOp.Atomic key.now offset size op operand) result (Values self.new.values) }
        ensures attr { self.new.attr ≡ self.old.attr }
        ensures room { result ≢ Err MapFault.NoMemory }
    {
        let index = match self.place_of(key, offset, size.in_bytes()) {
            Ok(index) => index,
            Err(errno) => return Err(MapFault::Errno(errno)),
        };
        let before = self.values.copy_of(index);
        let reply = MapReply::of_atomic(op, before.part(offset as usize, size.in_bytes()));
        self.values
            .combine(index, offset as usize, op, size, operand);
        Ok((reply, back_to(key, before)))
    }

    fn combine_into(
        &mut self,
        key: &Bytes,
        offset: u64,
        size: AtomicSize,
        op: AtomicOp,
        operand: u64,
        kept: &mut KeptBack,
    ) -> Result<(), MapFault>
        requires { room_of self.old.attr ≤ kept.old.room }
        ensures step { Follows self.old.attr (Values self.old.values) (MapOp.Atomic key.now offset size op operand) (answer_with (MapOp.Atomic key.now offset size op operand) result kept.new.back) (Values self.new.values) }
        ensures attr { self.new.attr ≡ self.old.attr }
        ensures room { result ≢ Err MapFault.NoMemory }
        ensures kept { kept.new.room ≡ kept.old.room }
    {
        let index = match self.place_of(key, offset, size.in_bytes()) {
            Ok(index) => index,
            Err(errno) => return Err(MapFault::Errno(errno)),
        };
        kept.fill_keyed(key.as_slice(), self.values.row(index));
        self.values
            .combine(index, offset as usize, op, size, operand);
        Ok(())
    }
}

// The exchange that puts a value back under a key.
fn back_to(key: &Bytes, value: Bytes) -> Back
    ensures { result ≡ Back.Key key.now (Some value) }
{
    Back::Key {
        key: key.copy(),
        value: Some(value),
    }
}

impl MapKind for ArrayKind {
    ghost seen = { λ a. record { attr = a.attr; contents = Values a.values; charge = charge_of a.attr; roomy = true } };

    fn attr(&self) -> MapAttr {
        self.attr
    }

    fn charge(&self) -> u64 {
        self.attr.charge()
    }

    fn is_fresh(&self) -> bool {
        self.values.is_zero()
    }

    fn read(&self, query: &Query) -> Result<MapReply, MapFault> {
        match query {
            Query::Lookup(key) => self.lookup(key),
            Query::Next(key) => self.next(key),
            Query::Item(index) => Ok(self.item(*index)),
            Query::Peek => Err(MapFault::Errno(Errno::EINVAL)),
            Query::Count => Ok(MapReply::Count(self.attr.max_entries)),
        }
    }

    fn change(&mut self, op: &MapOp) -> Result<(MapReply, Back), MapFault> {
        match op {
            MapOp::Update { key, value, flag } => self.update(key, value, *flag),
            MapOp::Store { key, offset, bytes } => self.store(key, *offset, bytes),
            MapOp::Atomic {
                key,
                offset,
                size,
                op,
                operand,
            } => self.combine(key, *offset, *size, *op, *operand),
            MapOp::Delete { key: _ }
            | MapOp::Push { value: _, flag: _ }
            | MapOp::Pop
            | MapOp::SetLink {
                key: _,
                id: _,
                flag: _,
            } => Err(MapFault::Errno(Errno::EINVAL)),
        }
    }

    fn change_into(&mut self, op: &MapOp, kept: &mut KeptBack) -> Result<(), MapFault> {
        match op {
            MapOp::Update { key, value, flag } => self.update_into(key, value, *flag, kept),
            MapOp::Store { key, offset, bytes } => self.store_into(key, *offset, bytes, kept),
            MapOp::Atomic {
                key,
                offset,
                size,
                op,
                operand,
            } => self.combine_into(key, *offset, *size, *op, *operand, kept),
            MapOp::Delete { key: _ }
            | MapOp::Push { value: _, flag: _ }
            | MapOp::Pop
            | MapOp::SetLink {
                key: _,
                id: _,
                flag: _,
            } => Err(MapFault::Errno(Errno::EINVAL)),
        }
    }

    fn fits(&self, back: &Back) -> bool {
        match back {
            Back::Key {
                key,
                value: Some(value),
            } => {
                key.len() == 4
                    && value.len() == self.attr.value_size as usize
                    && (key.index() as usize) < self.values.len()
            }
            Back::Key {
                key: _,
                value: None,
            }
            | Back::Ends {
                take_front: _,
                take_rear: _,
                put_front: _,
                put_rear: _,
            }
            | Back::Link { key: _, id: _ } => false,
        }
    }

    fn turn(&mut self, back: &mut Back) {
        if let Back::Key { key, value } = back {
            let index = key.index() as usize;
            if let Some(value) = value {
                self.values.exchange(index, value);
            }
        }
    }
}
