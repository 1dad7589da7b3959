//! A map of entries under addresses, over a table.

ghost use Rattle.std.specs.Prelude.{◌≡◌, ◌↔◌, ◌≢◌, true, length, IfOk, IsTrue};
ghost use Rattle.std.specs.FinMap as map;
ghost use Rattle.bt_mapkind.specs.Attributes.{charge_of, IsGoodFor};
ghost use Rattle.bt_mapkind.specs.Contents.{Entries, fresh};
ghost use Rattle.bt_mapkind.specs.Seen.{Seen};
ghost use Rattle.bt_mapkind.specs.Prefix.{address};
ghost use Rattle.bt_mapkind.specs.Answers.{IsAnswer, IsChange, Follows, Replies};
ghost use Rattle.bt_mapkind.specs.Exchange.{has_room, is_address, entries_fit, put_under};
ghost use Rattle.bt_hash.specs.Held.{IsHeld};

mod kept;
mod parts;

use crate::address::Address;
use crate::addressing::Addressing;
use bt_mapkind::{
    Back, Bytes, Errno, KeptBack, MapAttr, MapFault, MapKind, MapOp, MapReply, NewFault, Query,
};
use map_table::Table;
use std::alloc::Global;

/// A map of entries, each under the address of its key. All its room is reserved when it is made, so no call after that
/// takes memory. The entries of a dump and the keys of a walk come in ascending order of their bytes.
#[derive(Drop)]
pub struct EntriesKind<A: Addressing> {
    alloc: Global,
    attr: MapAttr,
    table: Table,
    index: A,
    ghost held: { IsHeld A.serves attr table },
    ghost indexed: { ∥ A.indexes index table ∥₁ },
}

impl<A: Addressing + Send> EntriesKind<A> {
    /// An empty map. BadAttr for attributes that are not good, or of another type.
    pub fn new(alloc: Global, attr: MapAttr) -> Result<EntriesKind<A>, NewFault>
        ensures fresh { IfOk result (λ map. ⟦<EntriesKind<A> as MapKind>⟧.seen map ≡ record { attr = attr; contents = fresh attr; charge = charge_of attr; roomy = true }) }
        ensures bad_attr { (result ≡ Err NewFault.BadAttr) ↔ ¬ (IsGoodFor A.serves attr) }
    {
        if attr.kind != A::map_type() || !attr.good() {
            return Err(NewFault::BadAttr);
        }
        let key_size = attr.key_size as usize;
        let value_size = attr.value_size as usize;
        let Ok(table) = Table::new(alloc, attr.max_entries as usize, key_size, value_size) else {
            return Err(NewFault::NoMemory);
        };
        let Ok(index) = A::new(alloc, attr) else {
            return Err(NewFault::NoMemory);
        };
        Ok(EntriesKind {
            alloc,
            attr,
            table,
            index,
        })
    }
}

impl<A: Addressing> EntriesKind<A> {
    // The address of a key of the map's size.
    fn address<'k>(&self, key: &'k Bytes) -> Option<Address<'k>>
        requires { length key.now ≡ self.now.attr.key_size }
        ensures { result ≡ address self.now.attr key.now }
    {
        A::address(self.alloc, self.attr, key)
    }

    fn next(&self, key: &Option<Bytes>) -> Result<MapReply, MapFault>
        ensures answer { Replies self.now.attr (Entries self.now.table.entries) (Query.Next key.now) result }
        ensures room { result ≢ Err MapFault.NoMemory }
    {
        let Some(key) = key else {
            return Ok(MapReply::of_key(self.table.nth_key(0)));
        };
        if key.len() != self.attr.key_size as usize {
            return Err(MapFault::Errno(Errno::EINVAL));
        }
        if let Some(address) = self.address(key) {
            let stored = address.bytes();
            if self.table.holds(stored) {
                return Ok(MapReply::of_key(self.table.after(stored)));
            }
        }
        Ok(MapReply::of_key(self.table.nth_key(0)))
    }

    // Whether a key is one under which an entry can stand.
    fn is_address(&self, key: &Bytes) -> bool
        requires { length key.now ≡ self.now.attr.key_size }
        ensures { result ≡ is_address self.now.attr key.now }
    {
        match self.address(key) {
            Some(address) => *address.bytes() == *key,
            None => false,
        }
    }

    // Whether an address is there, or one more has room.
    fn has_room(&self, stored: &Bytes) -> bool
        ensures { result ≡ has_room self.now.attr self.now.table.entries stored.now }
    {
        self.table.len() < self.attr.max_entries as usize || self.table.holds(stored)
    }

    // Whether a value can be put under a key as it stands, or the key taken away.
    fn takes(&self, key: &Bytes, value: &Option<Bytes>) -> bool
        ensures { result ≡ entries_fit self.now.attr self.now.table.entries (Back.Key key.now value.now) }
    {
        if key.len() != self.attr.key_size as usize || !self.is_address(key) {
            return false;
        }
        let Some(value) = value else {
            return true;
        };
        value.len() == self.attr.value_size as usize && self.has_room(key)
    }

    // Puts a value under an address, or takes the address away. Gives what stood there.
    fn exchange(&mut self, stored: &Bytes, value: Option<Bytes>) -> Option<Bytes>
        requires { IsTrue (entries_fit self.old.attr self.old.table.entries (Back.Key stored.now value)) }
        ensures put { self.new.table.entries ≡ put_under self.old.table.entries stored.now value }
        ensures before { result ≡ map.get self.old.table.entries stored.now }
        ensures attr { self.new.attr ≡ self.old.attr }
    {
        match value {
            Some(value) => self.put(stored, value.as_slice()),
            None => self.take(stored),
        }
    }

    // Puts a value under an address, and gives the one before.
    fn put(&mut self, stored: &Bytes, value: &[u8]) -> Option<Bytes>
        requires { IsTrue (entries_fit self.old.attr self.old.table.entries (Back.Key stored.now (Some value.now))) }
        ensures put { self.new.table.entries ≡ map.insert self.old.table.entries stored.now value.now }
        ensures before { result ≡ map.get self.old.table.entries stored.now }
        ensures attr { self.new.attr ≡ self.old.attr }
    {
        let before = self.table.set(stored, value);
        if before.is_none() {
            self.index.insert(self.attr, &self.table, stored);
        }
        before
    }

    // Takes an address away, and gives its value.
    fn take(&mut self, stored: &Bytes) -> Option<Bytes>
        requires { IsTrue (entries_fit self.old.attr self.old.table.entries (Back.Key stored.now None)) }
        ensures put { self.new.table.entries ≡ map.remove self.old.table.entries stored.now }
        ensures before { result ≡ map.get self.old.table.entries stored.now }
        ensures attr { self.new.attr ≡ self.old.attr }
    {
        let before = self.table.exchange(stored, None);
        if before.is_some() {
            self.index.remove(&self.table, stored);
        }
        before
    }

    fn update(
        &mut self,
        key: &Bytes,
        value: &Bytes,
        flag: u64,
    ) -> Result<(MapReply, Back), MapFault>
        ensures step { Follows self.old.attr (Entries self.old.table.entries) (MapOp.Update key.now value.now flag) result (Entries self.new.table.entries) }
        ensures attr { self.new.attr ≡ self.old.attr }
        ensures room { result ≢ Err MapFault.NoMemory }
    {
        if flag > 2
            || key.len() != self.attr.key_size as usize
            || value.len() != self.attr.value_size as usize
        {
            return Err(MapFault::Errno(Errno::EINVAL));
        }
        let Some(address) = self.address(key) else {
            return Err(MapFault::Errno(Errno::EINVAL));
        };
        let stored = address.bytes();
        if let Some(errno) = self.table.put_fault(stored, flag, A::full()) {
            return Err(MapFault::Errno(errno));
        }
        let before = self.put(stored, value.as_slice());
        Ok((MapReply::Done, back_to(address, before)))
    }

    fn delete(&mut self, key: &Bytes) -> Result<(MapReply, Back), MapFault>
        ensures step { Follows self.old.attr (Entries self.old.table.entries) (MapOp.Delete key.now) result (Entries self.new.table.entries) }
        ensures attr { self.new.attr ≡ self.old.attr }
        ensures room { result ≢ Err MapFault.NoMemory }
    {
        if key.len() != self.attr.key_size as usize {
            return Err(MapFault::Errno(Errno::EINVAL));
        }
        let Some(address) = self.address(key) else {
            return Err(MapFault::Errno(Errno::EINVAL));
        };
        let stored = address.bytes();
        match self.take(stored) {
            Some(before) => Ok((MapReply::Done, back_to(address, Some(before)))),
            None => Err(MapFault::Errno(Errno::ENOENT)),
        }
    }
}

// The exchange that puts back what stood under an address.
fn back_to(address: Address<'_>, value: Option<Bytes>) -> Back
    ensures { result ≡ Back.Key address.entry value }
{
    Back::Key {
        key: address.into_bytes(),
        value,
    }
}

impl<A: Addressing + Send> MapKind for EntriesKind<A> {
    ghost seen = { λ h. record { attr = h.attr; contents = Entries h.table.entries; charge = charge_of h.attr; roomy = true } };

    fn attr(&self) -> MapAttr {
        self.attr
    }

    fn charge(&self) -> u64 {
        self.attr.charge()
    }

    fn is_fresh(&self) -> bool {
        self.table.len() == 0
    }

    fn read(&self, query: &Query) -> Result<MapReply, MapFault> {
        match query {
            Query::Lookup(key) => self.index.lookup(self.alloc, self.attr, &self.table, key),
            Query::Next(key) => self.next(key),
            Query::Item(index) => Ok(MapReply::of_entry(self.table.nth(*index as usize))),
            Query::Peek => Err(MapFault::Errno(Errno::EINVAL)),
            Query::Count => Ok(MapReply::Count(self.table.len() as u32)),
        }
    }

    fn change(&mut self, op: &MapOp) -> Result<(MapReply, Back), MapFault> {
        match op {
            MapOp::Update { key, value, flag } => self.update(key, value, *flag),
            MapOp::Delete { key } => self.delete(key),
            MapOp::Store { key, offset, bytes } => self.store(key, *offset, bytes),
            MapOp::Atomic {
                key,
                offset,
                size,
                op,
                operand,
            } => self.combine(key, *offset, *size, *op, *operand),
            MapOp::Push { value: _, flag: _ }
            | MapOp::Pop
            | MapOp::SetLink {
                key: _,
                id: _,
                flag: _,
            } => Err(MapFault::Errno(Errno::EINVAL)),
        }
    }

    fn change_into(&mut self, op: &MapOp, kept: &mut KeptBack) -> Result<(), MapFault> {
        match op {
            MapOp::Update { key, value, flag } => self.update_into(key, value, *flag, kept),
            MapOp::Delete { key } => self.delete_into(key, kept),
            MapOp::Store { key, offset, bytes } => self.store_into(key, *offset, bytes, kept),
            MapOp::Atomic {
                key,
                offset,
                size,
                op,
                operand,
            } => self.combine_into(key, *offset, *size, *op, *operand, kept),
            MapOp::Push { value: _, flag: _ }
            | MapOp::Pop
            | MapOp::SetLink {
                key: _,
                id: _,
                flag: _,
            } => Err(MapFault::Errno(Errno::EINVAL)),
        }
    }

    fn fits(&self, back: &Back) -> bool {
        match back {
            Back::Key { key, value } => self.takes(key, value),
            Back::Ends {
                take_front: _,
                take_rear: _,
                put_front: _,
                put_rear: _,
            }
            | Back::Link { key: _, id: _ } => false,
        }
    }

    fn turn(&mut self, back: &mut Back) {
        if let Back::Key { key, value } = back {
            let put = value.take();
            *value = self.exchange(key, put);
        }
    }
}
