//! A table of entries by key, in two blocks, with an order of its rows and chains of them.

ghost use Rattle.std.specs.Prelude.{◌≡◌, ◌+◌, ◌<◌, ◌≤◌, ◌^◌, [], length, nat_le, IfOk, IfErr, IfSome, MatchOption, slice_get, slice_index_or};
ghost use Rattle.std.specs.FinMap as map;
ghost use Rattle.std.specs.Option.{option_copied};
ghost use Rattle.bt_mapkind.specs.Atomic.{overwritten, part_of, size_in_bytes, bytes_after};
ghost use Rattle.bt_mapkind.specs.Exchange.{put_under};
ghost use Rattle.map_table.specs.Order.{IsPlace, IsGap};
ghost use Rattle.map_table.specs.Table.{key_after, put_fault, part_fault};

mod kept;

use crate::search::{place_among, row_of};
use bt_mapkind::{AtomicOp, AtomicSize, Bytes, Errno};
use map_block::Block;
use map_chains::{Chains, bucket_count, bucket_of, each_row};
use map_order::Order;
use std::alloc::{AllocError, Global};
use std::marker::Model;

/// Values under keys, of which there are at most so many. Its room is reserved when it is made. Keys and values lie in
/// rows of two blocks. Chains of the rows in buckets find a key with a few looks. An order has the rows of the entries by
/// ascending key, and finds a position by binary search; the rows that hold none are a stack. Contracts see the finite map,
/// the capacity and the sizes of a key and of a value.
#[derive(Drop)]
pub struct Table {
    order: Order,
    // The rows that hold no entry, from the place on that is the number of entries.
    free: Vec<u32>,
    chains: Chains,
    key_size: usize,
    value_size: usize,
    keys: Block,
    values: Block,
}

impl Model for Table {
    ghost use Rattle.std.specs.Prelude.{List, ℕ, length};
    ghost use Rattle.std.specs.FinMap.{from_sorted};
    ghost use Rattle.map_table.specs.Table.{Kept, kept_code, row_entries, all_rows};
    ghost use Rattle.map_table.specs.Index.{IsIndexedTable};

    ghost Value = { Kept };

    ghost coded = { kept_code };

    ghost view = { λ t. record { entries = from_sorted (row_entries (all_rows t.order.rows t.free.items) (length t.order.rows) t.keys t.values); capacity = length t.keys; key_size = t.key_size; value_size = t.value_size } };

    ghost invariant = { λ t. IsIndexedTable t.order t.free.items t.key_size t.value_size t.keys t.values t.chains };
}

impl Table {
    /// An empty table with room for `capacity` entries, with keys of `key_size` and values of `value_size` bytes.
    pub fn new(
        alloc: Global,
        capacity: usize,
        key_size: usize,
        value_size: usize,
    ) -> Result<Table, AllocError>
        requires few { capacity < 2 ^ 32 }
        requires small_keys { key_size ≤ 260 }
        requires small_values { value_size ≤ 260 }
        ensures { IfOk result (λ t. t ≡ record { entries = map.empty; capacity = capacity; key_size = key_size; value_size = value_size }) }
    {
        let order = Order::new(alloc, capacity)?;
        let free = each_row(alloc, capacity)?;
        let chains = Chains::new(alloc, capacity, bucket_count(capacity))?;
        let keys = Block::zeros(alloc, capacity, key_size)?;
        let values = Block::zeros(alloc, capacity, value_size)?;
        Ok(Table {
            order,
            free,
            chains,
            key_size,
            value_size,
            keys,
            values,
        })
    }

    /// How many entries there are.
    pub fn len(&self) -> usize
        ensures count { result ≡ map.len self.now.entries }
        ensures within { map.len self.now.entries ≤ self.now.capacity }
        ensures few { self.now.capacity < 2 ^ 32 }
    {
        self.order.len()
    }

    /// Whether a key is there.
    pub fn holds(&self, key: &Bytes) -> bool
        ensures { result ≡ map.contains_key self.now.entries key.now }
    {
        let key = key.as_slice();
        row_of(&self.chains, &self.keys, &self.order, key).is_some()
    }

    /// Why a value cannot be put under a key, if it cannot: EEXIST for a key that is there if the flag is 1, ENOENT for
    /// one that is not if it is 2, and `full` for a new key without room.
    pub fn put_fault(&self, key: &Bytes, flag: u64, full: Errno) -> Option<Errno>
        ensures { result ≡ put_fault self.now.capacity self.now.entries key.now flag full }
    {
        let is_full = self.is_full();
        if flag == 0 && !is_full {
            return None;
        }
        if self.holds(key) {
            return (flag == 1).then_some(Errno::EEXIST);
        }
        if flag == 2 {
            return Some(Errno::ENOENT);
        }
        is_full.then_some(full)
    }

    /// Why so many bytes from an offset on cannot be written into the value under a key, if they cannot: ENOENT for a key
    /// that is not there, EINVAL for a range past the value. A range within values is not looked up: a write tells
    /// whether the key is there.
    pub fn part_fault(&self, key: &Bytes, offset: u64, count: usize) -> Option<Errno>
        ensures { MatchOption result (offset + count ≤ self.now.value_size) (λ errno. part_fault self.now.value_size self.now.entries key.now offset count ≡ Some errno) }
    {
        if count <= self.value_size && offset <= (self.value_size - count) as u64 {
            return None;
        }
        if self.holds(key) {
            return Some(Errno::EINVAL);
        }
        Some(Errno::ENOENT)
    }

    // Whether there is no room for another key.
    fn is_full(&self) -> bool
        ensures { result ≡ nat_le self.now.capacity (map.len self.now.entries) }
    {
        self.keys.len() <= self.order.len()
    }

    /// The value under a key, if the key is there.
    pub fn get(&self, key: &Bytes) -> Option<&[u8]>
        ensures value { option_copied result ≡ map.get self.now.entries key.now }
        ensures small { IfSome result (λ value. length value.now ≤ 260) }
    {
        let key = key.as_slice();
        let Some(row) = row_of(&self.chains, &self.keys, &self.order, key) else {
            return None;
        };
        Some(self.values.row(row))
    }

    /// Copies of the key and the value of entry `index`, in ascending order of the keys, if there are so many.
    pub fn nth(&self, index: usize) -> Option<(Bytes, Bytes)>
        ensures { result ≡ slice_get (map.entries self.now.entries) index }
    {
        if index >= self.len() {
            return None;
        }
        Some((self.key_at(index), self.value_at(index)))
    }

    /// A copy of key `index`, in ascending order, if there are so many.
    pub fn nth_key(&self, index: usize) -> Option<Bytes>
        ensures { result ≡ slice_get (map.keys self.now.entries) index }
    {
        if index >= self.len() {
            return None;
        }
        Some(self.key_at(index))
    }

    /// A copy of the least key above a key, which need not be there itself.
    pub fn after(&self, key: &Bytes) -> Option<Bytes>
        ensures { result ≡ key_after self.now.entries key.now }
    {
        match self.place_of(key) {
            Ok(place) => self.nth_key(place + 1),
            Err(place) => self.nth_key(place),
        }
    }

    /// Puts other bytes into the value under a key, from `offset` on, if the key is there. Gives the value before.
    pub fn write_in(&mut self, key: &Bytes, offset: usize, bytes: &[u8]) -> Option<Bytes>
        requires { offset + length bytes.now ≤ self.old.value_size }
        ensures before { result ≡ map.get self.old.entries key.now }
        ensures written { MatchOption result (self.new ≡ self.old) (λ before. self.new ≡ record self.old { entries = map.insert self.old.entries key.now (overwritten before offset bytes.now) }) }
    {
        let key = key.as_slice();
        let Some(row) = row_of(&self.chains, &self.keys, &self.order, key) else {
            return None;
        };
        let before = self.values.copy_of(row);
        self.values.write(row, offset, bytes);
        Some(before)
    }

    /// Does an atomic instruction on the value under a key, from `offset` on, if the key is there. Gives the value
    /// before.
    pub fn combine_in(
        &mut self,
        key: &Bytes,
        offset: usize,
        op: AtomicOp,
        size: AtomicSize,
        operand: u64,
    ) -> Option<Bytes>
        requires { offset + size_in_bytes size ≤ self.old.value_size }
        ensures before { result ≡ map.get self.old.entries key.now }
        ensures combined { MatchOption result (self.new ≡ self.old) (λ before. self.new ≡ record self.old { entries = map.insert self.old.entries key.now (overwritten before offset (bytes_after op size operand (part_of before offset (size_in_bytes size)))) }) }
    {
        let key = key.as_slice();
        let Some(row) = row_of(&self.chains, &self.keys, &self.order, key) else {
            return None;
        };
        let before = self.values.copy_of(row);
        self.values.combine(row, offset, op, size, operand);
        Some(before)
    }

    /// Puts a value under a key, or takes the key away. Gives what stood there.
    pub fn exchange(&mut self, key: &Bytes, value: Option<Bytes>) -> Option<Bytes>
        requires key_size { length key.now ≡ self.old.key_size }
        requires value_size { IfSome value (λ new. length new ≡ self.old.value_size) }
        requires room { IfSome value (λ _. map.get self.old.entries key.now ≡ None → map.len self.old.entries < self.old.capacity) }
        ensures put { self.new ≡ record self.old { entries = put_under self.old.entries key.now value } }
        ensures before { result ≡ map.get self.old.entries key.now }
    {
        match value {
            Some(value) => self.set(key, value.as_slice()),
            None => self.remove(key),
        }
    }

    /// Puts a value under a key, and gives the one before.
    pub fn set(&mut self, key: &Bytes, value: &[u8]) -> Option<Bytes>
        requires key_size { length key.now ≡ self.old.key_size }
        requires value_size { length value.now ≡ self.old.value_size }
        requires room { map.get self.old.entries key.now ≡ None → map.len self.old.entries < self.old.capacity }
        ensures put { self.new ≡ record self.old { entries = map.insert self.old.entries key.now value.now } }
        ensures before { result ≡ map.get self.old.entries key.now }
    {
        let bytes = key.as_slice();
        let Some(row) = row_of(&self.chains, &self.keys, &self.order, bytes) else {
            self.put(key, value);
            return None;
        };
        let before = self.values.copy_of(row);
        self.values.write(row, 0, value);
        Some(before)
    }

    // Takes a key away, and gives its value.
    fn remove(&mut self, key: &Bytes) -> Option<Bytes>
        ensures removed { self.new ≡ record self.old { entries = map.remove self.old.entries key.now } }
        ensures before { result ≡ map.get self.old.entries key.now }
    {
        match self.place_of(key) {
            Ok(place) => {
                let before = self.value_at(place);
                self.take(place);
                Some(before)
            }
            Err(_) => None,
        }
    }

    // The place of a key among the ascending keys, or in `Err` the place where it would go.
    fn place_of(&self, key: &Bytes) -> Result<usize, usize>
        ensures found { IfOk result (IsPlace (map.keys self.now.entries) key.now) }
        ensures absent { IfErr result (IsGap (map.keys self.now.entries) key.now) }
        ensures few { map.len self.now.entries < 2 ^ 32 }
    {
        place_among(&self.keys, &self.order, key.as_slice())
    }

    // A copy of the key at a place.
    fn key_at(&self, place: usize) -> Bytes
        requires { place < map.len self.now.entries }
        ensures { result ≡ slice_index_or (map.keys self.now.entries) place [] }
    {
        self.keys.copy_of(self.order.get(place) as usize)
    }

    // A copy of the value at a place.
    fn value_at(&self, place: usize) -> Bytes
        requires { place < map.len self.now.entries }
        ensures { result ≡ slice_index_or (map.values self.now.entries) place [] }
    {
        self.values.copy_of(self.order.get(place) as usize)
    }

    // The value at a place.
    fn value_row(&self, place: usize) -> &[u8]
        requires { place < map.len self.now.entries }
        ensures value { result.now ≡ slice_index_or (map.values self.now.entries) place [] }
        ensures size { length result.now ≡ self.now.value_size }
        ensures small { length result.now ≤ 260 }
    {
        self.values.row(self.order.get(place) as usize)
    }

    // Takes the entry at a place away. Its row is the first of those that hold none.
    fn take(&mut self, place: usize)
        requires { place < map.len self.old.entries }
        ensures { self.new ≡ record self.old { entries = map.remove self.old.entries (slice_index_or (map.keys self.old.entries) place []) } }
    {
        let row = self.order.remove(place);
        self.chains.unlink(row as usize);
        let left = self.order.len();
        self.free[left] = row;
    }

    /// Puts an entry under a key that is not there.
    pub fn put(&mut self, key: &Bytes, value: &[u8])
        requires absent { map.get self.old.entries key.now ≡ None }
        requires room { map.len self.old.entries < self.old.capacity }
        requires key_size { length key.now ≡ self.old.key_size }
        requires value_size { length value.now ≡ self.old.value_size }
        ensures { self.new ≡ record self.old { entries = map.insert self.old.entries key.now value.now } }
    {
        let place = self.gap_of(key);
        let bytes = key.as_slice();
        let row = self.free[self.order.len()];
        self.keys.write(row as usize, 0, bytes);
        self.values.write(row as usize, 0, value);
        self.order.insert(place, row);
        let bucket = bucket_of(bytes, self.chains.len());
        self.chains.link(bucket, row as usize);
    }

    // The place where a key that is not there would go.
    fn gap_of(&self, key: &Bytes) -> usize
        requires { map.get self.now.entries key.now ≡ None }
        ensures { IsGap (map.keys self.now.entries) key.now result }
    {
        match self.place_of(key) {
            Ok(_) => unreachable!(),
            Err(place) => place,
        }
    }
}
