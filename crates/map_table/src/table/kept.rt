//! Changes of a table whose exchange is kept in a block, so that no value is copied on the way.

ghost use Rattle.std.specs.Prelude.{◌≡◌, ◌≢◌, ◌+◌, ◌≤◌, length, not, IfOk, IfErr, OnOk, OnErr, MatchOption};
ghost use Rattle.std.specs.FinMap as map;
ghost use Rattle.bt_mapkind.specs.Atomic.{overwritten, part_of, size_in_bytes, bytes_after};
ghost use Rattle.map_table.specs.Table.{put_fault};

use crate::search::row_of;
use crate::table::Table;
use bt_mapkind::{AtomicOp, AtomicSize, Back, Bytes, Errno, KeptBack};

impl Table {
    /// Puts a value under a key, and keeps the exchange that takes this back. Gives whether the key is new; or why the value
    /// cannot be put, as [`Table::put_fault`] does.
    pub fn put_into(
        &mut self,
        key: &Bytes,
        value: &[u8],
        flag: u64,
        full: Errno,
        kept: &mut KeptBack,
    ) -> Result<bool, Errno>
        requires key_size { length key.now ≡ self.old.key_size }
        requires value_size { length value.now ≡ self.old.value_size }
        requires room { self.old.key_size + self.old.value_size ≤ kept.old.room }
        ensures fresh { IfOk result (λ fresh. fresh ≡ not (map.contains_key self.old.entries key.now)) }
        ensures free { OnOk result (put_fault self.old.capacity self.old.entries key.now flag full ≡ None) }
        ensures put { OnOk result (self.new ≡ record self.old { entries = map.insert self.old.entries key.now value.now }) }
        ensures kept { OnOk result (kept.new ≡ record kept.old { back = Back.Key key.now (map.get self.old.entries key.now) }) }
        ensures errno { IfErr result (λ errno. put_fault self.old.capacity self.old.entries key.now flag full ≡ Some errno) }
        ensures same { OnErr result (self.new ≡ self.old) }
        ensures as_before { OnErr result (kept.new ≡ kept.old) }
    {
        if flag == 1 {
            return self.add_into(key, value, flag, full, kept);
        }
        if !self.replace_into(key, value, kept) {
            return self.add_into(key, value, flag, full, kept);
        }
        Ok(false)
    }

    // What `put_into` does with a new key, which only flag 1 leaves to be tested.
    fn add_into(
        &mut self,
        key: &Bytes,
        value: &[u8],
        flag: u64,
        full: Errno,
        kept: &mut KeptBack,
    ) -> Result<bool, Errno>
        requires absent { flag ≢ 1 → map.get self.old.entries key.now ≡ None }
        requires key_size { length key.now ≡ self.old.key_size }
        requires value_size { length value.now ≡ self.old.value_size }
        requires room { self.old.key_size ≤ kept.old.room }
        ensures fresh { IfOk result (λ fresh. fresh ≡ not (map.contains_key self.old.entries key.now)) }
        ensures free { OnOk result (put_fault self.old.capacity self.old.entries key.now flag full ≡ None) }
        ensures put { OnOk result (self.new ≡ record self.old { entries = map.insert self.old.entries key.now value.now }) }
        ensures kept { OnOk result (kept.new ≡ record kept.old { back = Back.Key key.now (map.get self.old.entries key.now) }) }
        ensures errno { IfErr result (λ errno. put_fault self.old.capacity self.old.entries key.now flag full ≡ Some errno) }
        ensures same { OnErr result (self.new ≡ self.old) }
        ensures as_before { OnErr result (kept.new ≡ kept.old) }
    {
        if let Some(errno) = self.put_fault(key, flag, full) {
            return Err(errno);
        }
        self.put(key, value);
        kept.fill(&Back::Key {
            key: key.copy(),
            value: None,
        });
        Ok(true)
    }

    // Puts a value in the place of the one under a key, and keeps the exchange that puts that one back, if the key is
    // there. Gives whether it is.
    fn replace_into(&mut self, key: &Bytes, value: &[u8], kept: &mut KeptBack) -> bool
        requires value_size { length value.now ≡ self.old.value_size }
        requires room { length key.now + self.old.value_size ≤ kept.old.room }
        ensures there { result ≡ map.contains_key self.old.entries key.now }
        ensures replaced { MatchOption (map.get self.old.entries key.now) (self.new ≡ self.old) (λ _. self.new ≡ record self.old { entries = map.insert self.old.entries key.now value.now }) }
        ensures kept { MatchOption (map.get self.old.entries key.now) (kept.new ≡ kept.old) (λ before. kept.new ≡ record kept.old { back = Back.Key key.now (Some before) }) }
    {
        let key = key.as_slice();
        let Some(row) = row_of(&self.chains, &self.keys, &self.order, key) else {
            return false;
        };
        kept.fill_keyed(key, self.values.row(row));
        self.values.write(row, 0, value);
        true
    }

    /// What [`Table::write_in`] does, with the exchange that puts the value before back kept. Gives whether the key is
    /// there.
    pub fn write_into(
        &mut self,
        key: &Bytes,
        offset: usize,
        bytes: &[u8],
        kept: &mut KeptBack,
    ) -> bool
        requires within { offset + length bytes.now ≤ self.old.value_size }
        requires room { length key.now + self.old.value_size ≤ kept.old.room }
        ensures there { result ≡ map.contains_key self.old.entries key.now }
        ensures written { MatchOption (map.get self.old.entries key.now) (self.new ≡ self.old) (λ before. self.new ≡ record self.old { entries = map.insert self.old.entries key.now (overwritten before offset bytes.now) }) }
        ensures kept { MatchOption (map.get self.old.entries key.now) (kept.new ≡ kept.old) (λ before. kept.new ≡ record kept.old { back = Back.Key key.now (Some before) }) }
    {
        let key = key.as_slice();
        let Some(row) = row_of(&self.chains, &self.keys, &self.order, key) else {
            return false;
        };
        kept.fill_keyed(key, self.values.row(row));
        self.values.write(row, offset, bytes);
        true
    }

    /// What [`Table::combine_in`] does, with the exchange that puts the value before back kept. Gives whether the key is
    /// there.
    pub fn combine_into(
        &mut self,
        key: &Bytes,
        offset: usize,
        op: AtomicOp,
        size: AtomicSize,
        operand: u64,
        kept: &mut KeptBack,
    ) -> bool
        requires within { offset + size_in_bytes size ≤ self.old.value_size }
        requires room { length key.now + self.old.value_size ≤ kept.old.room }
        ensures there { result ≡ map.contains_key self.old.entries key.now }
        ensures combined { MatchOption (map.get self.old.entries key.now) (self.new ≡ self.old) (λ before. self.new ≡ record self.old { entries = map.insert self.old.entries key.now (overwritten before offset (bytes_after op size operand (part_of before offset (size_in_bytes size)))) }) }
        ensures kept { MatchOption (map.get self.old.entries key.now) (kept.new ≡ kept.old) (λ before. kept.new ≡ record kept.old { back = Back.Key key.now (Some before) }) }
    {
        let key = key.as_slice();
        let Some(row) = row_of(&self.chains, &self.keys, &self.order, key) else {
            return false;
        };
        kept.fill_keyed(key, self.values.row(row));
        self.values.combine(row, offset, op, size, operand);
        true
    }

    /// Takes a key away, and keeps the exchange that brings it back with its value, if the key is there. Gives whether it
    /// is.
    pub fn remove_into(&mut self, key: &Bytes, kept: &mut KeptBack) -> bool
        requires { length key.now + self.old.value_size ≤ kept.old.room }
        ensures there { result ≡ map.contains_key self.old.entries key.now }
        ensures removed { self.new ≡ record self.old { entries = map.remove self.old.entries key.now } }
        ensures kept { MatchOption (map.get self.old.entries key.now) (kept.new ≡ kept.old) (λ before. kept.new ≡ record kept.old { back = Back.Key key.now (Some before) }) }
    {
        match self.place_of(key) {
            Ok(place) => {
                kept.fill_keyed(key.as_slice(), self.value_row(place));
                self.take(place);
                true
            }
            Err(_) => false,
        }
    }
}
