//! A ring of items in one block.

ghost use Rattle.std.specs.Prelude.{◌≡◌, ◌+◌, ◌%◌, ◌<◌, ◌≤◌, ◌^◌, ◌↔◌, [], ◌∷◌, ◌++◌, IsTrue, length, IfOk, IfSome, is_some, slice_index_or};
ghost use Rattle.std.specs.Option.{option_to_list};
ghost use Rattle.bt_mapkind.specs.Exchange.{one_if, front_of, rear_of};

use bt_mapkind::Bytes;
use map_block::Block;
use std::alloc::{AllocError, Global};
use std::marker::Model;

/// Items of one size, of which there are at most so many. Its room is reserved when it is made. Contracts see the list
/// of the items, oldest first, the capacity and the size of an item.
#[derive(Drop)]
pub struct Ring {
    head: usize,
    len: usize,
    size: usize,
    rows: Block,
}

impl Model for Ring {
    ghost use Rattle.std.specs.Prelude.{length};
    ghost use Rattle.bt_queue.specs.Window.{Kept, window, IsRing};

    ghost Value = { Kept };

    ghost view = { λ r. record { items = window r.head r.len r.rows; capacity = length r.rows; size = r.size } };

    ghost invariant = { λ r. IsRing r.head r.len r.size r.rows };
}

impl Ring {
    /// An empty ring with room for `capacity` items of `size` bytes.
    pub fn new(alloc: Global, capacity: usize, size: usize) -> Result<Ring, AllocError>
        requires some { 0 < capacity }
        requires few { capacity < 2 ^ 32 }
        requires small { size ≤ 260 }
        ensures { IfOk result (λ r. r ≡ record { items = []; capacity = capacity; size = size }) }
    {
        let rows = Block::zeros(alloc, capacity, size)?;
        Ok(Ring {
            head: 0,
            len: 0,
            size,
            rows,
        })
    }

    /// How many items there are.
    pub fn len(&self) -> usize
        ensures count { result ≡ length self.now.items }
        ensures within { length self.now.items ≤ self.now.capacity }
        ensures fits { result < 2 ^ 32 }
    {
        self.len
    }

    /// Whether there is no room for another item.
    pub fn is_full(&self) -> bool
        ensures full { IsTrue result ↔ (length self.now.items ≡ self.now.capacity) }
        ensures within { length self.now.items ≤ self.now.capacity }
        ensures some { 0 < self.now.capacity }
    {
        self.len == self.rows.len()
    }

    /// A copy of the item at `index`, the oldest at 0.
    pub fn item(&self, index: usize) -> Bytes
        requires { index < length self.now.items }
        ensures { result ≡ slice_index_or self.now.items index [] }
    {
        self.rows.copy_of(slot(self.head, index, self.rows.len()))
    }

    /// Puts an item after the newest.
    pub fn push_rear(&mut self, mut item: Bytes)
        requires room { length self.old.items < self.old.capacity }
        requires same_size { length item ≡ self.old.size }
        ensures { self.new ≡ record self.old { items = self.old.items ++ item ∷ [] } }
    {
        let place = slot(self.head, self.len, self.rows.len());
        self.rows.exchange(place, &mut item);
        self.len += 1;
    }

    /// Puts a copy of an item after the newest.
    pub fn push_row(&mut self, item: &[u8])
        requires room { length self.old.items < self.old.capacity }
        requires same_size { length item.now ≡ self.old.size }
        ensures { self.new ≡ record self.old { items = self.old.items ++ item.now ∷ [] } }
    {
        let place = slot(self.head, self.len, self.rows.len());
        self.rows.replace(place, item);
        self.len += 1;
    }

    /// Puts an item before the oldest.
    pub fn push_front(&mut self, mut item: Bytes)
        requires room { length self.old.items < self.old.capacity }
        requires same_size { length item ≡ self.old.size }
        ensures { self.new ≡ record self.old { items = item ∷ self.old.items } }
    {
        let place = slot(self.head, self.rows.len() - 1, self.rows.len());
        self.rows.exchange(place, &mut item);
        self.head = place;
        self.len += 1;
    }

    /// Takes the oldest item.
    pub fn pop_front(&mut self) -> Bytes
        requires { 0 < length self.old.items }
        ensures { self.old ≡ record self.new { items = result ∷ self.new.items } }
    {
        let item = self.rows.copy_of(self.head);
        self.head = slot(self.head, 1, self.rows.len());
        self.len -= 1;
        item
    }

    /// Takes the newest item.
    pub fn pop_rear(&mut self) -> Bytes
        requires { 0 < length self.old.items }
        ensures { self.old ≡ record self.new { items = self.new.items ++ result ∷ [] } }
    {
        self.len -= 1;
        self.rows
            .copy_of(slot(self.head, self.len, self.rows.len()))
    }

    /// Takes the oldest item, if it is to be taken.
    pub fn take_front(&mut self, take: bool) -> Option<Bytes>
        requires { one_if take ≤ length self.old.items }
        ensures taken { result ≡ (front_of take self.old.items).0 }
        ensures left { self.new ≡ record self.old { items = (front_of take self.old.items).1 } }
    {
        if take { Some(self.pop_front()) } else { None }
    }

    /// Takes the newest item, if it is to be taken.
    pub fn take_rear(&mut self, take: bool) -> Option<Bytes>
        requires { one_if take ≤ length self.old.items }
        ensures taken { result ≡ (rear_of take self.old.items).0 }
        ensures left { self.new ≡ record self.old { items = (rear_of take self.old.items).1 } }
    {
        if take { Some(self.pop_rear()) } else { None }
    }

    /// Puts an item before the oldest, if there is one to put.
    pub fn put_front(&mut self, item: Option<Bytes>)
        requires room { length self.old.items + one_if (is_some item) ≤ self.old.capacity }
        requires same_size { IfSome item (λ bytes. length bytes ≡ self.old.size) }
        ensures { self.new ≡ record self.old { items = option_to_list item ++ self.old.items } }
    {
        if let Some(item) = item {
            self.push_front(item);
        }
    }

    /// Puts an item after the newest, if there is one to put.
    pub fn put_rear(&mut self, item: Option<Bytes>)
        requires room { length self.old.items + one_if (is_some item) ≤ self.old.capacity }
        requires same_size { IfSome item (λ bytes. length bytes ≡ self.old.size) }
        ensures { self.new ≡ record self.old { items = self.old.items ++ option_to_list item } }
    {
        if let Some(item) = item {
            self.push_rear(item);
        }
    }
}

// The row of the item at an index, the oldest at `head`, around the end of so many rows.
fn slot(head: usize, index: usize, count: usize) -> usize
    requires head { head < count }
    requires index { index ≤ count }
    requires few { count < 2 ^ 32 }
    ensures { result ≡ (head + index) % count }
{
    (head + index) % count
}
