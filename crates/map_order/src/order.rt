//! The order of a hash: a list of row numbers.

ghost use Rattle.std.specs.Prelude.{◌≡◌, ◌+◌, ◌<◌, ◌≤◌, ◌^◌, [], length, IfOk, slice_index};
ghost use Rattle.std.specs.List.{insert, remove};

use crate::blocks::{BLOCK, put_in, slot_of, take_out};
use std::alloc::{AllocError, Global};
use std::marker::Model;

/// A list of row numbers, of which there are at most so many. Its room is reserved when it is made. The rows lie in
/// blocks, each of them a ring: a row that comes or goes moves those of its own block, and one more for each block after
/// it. Contracts see the list of the rows and the capacity.
#[derive(Drop)]
pub struct Order {
    capacity: usize,
    len: usize,
    starts: Vec<u32>,
    rows: Vec<u32>,
}

impl Model for Order {
    ghost use Rattle.map_order.specs.Blocks.{first_rows};
    ghost use Rattle.map_order.specs.Order.{Ordered, IsOrder};

    ghost Value = { Ordered };

    ghost view = { λ o. record { rows = first_rows o.starts.items o.rows.items o.len; capacity = o.capacity } };

    ghost invariant = { λ o. IsOrder o.capacity o.len o.starts.items o.rows.items };
}

impl Order {
    /// No rows, with room for `capacity` of them.
    pub fn new(alloc: Global, capacity: usize) -> Result<Order, AllocError>
        requires { capacity < 2 ^ 32 }
        ensures { IfOk result (λ o. o ≡ record { rows = []; capacity = capacity }) }
    {
        let blocks = capacity.div_ceil(BLOCK);
        let starts = vec![in alloc; 0; blocks]?;
        let rows = vec![in alloc; 0; blocks * BLOCK]?;
        Ok(Order {
            capacity,
            len: 0,
            starts,
            rows,
        })
    }

    /// How many rows there are.
    pub fn len(&self) -> usize
        ensures count { result ≡ length self.now.rows }
        ensures within { length self.now.rows ≤ self.now.capacity }
        ensures few { self.now.capacity < 2 ^ 32 }
    {
        self.len
    }

    /// The row at a position.
    pub fn get(&self, place: usize) -> u32
        requires { place < length self.now.rows }
        ensures { result ≡ slice_index self.now.rows place }
    {
        self.rows[slot_of(&self.starts, place)]
    }

    /// Puts a row at a position, before those from there on.
    pub fn insert(&mut self, place: usize, row: u32)
        requires place { place ≤ length self.old.rows }
        requires room { length self.old.rows < self.old.capacity }
        ensures { self.new ≡ record self.old { rows = insert self.old.rows place row } }
    {
        put_in(&mut self.starts, &mut self.rows, self.len, place, row);
        self.len += 1;
    }

    /// Takes the row at a position out.
    pub fn remove(&mut self, place: usize) -> u32
        requires { place < length self.old.rows }
        ensures removed { self.new ≡ record self.old { rows = remove self.old.rows place } }
        ensures row { result ≡ slice_index self.old.rows place }
    {
        self.len -= 1;
        take_out(&mut self.starts, &mut self.rows, self.len, place)
    }
}
