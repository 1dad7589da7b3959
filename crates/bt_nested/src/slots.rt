//! Slots that hold an id or none.

ghost use Rattle.std.specs.Prelude.{◌≡◌, ◌<◌, ◌≤◌, ◌^◌, length, replicate, slice_index, slice_index_or, slice_set, is_some, IfOk, IfErr};
ghost use Rattle.bt_nested.specs.Filled.{filled, marked, Rises, IsAt, IsBefore};

use map_order::Order;
use std::alloc::{AllocError, Global};
use std::cmp::Ordering;
use std::marker::Model;

/// So many slots, each with an id or none, and an order of the indices of those that hold one, so that the filled slot
/// of a number is found at once, and a slot is filled or cleared with little work. The room for all is reserved when they are
/// made. Contracts see the list of the slots.
#[derive(Drop)]
pub struct IdSlots {
    ids: Vec<Option<u32>>,
    filled: Order,
}

impl Model for IdSlots {
    ghost use Rattle.std.specs.Prelude.{List, ℕ, Option};
    ghost use Rattle.bt_nested.specs.Filled.{AreListed};

    ghost Value = { List (Option ℕ) };

    ghost view = { λ s. s.ids.items };

    ghost invariant = { λ s. AreListed s.ids.items s.filled.rows s.filled.capacity };
}

impl IdSlots {
    /// `count` empty slots.
    pub fn new(alloc: Global, count: usize) -> Result<IdSlots, AllocError>
        requires { count < 2 ^ 32 }
        ensures { IfOk result (λ s. s ≡ replicate count None) }
    {
        let ids = vec![in alloc; None; count]?;
        let filled = Order::new(alloc, count)?;
        Ok(IdSlots { ids, filled })
    }

    /// How many slots there are.
    pub fn len(&self) -> usize
        ensures count { result ≡ length self.now }
        ensures few { length self.now < 2 ^ 32 }
    {
        self.ids.len()
    }

    /// The id in the slot at `index`.
    pub fn id(&self, index: usize) -> Option<u32>
        requires { index < length self.now }
        ensures { result ≡ slice_index_or self.now index None }
    {
        self.ids[index]
    }

    /// How many slots hold an id.
    pub fn filled_len(&self) -> usize
        ensures count { result ≡ length (filled self.now) }
        ensures within { length (filled self.now) ≤ length self.now }
    {
        self.filled.len()
    }

    /// The index of the filled slot of this number, counted from 0 by ascending index.
    pub fn filled_index(&self, number: usize) -> u32
        requires { number < length (filled self.now) }
        ensures { result ≡ slice_index (filled self.now) number }
    {
        self.filled.get(number)
    }

    /// Puts an id, or none, into the slot at `index`, and gives what was there.
    pub fn exchange(&mut self, index: usize, id: Option<u32>) -> Option<u32>
        requires { index < length self.old }
        ensures put { self.new ≡ slice_set self.old index id }
        ensures before { result ≡ slice_index_or self.old index None }
    {
        let before = self.ids[index];
        mark(&mut self.filled, index as u32, id.is_some());
        self.ids[index] = id;
        before
    }
}

// Puts an index among others in ascending order, or takes it away.
fn mark(filled: &mut Order, index: u32, there: bool)
    requires rises { Rises filled.old.rows }
    requires room { length (marked filled.old.rows index there) ≤ filled.old.capacity }
    ensures { filled.new ≡ record filled.old { rows = marked filled.old.rows index there } }
{
    match place_of(filled, index) {
        Ok(place) => {
            if !there {
                filled.remove(place);
            }
        }
        Err(place) => {
            if there {
                filled.insert(place, index);
            }
        }
    }
}

// The place of an index among others in ascending order, or in `Err` the place where it would go.
fn place_of(filled: &Order, index: u32) -> Result<usize, usize>
    requires { Rises filled.now.rows }
    ensures found { IfOk result (IsAt filled.now.rows index) }
    ensures absent { IfErr result (IsBefore filled.now.rows index) }
{
    let mut low = 0;
    let mut high = filled.len();
    'halves: while low < high {
        let middle = low + (high - low) / 2;
        match filled.get(middle).cmp(&index) {
            Ordering::Less => low = middle + 1,
            Ordering::Equal => return Ok(middle),
            Ordering::Greater => high = middle,
        }
    }
    Err(low)
}
