//! Searches for a key among the rows of a table.

ghost use Rattle.std.specs.Prelude.{◌<◌, All, length, IfOk, IfErr, MatchOption};
ghost use Rattle.map_table.specs.Order.{Rises, IsPlace, IsGap};
ghost use Rattle.map_table.specs.Table.{row_keys};
ghost use Rattle.map_table.specs.Index.{IsIndexed, IsRow, IsNotIn};

use map_block::Block;
use map_chains::{Chains, bucket_of};
use map_order::Order;
use std::cmp::Ordering;

/// How many rows of a chain a search reads before it goes by the order. So keys that were chosen to share a bucket cost a
/// search these rows and a binary search, and no long chain is ever walked.
const ROWS: usize = 16;

/// The row of a key among those in the rows of an order, if it is there: by the chain of its bucket, or in a long
/// chain by the order.
pub fn row_of(chains: &Chains, keys: &Block, order: &Order, key: &[u8]) -> Option<usize>
    requires rows { All (λ row. row < length keys.now) order.now.rows }
    requires rises { Rises (row_keys order.now.rows (length order.now.rows) keys.now) }
    requires indexed { IsIndexed order.now.rows (length order.now.rows) keys.now chains.now }
    ensures { MatchOption result (IsNotIn (row_keys order.now.rows (length order.now.rows) keys.now) key.now) (λ row. IsRow order.now.rows (length order.now.rows) keys.now key.now row) }
{
    let mut link = chains.first(bucket_of(key, chains.len()));
    for step in 0..ROWS {
        let Some(row) = link else {
            return None;
        };
        if keys.row(row) == key {
            return Some(row);
        }
        link = chains.next(row);
    }
    row_by_order(keys, order, key)
}

// The row of a key among those in the rows of an order, if it is there: by binary search.
fn row_by_order(keys: &Block, order: &Order, key: &[u8]) -> Option<usize>
    requires rows { All (λ row. row < length keys.now) order.now.rows }
    requires rises { Rises (row_keys order.now.rows (length order.now.rows) keys.now) }
    ensures { MatchOption result (IsNotIn (row_keys order.now.rows (length order.now.rows) keys.now) key.now) (λ row. IsRow order.now.rows (length order.now.rows) keys.now key.now row) }
{
    match place_among(keys, order, key) {
        Ok(place) => Some(order.get(place) as usize),
        Err(_) => None,
    }
}

/// The position of a key among those in the rows of an order, or in `Err` the position where it would go.
pub fn place_among(keys: &Block, order: &Order, key: &[u8]) -> Result<usize, usize>
    requires rows { All (λ row. row < length keys.now) order.now.rows }
    requires rises { Rises (row_keys order.now.rows (length order.now.rows) keys.now) }
    ensures found { IfOk result (IsPlace (row_keys order.now.rows (length order.now.rows) keys.now) key.now) }
    ensures absent { IfErr result (IsGap (row_keys order.now.rows (length order.now.rows) keys.now) key.now) }
{
    let mut low = 0;
    let mut high = order.len();
    'halves: while low < high {
        let middle = low + (high - low) / 2;
        match keys.row(order.get(middle) as usize).cmp(key) {
            Ordering::Less => low = middle + 1,
            Ordering::Equal => return Ok(middle),
            Ordering::Greater => high = middle,
        }
    }
    Err(low)
}
