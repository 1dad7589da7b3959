//! Rows in the chains of buckets.

ghost use Rattle.std.specs.Prelude.{◌≡◌, ◌+◌, ◌<◌, ◌≤◌, ◌^◌, ℕ, false, true, [], ◌∷◌, All, IfOk, length, map, replicate, slice_get, slice_index_or, slice_set};
ghost use Rattle.map_chains.specs.Chains.{has, without, row_after};

use crate::rows::each_row;
use std::alloc::{AllocError, Global};
use std::marker::Model;

/// Rows in the chains of buckets, each row in one chain at most. A node is a row, or after the rows a bucket, and each
/// node has the number of the one after it and of the one before it in a ring: so a row comes and goes by a few writes,
/// wherever it is. Contracts see how many rows there are, and the rows in each bucket's chain.
#[derive(Drop)]
pub struct Chains {
    rows: usize,
    after: Vec<u32>,
    before: Vec<u32>,
}

impl Model for Chains {
    ghost use Rattle.map_chains.specs.Chains.{Chained, chained_code, buckets_of, IsLinked};

    ghost Value = { Chained };

    ghost coded = { chained_code };

    ghost view = { λ c. record { rows = c.rows; buckets = buckets_of c.rows c.after.items } };

    ghost invariant = { λ c. IsLinked c.rows c.after.items c.before.items };
}

impl Chains {
    /// So many empty buckets for so many rows.
    pub fn new(alloc: Global, rows: usize, buckets: usize) -> Result<Chains, AllocError>
        requires some { 0 < buckets }
        requires few { rows + buckets ≤ 2 ^ 32 }
        ensures { IfOk result (λ c. c ≡ record { rows = rows; buckets = replicate buckets [] }) }
    {
        let after = each_row(alloc, rows + buckets)?;
        let before = each_row(alloc, rows + buckets)?;
        Ok(Chains {
            rows,
            after,
            before,
        })
    }

    /// How many buckets there are.
    pub fn len(&self) -> usize
        ensures { result ≡ length self.now.buckets }
    {
        self.after.len() - self.rows
    }

    /// The first row of a bucket's chain, if there is one.
    pub fn first(&self, bucket: usize) -> Option<usize>
        requires { bucket < length self.now.buckets }
        ensures { result ≡ slice_get (slice_index_or self.now.buckets bucket []) 0 }
    {
        row_after(&self.after, self.rows, self.rows + bucket)
    }

    /// The row after another in its chain, if there is one.
    pub fn next(&self, row: usize) -> Option<usize>
        requires { row < self.now.rows }
        ensures { (bucket i : ℕ) → slice_get (slice_index_or self.now.buckets bucket []) i ≡ Some row → result ≡ slice_get (slice_index_or self.now.buckets bucket []) (i + 1) }
    {
        row_after(&self.after, self.rows, row)
    }

    /// Puts a row that no chain has at the head of a bucket's chain.
    pub fn link(&mut self, bucket: usize, row: usize)
        requires bucket { bucket < length self.old.buckets }
        requires row { row < self.old.rows }
        requires free { All (λ chain. has row chain ≡ false) self.old.buckets }
        ensures { self.new ≡ record self.old { buckets = slice_set self.old.buckets bucket (row ∷ slice_index_or self.old.buckets bucket []) } }
    {
        let head = self.rows + bucket;
        let next = self.after[head];
        self.after[row] = next;
        self.after[head] = row as u32;
        self.before[row] = head as u32;
        self.before[next as usize] = row as u32;
    }

    /// Takes a row out of the chain that has it.
    pub fn unlink(&mut self, row: usize)
        requires row { row < self.old.rows }
        requires linked { (bucket : ℕ) × (has row (slice_index_or self.old.buckets bucket []) ≡ true) }
        ensures { self.new ≡ record self.old { buckets = map (without row) self.old.buckets } }
    {
        let next = self.after[row];
        let last = self.before[row];
        self.after[last as usize] = next;
        self.before[next as usize] = last;
    }
}

// The row after a node, if there is one.
fn row_after(after: &[u32], rows: usize, node: usize) -> Option<usize>
    requires { node < length after.now }
    ensures { result ≡ row_after after.now rows node }
{
    let next = after[node] as usize;
    if next < rows { Some(next) } else { None }
}
