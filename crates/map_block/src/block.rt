//! A block of rows of bytes.

ghost use Rattle.std.specs.Prelude.{◌≡◌, ◌+◌, ◌*◌, ◌<◌, ◌≤◌, ◌^◌, ◌↔◌, [], All, IsTrue, length, IfOk, replicate, slice_set, slice_index_or};
ghost use Rattle.bt_mapkind.specs.Atomic.{overwritten, part_of, size_in_bytes, bytes_after};
ghost use Rattle.map_block.specs.Rows.{row_of};

use bt_mapkind::{AtomicOp, AtomicSize, Bytes};
use std::alloc::{AllocError, Global};
use std::marker::Model;

/// So many rows of equally many bytes, in one allocation that never grows. Contracts see the list of the rows.
#[derive(Drop)]
pub struct Block {
    count: usize,
    size: usize,
    bytes: Vec<u8>,
    // Whether any row was written since all were zero.
    is_written: bool,
}

impl Model for Block {
    ghost use Rattle.std.specs.Prelude.{List, ℕ, ◌≡◌, ◌*◌, All, false, length};
    ghost use Rattle.map_block.specs.Rows.{rows};

    ghost Value = { List (List ℕ) };

    ghost view = { λ b. rows b.size b.count b.bytes.items };

    ghost invariant = { λ b. (length b.bytes.items ≡ b.count * b.size) × (b.is_written ≡ false → All (λ byte. byte ≡ 0) b.bytes.items) };
}

impl Block {
    /// `count` rows of `size` zero bytes.
    pub fn zeros(alloc: Global, count: usize, size: usize) -> Result<Block, AllocError>
        requires { count * size < 2 ^ 63 }
        ensures { IfOk result (λ b. b ≡ replicate count (replicate size 0)) }
    {
        let bytes = zero_bytes(alloc, count * size)?;
        Ok(Block {
            count,
            size,
            bytes,
            is_written: false,
        })
    }

    /// How many rows there are.
    pub fn len(&self) -> usize
        ensures { result ≡ length self.now }
    {
        self.count
    }

    /// The row at `index`.
    pub fn row(&self, index: usize) -> &[u8]
        requires { index < length self.now }
        ensures { result.now ≡ slice_index_or self.now index [] }
    {
        row_at(&self.bytes, self.size, index)
    }

    /// Whether every byte of every row is zero.
    pub fn is_zero(&self) -> bool
        ensures { IsTrue result ↔ All (All (λ byte. byte ≡ 0)) self.now }
    {
        if !self.is_written {
            return true;
        }
        for index in 0..self.len() {
            if !are_zero(self.row(index)) {
                return false;
            }
        }
        true
    }

    /// A copy of the row at `index`.
    pub fn copy_of(&self, index: usize) -> Bytes
        requires there { index < length self.now }
        requires small { length (slice_index_or self.now index []) ≤ 260 }
        ensures { result ≡ slice_index_or self.now index [] }
    {
        Bytes::short(*self.bytes.allocator(), self.row(index))
    }

    /// Puts other bytes into the row at `index`, from `offset` on.
    pub fn write(&mut self, index: usize, offset: usize, other: &[u8])
        requires there { index < length self.old }
        requires within { offset + length other.now ≤ length (slice_index_or self.old index []) }
        ensures { self.new ≡ slice_set self.old index (overwritten (slice_index_or self.old index []) offset other.now) }
    {
        self.is_written = true;
        write_at(&mut self.bytes, index * self.size + offset, other);
    }

    /// Puts another row, as long as the one that stood there, at `index`.
    pub fn replace(&mut self, index: usize, other: &[u8])
        requires there { index < length self.old }
        requires same_size { length other.now ≡ length (slice_index_or self.old index []) }
        ensures { self.new ≡ slice_set self.old index other.now }
    {
        self.write(index, 0, other);
    }

    /// Does an atomic instruction on the row at `index`, from `offset` on.
    pub fn combine(
        &mut self,
        index: usize,
        offset: usize,
        op: AtomicOp,
        size: AtomicSize,
        operand: u64,
    )
        requires there { index < length self.old }
        requires within { offset + size_in_bytes size ≤ length (slice_index_or self.old index []) }
        ensures { self.new ≡ slice_set self.old index (overwritten (slice_index_or self.old index []) offset (bytes_after op size operand (part_of (slice_index_or self.old index []) offset (size_in_bytes size)))) }
    {
        self.is_written = true;
        combine_at(
            &mut self.bytes,
            index * self.size + offset,
            op,
            size,
            operand,
        );
    }

    /// Puts these bytes into the row at `index`, and what stood there into them. They are as many as the row's.
    pub fn exchange(&mut self, index: usize, other: &mut Bytes)
        requires there { index < length self.old }
        requires same_size { length other.old ≡ length (slice_index_or self.old index []) }
        ensures here { self.new ≡ slice_set self.old index other.old }
        ensures left { other.new ≡ slice_index_or self.old index [] }
    {
        self.is_written = true;
        exchange_at(&mut self.bytes, index * self.size, other);
    }
}

// Whether each byte is zero.
fn are_zero(bytes: &[u8]) -> bool
    ensures { IsTrue result ↔ All (λ byte. byte ≡ 0) bytes.now }
{
    bytes.iter().all(|byte| *byte == 0)
}

// So many zero bytes.
fn zero_bytes(alloc: Global, count: usize) -> Result<Vec<u8>, AllocError>
    ensures { IfOk result (λ v. v.items ≡ replicate count 0) }
{
    vec![in alloc; 0u8; count]
}

// The row at an index among bytes.
fn row_at(bytes: &[u8], size: usize, index: usize) -> &[u8]
    requires { index * size + size ≤ length bytes.now }
    ensures { result.now ≡ row_of size bytes.now index }
{
    let start = index * size;
    &bytes[start..start + size]
}

// Puts other bytes in place from `start` on.
fn write_at(bytes: &mut [u8], start: usize, other: &[u8])
    requires { start + length other.now ≤ length bytes.old }
    ensures { bytes.new ≡ overwritten bytes.old start other.now }
{
    let end = start + other.len();
    bytes[start..end].copy_from_slice(other);
}

// Puts other bytes in place from `start` on, and what stood there into them.
fn exchange_at(bytes: &mut [u8], start: usize, other: &mut Bytes)
    requires { start + length other.old ≤ length bytes.old }
    ensures here { bytes.new ≡ overwritten bytes.old start other.old }
    ensures left { other.new ≡ part_of bytes.old start (length other.old) }
{
    let end = start + other.len();
    other.exchange(&mut bytes[start..end]);
}

// Does an atomic instruction on the bytes from `start` on.
fn combine_at(bytes: &mut [u8], start: usize, op: AtomicOp, size: AtomicSize, operand: u64)
    requires { start + size_in_bytes size ≤ length bytes.old }
    ensures { bytes.new ≡ overwritten bytes.old start (bytes_after op size operand (part_of bytes.old start (size_in_bytes size))) }
{
    let end = start + size.in_bytes();
    op.apply(size, operand, &mut bytes[start..end]);
}
