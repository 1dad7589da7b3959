//! Rows in blocks, each of them a ring.

ghost use Rattle.std.specs.Prelude.{◌≡◌, ◌+◌, ◌*◌, ◌/◌, ◌<◌, ◌≤◌, ◌^◌, length, slice_index};
ghost use Rattle.std.specs.List.{insert, remove};
ghost use Rattle.map_order.specs.Blocks.{slot_of, first_rows, row_at, AreBlocks, Pushes, MovesUp};

/// How many rows a block has.
pub const BLOCK: usize = 512;

/// Where the row at a position stands.
pub fn slot_of(starts: &[u32], place: usize) -> usize
    requires { place < length starts.now * 512 }
    ensures slot { result ≡ slot_of starts.now place }
    ensures within { result < length starts.now * 512 }
{
    let block = place / BLOCK;
    block * BLOCK + (starts[block] as usize + place % BLOCK) % BLOCK
}

/// Puts a row at a position among the first rows, of which there are so many.
pub fn put_in(starts: &mut [u32], rows: &mut [u32], len: usize, place: usize, row: u32)
    requires blocks { AreBlocks starts.old rows.old }
    requires place { place ≤ len }
    requires room { len < length rows.old }
    ensures { first_rows starts.new rows.new (len + 1) ≡ insert (first_rows starts.old rows.old len) place row }
{
    hand_on(starts, rows, place / BLOCK, len / BLOCK, row);
    move_up(starts, rows, place);
}

/// Takes the row at a position out of the first rows, of which so many are left.
pub fn take_out(starts: &mut [u32], rows: &mut [u32], left: usize, place: usize) -> u32
    requires blocks { AreBlocks starts.old rows.old }
    requires place { place ≤ left }
    requires room { left < length rows.old }
    ensures others { first_rows starts.new rows.new left ≡ remove (first_rows starts.old rows.old (left + 1)) place }
    ensures row { result ≡ slice_index (first_rows starts.old rows.old (left + 1)) place }
{
    move_down(starts, rows, place);
    hand_back(starts, rows, place / BLOCK, left / BLOCK)
}

// Puts a row first in a block, from there on hands the last row of each block on to the one after it, and drops what the
// last block hands on.
fn hand_on(starts: &mut [u32], rows: &mut [u32], block: usize, last: usize, row: u32)
    requires blocks { AreBlocks starts.old rows.old }
    requires order { block ≤ last }
    requires within { last < length starts.old }
    ensures { Pushes (row_at starts.old rows.old) (row_at starts.new rows.new) (block * 512) (last * 512 + 512) row (row_at starts.old rows.old (last * 512 + 511)) }
{
    let mut carried = row;
    for next in block..last + 1 {
        carried = push_front(starts, rows, next, carried);
    }
}

// Takes the first row out of a block, and has each block after it up to the last hand its first row back to the one
// before.
fn hand_back(starts: &mut [u32], rows: &mut [u32], block: usize, last: usize) -> u32
    requires blocks { AreBlocks starts.old rows.old }
    requires order { block ≤ last }
    requires within { last < length starts.old }
    ensures { Pushes (row_at starts.new rows.new) (row_at starts.old rows.old) (block * 512) (last * 512 + 512) result (row_at starts.new rows.new (last * 512 + 511)) }
{
    let mut carried = 0;
    let mut next = last + 1;
    'behind: while next > block {
        next -= 1;
        carried = push_back(starts, rows, next, carried);
    }
    carried
}

// Puts a row first in a full block, and gives its last.
fn push_front(starts: &mut [u32], rows: &mut [u32], block: usize, row: u32) -> u32
    requires blocks { AreBlocks starts.old rows.old }
    requires within { block < length starts.old }
    ensures { Pushes (row_at starts.old rows.old) (row_at starts.new rows.new) (block * 512) (block * 512 + 512) row result }
{
    let start = (starts[block] as usize + (BLOCK - 1)) % BLOCK;
    let slot = block * BLOCK + start;
    let last = rows[slot];
    rows[slot] = row;
    starts[block] = start as u32;
    last
}

// Puts a row last in a full block, and gives its first.
fn push_back(starts: &mut [u32], rows: &mut [u32], block: usize, row: u32) -> u32
    requires blocks { AreBlocks starts.old rows.old }
    requires within { block < length starts.old }
    ensures { Pushes (row_at starts.new rows.new) (row_at starts.old rows.old) (block * 512) (block * 512 + 512) result row }
{
    let start = starts[block] as usize % BLOCK;
    let slot = block * BLOCK + start;
    let first = rows[slot];
    rows[slot] = row;
    starts[block] = ((start + 1) % BLOCK) as u32;
    first
}

// Moves the first row of a position's block to the position.
fn move_up(starts: &[u32], rows: &mut [u32], place: usize)
    requires blocks { AreBlocks starts.now rows.old }
    requires within { place < length rows.old }
    ensures { MovesUp (row_at starts.now rows.old) (row_at starts.now rows.new) (place / 512 * 512) place }
{
    let base = place / BLOCK * BLOCK;
    let first = starts[place / BLOCK] as usize % BLOCK;
    let to = first + place % BLOCK;
    if to < BLOCK {
        carry_up(rows, base + first, base + to);
    } else {
        let end = base + (BLOCK - 1);
        carry_up(rows, base + first, end);
        rows.swap(end, base);
        carry_up(rows, base, base + (to - BLOCK));
    }
}

// Moves the row at a position to be the first of its block.
fn move_down(starts: &[u32], rows: &mut [u32], place: usize)
    requires blocks { AreBlocks starts.now rows.old }
    requires within { place < length rows.old }
    ensures { MovesUp (row_at starts.now rows.new) (row_at starts.now rows.old) (place / 512 * 512) place }
{
    let base = place / BLOCK * BLOCK;
    let first = starts[place / BLOCK] as usize % BLOCK;
    let from = first + place % BLOCK;
    if from < BLOCK {
        carry_down(rows, base + from, base + first);
    } else {
        let end = base + (BLOCK - 1);
        carry_down(rows, base + (from - BLOCK), base);
        rows.swap(end, base);
        carry_down(rows, end, base + first);
    }
}

// Moves the row in a slot to one after it, and those between by one to the front.
fn carry_up(rows: &mut [u32], from: usize, to: usize)
    requires order { from ≤ to }
    requires within { to < length rows.old }
    ensures { MovesUp (slice_index rows.old) (slice_index rows.new) from to }
{
    rows[from..to + 1].rotate_left(1);
}

// Moves the row in a slot to one before it, and those between by one to the back.
fn carry_down(rows: &mut [u32], from: usize, to: usize)
    requires order { to ≤ from }
    requires within { from < length rows.old }
    ensures { MovesUp (slice_index rows.new) (slice_index rows.old) to from }
{
    rows[to..from + 1].rotate_right(1);
}
