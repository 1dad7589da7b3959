//! The operation of a row.

ghost use Rattle.std.specs.Prelude.{◌≡◌};
ghost use Rattle.kept_event.specs.Reading.{size_of, atomic_of, update_in, push_in, store_in, atomic_in, set_link_in, op_by};

use crate::column::{bytes_in, id_in};
use crate::row::Row;
use crate::verb::Verb;
use bt_mapkind::{AtomicOp, AtomicSize, MapOp};
use std::alloc::Global;

// The size of so many bytes.
fn size_of(bytes: u64) -> Option<AtomicSize>
    ensures { result ≡ size_of bytes }
{
    match bytes {
        4 => Some(AtomicSize::Word),
        8 => Some(AtomicSize::DoubleWord),
        _ => None,
    }
}

// The atomic operation of a number; only a compare-and-exchange compares with something.
fn atomic_of(number: u64, expected: u64) -> Option<AtomicOp>
    ensures { result ≡ atomic_of number expected }
{
    match number {
        0x00 => Some(AtomicOp::Add { fetch: false }),
        0x01 => Some(AtomicOp::Add { fetch: true }),
        0x40 => Some(AtomicOp::Or { fetch: false }),
        0x41 => Some(AtomicOp::Or { fetch: true }),
        0x50 => Some(AtomicOp::And { fetch: false }),
        0x51 => Some(AtomicOp::And { fetch: true }),
        0xa0 => Some(AtomicOp::Xor { fetch: false }),
        0xa1 => Some(AtomicOp::Xor { fetch: true }),
        0xe1 => Some(AtomicOp::Exchange),
        0xf1 => Some(AtomicOp::CompareExchange { expected }),
        _ => None,
    }
}

fn update_in(alloc: Global, row: &Row) -> Option<MapOp>
    ensures { result ≡ update_in row.now }
{
    let key = bytes_in(alloc, &row.key)?;
    let value = bytes_in(alloc, &row.value)?;
    let flag = row.flag?;
    Some(MapOp::Update { key, value, flag })
}

fn push_in(alloc: Global, row: &Row) -> Option<MapOp>
    ensures { result ≡ push_in row.now }
{
    let value = bytes_in(alloc, &row.value)?;
    let flag = row.flag?;
    Some(MapOp::Push { value, flag })
}

fn store_in(alloc: Global, row: &Row) -> Option<MapOp>
    ensures { result ≡ store_in row.now }
{
    let key = bytes_in(alloc, &row.key)?;
    let offset = row.at?;
    let bytes = bytes_in(alloc, &row.value)?;
    Some(MapOp::Store { key, offset, bytes })
}

fn atomic_in(alloc: Global, row: &Row) -> Option<MapOp>
    ensures { result ≡ atomic_in row.now }
{
    let key = bytes_in(alloc, &row.key)?;
    let offset = row.at?;
    let size = size_of(row.size?)?;
    let op = atomic_of(row.op?, row.flag.unwrap_or(0))?;
    let operand = row.target?;
    Some(MapOp::Atomic {
        key,
        offset,
        size,
        op,
        operand,
    })
}

fn set_link_in(alloc: Global, row: &Row) -> Option<MapOp>
    ensures { result ≡ set_link_in row.now }
{
    let key = bytes_in(alloc, &row.key)?;
    let id = id_in(row.target)?;
    let flag = row.flag?;
    Some(MapOp::SetLink { key, id, flag })
}

/// The operation that a row of this verb is.
pub(crate) fn op_by(alloc: Global, verb: Verb, row: &Row) -> Option<MapOp>
    ensures { result ≡ op_by verb row.now }
{
    match verb {
        Verb::Update => update_in(alloc, row),
        Verb::Delete => Some(MapOp::Delete {
            key: bytes_in(alloc, &row.key)?,
        }),
        Verb::Push => push_in(alloc, row),
        Verb::Pop => Some(MapOp::Pop),
        Verb::Store => store_in(alloc, row),
        Verb::Atomic => atomic_in(alloc, row),
        Verb::SetLink => set_link_in(alloc, row),
        Verb::Create
        | Verb::Load
        | Verb::Link
        | Verb::Freeze
        | Verb::Pin
        | Verb::Unpin
        | Verb::Attach
        | Verb::Detach
        | Verb::Mark
        | Verb::Undo
        | Verb::Redo
        | Verb::Without
        | Verb::Forget => None,
    }
}
