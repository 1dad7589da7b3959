//! The row of an operation on a map.

ghost use Rattle.std.specs.Prelude.{◌≡◌, ◌<◌, Some, IfOk, OnOk};
ghost use Rattle.kept_event.specs.Bounded.{IsBoundedOp, IsBoundedAtomic};
ghost use Rattle.kept_event.specs.Row.{with_fetch, op_number, expected_by, op_row};

use crate::row::{Row, blob, keyed, valued};
use crate::verb::Verb;
use bt_mapkind::{AtomicOp, AtomicSize, Bytes, MapOp};
use host_words::NoMemory;
use std::alloc::Global;

// A number with the lowest bit set if the operation fetches.
fn with_fetch(number: u64, fetch: bool) -> u64
    requires { number < 256 }
    ensures { result ≡ with_fetch number fetch }
{
    if fetch { number + 1 } else { number }
}

/// The number of an atomic operation: its immediate (RFC 9669, section 5.3 Atomic Operations), with 1 for a fetch.
fn op_number(op: AtomicOp) -> u64
    ensures { result ≡ op_number op }
{
    match op {
        AtomicOp::Add { fetch } => with_fetch(0x00, fetch),
        AtomicOp::Or { fetch } => with_fetch(0x40, fetch),
        AtomicOp::And { fetch } => with_fetch(0x50, fetch),
        AtomicOp::Xor { fetch } => with_fetch(0xa0, fetch),
        AtomicOp::Exchange => 0xe1,
        AtomicOp::CompareExchange { expected: _ } => 0xf1,
    }
}

/// What a compare-and-exchange compares with.
fn expected_by(op: AtomicOp) -> Option<u64>
    ensures value { result ≡ expected_by op }
    ensures bounded { IsBoundedAtomic op }
{
    match op {
        AtomicOp::CompareExchange { expected } => Some(expected),
        AtomicOp::Add { .. }
        | AtomicOp::Or { .. }
        | AtomicOp::And { .. }
        | AtomicOp::Xor { .. }
        | AtomicOp::Exchange => None,
    }
}

fn update_row(alloc: Global, key: &Bytes, value: &Bytes, flag: u64) -> Result<Row, NoMemory>
    ensures row { IfOk result (λ row. row ≡ op_row (MapOp.Update key.now value.now flag)) }
    ensures bounded { OnOk result (IsBoundedOp (MapOp.Update key.now value.now flag)) }
{
    let mut row = keyed(alloc, Verb::Update, key.as_slice())?;
    row.value = blob(alloc, value.as_slice())?;
    row.flag = Some(flag);
    Ok(row)
}

fn push_row(alloc: Global, value: &Bytes, flag: u64) -> Result<Row, NoMemory>
    ensures row { IfOk result (λ row. row ≡ op_row (MapOp.Push value.now flag)) }
    ensures bounded { OnOk result (IsBoundedOp (MapOp.Push value.now flag)) }
{
    let mut row = valued(alloc, Verb::Push, value.as_slice())?;
    row.flag = Some(flag);
    Ok(row)
}

fn store_row(alloc: Global, key: &Bytes, offset: u64, bytes: &Bytes) -> Result<Row, NoMemory>
    ensures row { IfOk result (λ row. row ≡ op_row (MapOp.Store key.now offset bytes.now)) }
    ensures bounded { OnOk result (IsBoundedOp (MapOp.Store key.now offset bytes.now)) }
{
    let mut row = keyed(alloc, Verb::Store, key.as_slice())?;
    row.at = Some(offset);
    row.value = blob(alloc, bytes.as_slice())?;
    Ok(row)
}

fn atomic_row(
    alloc: Global,
    key: &Bytes,
    offset: u64,
    size: AtomicSize,
    op: AtomicOp,
    operand: u64,
) -> Result<Row, NoMemory>
    ensures row { IfOk result (λ row. row ≡ op_row (MapOp.Atomic key.now offset size op operand)) }
    ensures bounded { OnOk result (IsBoundedOp (MapOp.Atomic key.now offset size op operand)) }
{
    let mut row = keyed(alloc, Verb::Atomic, key.as_slice())?;
    row.at = Some(offset);
    row.size = Some(size.in_bytes() as u64);
    row.op = Some(op_number(op));
    row.flag = expected_by(op);
    row.target = Some(operand);
    Ok(row)
}

/// The row of an operation, without who asks for it and of which map.
pub(crate) fn op_row(alloc: Global, op: &MapOp) -> Result<Row, NoMemory>
    ensures row { IfOk result (λ row. row ≡ op_row op.now) }
    ensures bounded { OnOk result (IsBoundedOp op.now) }
{
    match op {
        MapOp::Update { key, value, flag } => update_row(alloc, key, value, *flag),
        MapOp::Delete { key } => keyed(alloc, Verb::Delete, key.as_slice()),
        MapOp::Push { value, flag } => push_row(alloc, value, *flag),
        MapOp::Pop => Ok(Row::bare(Verb::Pop)),
        MapOp::Store { key, offset, bytes } => store_row(alloc, key, *offset, bytes),
        MapOp::Atomic {
            key,
            offset,
            size,
            op,
            operand,
        } => atomic_row(alloc, key, *offset, *size, *op, *operand),
        MapOp::SetLink { key, id, flag } => {
            let mut row = keyed(alloc, Verb::SetLink, key.as_slice())?;
            row.target = Some(u64::from(*id));
            row.flag = Some(*flag);
            Ok(row)
        }
    }
}
