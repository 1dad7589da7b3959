//! The changes that a running program asks for.

ghost use Rattle.std.specs.Prelude.{◌≡◌};
ghost use Rattle.bt_mapkind.specs.declared.request.MapOp.TheVariants.{Update, Delete, Push, Pop, Store, Atomic};
ghost use Rattle.journal_model.specs.Serve.{operation};

use bt_mapkind::{AtomicOp, AtomicSize, Bytes, MapOp};
use host_state::{Change, Origin};

/// A program stores bytes into a value, at an offset.
pub fn store_by(prog: u32, map: u32, key: &Bytes, offset: u64, bytes: &Bytes) -> Change
    ensures { result ≡ operation prog map (Store key.now offset bytes.now) }
{
    Change::Operate {
        origin: Origin::Prog(prog),
        map,
        op: MapOp::Store {
            key: key.copy(),
            offset,
            bytes: bytes.copy(),
        },
    }
}

/// A program does an atomic operation on a value, at an offset.
pub fn atomic_by(
    prog: u32,
    map: u32,
    key: &Bytes,
    offset: u64,
    size: AtomicSize,
    op: AtomicOp,
    operand: u64,
) -> Change
    ensures { result ≡ operation prog map (Atomic key.now offset size op operand) }
{
    Change::Operate {
        origin: Origin::Prog(prog),
        map,
        op: MapOp::Atomic {
            key: key.copy(),
            offset,
            size,
            op,
            operand,
        },
    }
}

/// A program puts a value under a key.
pub fn update_by(prog: u32, map: u32, key: &Bytes, value: &Bytes, flag: u64) -> Change
    ensures { result ≡ operation prog map (Update key.now value.now flag) }
{
    Change::Operate {
        origin: Origin::Prog(prog),
        map,
        op: MapOp::Update {
            key: key.copy(),
            value: value.copy(),
            flag,
        },
    }
}

/// A program takes a key out.
pub fn delete_by(prog: u32, map: u32, key: &Bytes) -> Change
    ensures { result ≡ operation prog map (Delete key.now) }
{
    Change::Operate {
        origin: Origin::Prog(prog),
        map,
        op: MapOp::Delete { key: key.copy() },
    }
}

/// A program puts a value into a queue or on a stack.
pub fn push_by(prog: u32, map: u32, value: &Bytes, flag: u64) -> Change
    ensures { result ≡ operation prog map (Push value.now flag) }
{
    Change::Operate {
        origin: Origin::Prog(prog),
        map,
        op: MapOp::Push {
            value: value.copy(),
            flag,
        },
    }
}

/// A program takes the next value out of a queue or off a stack.
pub fn pop_by(prog: u32, map: u32) -> Change
    ensures { result ≡ operation prog map Pop }
{
    Change::Operate {
        origin: Origin::Prog(prog),
        map,
        op: MapOp::Pop,
    }
}
