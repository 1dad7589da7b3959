//! The place of a change: what to ask there, and how it is named.

ghost use Rattle.std.specs.Prelude.{◌≡◌, ◌++◌, IfOk};
ghost use Rattle.console_text.specs.Text.{piece_text};
ghost use Rattle.console_looks.specs.Shown.{operation_question, question_of, operation_key, key_of};
ghost use Rattle.console_looks.specs.LookText.{operation_place, place_text, name_text};

use bt_mapkind::{MapOp, Query};
use console_text::Piece;
use host_state::{Ask, Change};
use host_words::NoMemory;

// What stands at the place of an operation: under its key, or for a pop the next item.
fn operation_question(map: u32, op: &MapOp) -> Option<Ask>
    ensures { result ≡ operation_question map op.now }
{
    match op {
        MapOp::Update { key, .. }
        | MapOp::Delete { key }
        | MapOp::Store { key, .. }
        | MapOp::Atomic { key, .. }
        | MapOp::SetLink { key, .. } => Some(Ask::Map {
            id: map,
            query: Query::Lookup(key.copy()),
        }),
        MapOp::Push { .. } => None,
        MapOp::Pop => Some(Ask::Map {
            id: map,
            query: Query::Peek,
        }),
    }
}

/// The question of what stands at the place of a change; none of a push, a freeze, a new map and a new program. Takes
/// memory.
pub fn question_of(change: &Change) -> Result<Option<Ask>, NoMemory>
    ensures { IfOk result (λ question. question ≡ question_of change.now) }
{
    let question = match change {
        Change::Operate { origin: _, map, op } => operation_question(*map, op),
        Change::Link { map, key, .. } => Some(Ask::Map {
            id: *map,
            query: Query::Lookup(key.copy()),
        }),
        Change::Pin { target: _, path } => Some(Ask::Pinned { path: path.copy()? }),
        Change::Unpin { path } => Some(Ask::Pinned { path: path.copy()? }),
        Change::Attach { device, .. } => Some(Ask::Devices {
            only: Some(device.copy()?),
        }),
        Change::Detach { device } => Some(Ask::Devices {
            only: Some(device.copy()?),
        }),
        Change::Create { .. } | Change::Freeze { .. } | Change::Load { .. } => None,
    };
    Ok(question)
}

fn operation_key(op: &MapOp) -> &[u8]
    ensures { result.now ≡ operation_key op.now }
{
    match op {
        MapOp::Update { key, .. }
        | MapOp::Delete { key }
        | MapOp::Store { key, .. }
        | MapOp::Atomic { key, .. }
        | MapOp::SetLink { key, .. } => key.as_slice(),
        MapOp::Push { .. } | MapOp::Pop => &[],
    }
}

/// The key of a change of one entry, and no byte of another change.
pub fn key_of(change: &Change) -> &[u8]
    ensures { result.now ≡ key_of change.now }
{
    match change {
        Change::Operate {
            origin: _,
            map: _,
            op,
        } => operation_key(op),
        Change::Link { key, .. } => key.as_slice(),
        Change::Create { .. }
        | Change::Freeze { .. }
        | Change::Load { .. }
        | Change::Pin { .. }
        | Change::Unpin { .. }
        | Change::Attach { .. }
        | Change::Detach { .. } => &[],
    }
}

fn operation_place(op: &MapOp) -> (Piece<'_>, Piece<'_>)
    ensures { piece_text result.0 ++ piece_text result.1 ≡ operation_place op.now }
{
    match op {
        MapOp::Update { key, .. }
        | MapOp::Delete { key }
        | MapOp::Store { key, .. }
        | MapOp::Atomic { key, .. }
        | MapOp::SetLink { key, .. } => (Piece::Plain(b" key: "), Piece::Bytes(key.as_slice())),
        MapOp::Push { value, .. } => (Piece::Plain(b" item: "), Piece::Bytes(value.as_slice())),
        MapOp::Pop => (Piece::Plain(b""), Piece::Plain(b"")),
    }
}

/// Where a change happened, after its map and its name: a key or an item, or the path of a new object.
pub fn place_of(change: &Change) -> (Piece<'_>, Piece<'_>)
    ensures { piece_text result.0 ++ piece_text result.1 ≡ place_text change.now }
{
    match change {
        Change::Operate {
            origin: _,
            map: _,
            op,
        } => operation_place(op),
        Change::Link { key, .. } => (Piece::Plain(b" key: "), Piece::Bytes(key.as_slice())),
        Change::Create { path, .. } => (Piece::Plain(b" at "), Piece::Word(path.as_slice())),
        Change::Load { path, .. } => (Piece::Plain(b" at "), Piece::Word(path.as_slice())),
        Change::Freeze { .. }
        | Change::Pin { .. }
        | Change::Unpin { .. }
        | Change::Attach { .. }
        | Change::Detach { .. } => (Piece::Plain(b""), Piece::Plain(b"")),
    }
}

/// The name that a change gave a new object.
pub fn name_of(change: &Change) -> (Piece<'_>, Piece<'_>)
    ensures { piece_text result.0 ++ piece_text result.1 ≡ name_text change.now }
{
    match change {
        Change::Create { name, .. } => (Piece::Plain(b" name "), Piece::Word(name.as_slice())),
        Change::Load { name, .. } => (Piece::Plain(b" name "), Piece::Word(name.as_slice())),
        Change::Operate { .. }
        | Change::Freeze { .. }
        | Change::Link { .. }
        | Change::Pin { .. }
        | Change::Unpin { .. }
        | Change::Attach { .. }
        | Change::Detach { .. } => (Piece::Plain(b""), Piece::Plain(b"")),
    }
}
