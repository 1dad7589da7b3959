//! Notes of operations with their replies: both in one short block.

ghost use Rattle.std.specs.Prelude.{◌≡◌, ◌++◌, ◌≤◌, IfSome, length};
ghost use Rattle.journal_model.specs.Listed.{operation_deed};
ghost use Rattle.journal_model.specs.Replay.{is_same_reply};
ghost use Rattle.map_laws.specs.Place.{is_delete};
ghost use Rattle.journal_record.specs.Operation.{answered_by, IsShortBlock};

use bt_mapkind::{Bytes, MapOp};
use host_state::{Reply, TakenItem};
use journal_model::Deed;
use smallvec::SmallVec;
use std::alloc::Global;
use std::marker::Model;

/// What the bytes of a note are. A key comes first.
#[derive(Clone, Copy, Debug)]
pub enum Form {
    /// A key of so many bytes and a value.
    Update { key: u16 },
    /// A key.
    Delete,
    /// A value.
    Push,
    /// The item that was taken.
    Pop,
    /// A key of so many bytes and what is stored.
    Store { key: u16 },
    /// A key of a map of ids.
    SetLink { id: u32 },
}

// A block of up to 16 bytes takes no memory.
type Block = SmallVec<u8, 16>;

/// An operation and its reply, kept. Contracts see both.
pub struct OperationNote {
    bytes: Block,
    // The flag of an operation, or where it stores; 0 if there is neither.
    number: u64,
    form: Form,
}

// Written by hand, so that it is proved here alone, and not once more in each program that drops one.
impl Drop for OperationNote {
    fn drop(self) {
        let OperationNote {
            bytes: _,
            number: _,
            form: _,
        } = self;
    }
}

impl Model for OperationNote {
    ghost use Rattle.journal_record.specs.Operation.{Answered, answered_by, IsShortBlock};

    ghost Value = { Answered };

    ghost view = { λ n. answered_by n.bytes.items n.number n.form };

    ghost invariant = { λ n. IsShortBlock n.bytes.items n.form };
}

impl OperationNote {
    /// A note of this operation and its reply; `None` for an atomic operation, for a reply that the operation does not
    /// give, and if memory is refused. Takes memory for more than 16 bytes.
    pub fn of(alloc: Global, op: &MapOp, reply: &Reply) -> Option<OperationNote>
        ensures { IfSome result (λ note. note ≡ record { op = op.now; reply = reply.now }) }
    {
        match reply {
            Reply::Done => OperationNote::of_quiet(alloc, op),
            Reply::Value(item) => OperationNote::of_item(alloc, op, item),
            Reply::Id(_) | Reply::Loaded(_) | Reply::Old(_) => None,
        }
    }

    // The note of an operation whose reply is only that it is done.
    fn of_quiet(alloc: Global, op: &MapOp) -> Option<OperationNote>
        ensures { IfSome result (λ note. note ≡ record { op = op.now; reply = Reply.Done }) }
    {
        match op {
            MapOp::Update { key, value, flag } => updates(
                alloc,
                key.as_slice(),
                value.as_slice(),
                *flag,
            ),
            MapOp::Delete { key } => of_one(alloc, key.as_slice(), 0, Form::Delete),
            MapOp::Push { value, flag } => of_one(alloc, value.as_slice(), *flag, Form::Push),
            MapOp::Store { key, offset, bytes } => stores(
                alloc,
                key.as_slice(),
                *offset,
                bytes.as_slice(),
            ),
            MapOp::SetLink { key, id, flag } => of_one(
                alloc,
                key.as_slice(),
                *flag,
                Form::SetLink { id: *id },
            ),
            MapOp::Pop | MapOp::Atomic { .. } => None,
        }
    }

    // The note of an operation that took an item.
    fn of_item(alloc: Global, op: &MapOp, item: &TakenItem) -> Option<OperationNote>
        ensures { IfSome result (λ note. note ≡ record { op = op.now; reply = Reply.Value item.now }) }
    {
        match op {
            MapOp::Pop => of_one(alloc, item.as_slice(), 0, Form::Pop),
            MapOp::Update { .. }
            | MapOp::Delete { .. }
            | MapOp::Push { .. }
            | MapOp::Store { .. }
            | MapOp::Atomic { .. }
            | MapOp::SetLink { .. } => None,
        }
    }

    /// The operation. It takes no memory.
    pub fn op(&self, alloc: Global) -> MapOp
        ensures { result ≡ self.now.op }
    {
        match self.form {
            Form::Update { key } => {
                let (key, value) = self.bytes.as_slice().split_at(key as usize);
                MapOp::Update {
                    key: Bytes::short(alloc, key),
                    value: Bytes::short(alloc, value),
                    flag: self.number,
                }
            }
            Form::Delete => MapOp::Delete {
                key: Bytes::short(alloc, self.bytes.as_slice()),
            },
            Form::Push => MapOp::Push {
                value: Bytes::short(alloc, self.bytes.as_slice()),
                flag: self.number,
            },
            Form::Pop => MapOp::Pop,
            Form::Store { key } => {
                let (key, stored) = self.bytes.as_slice().split_at(key as usize);
                MapOp::Store {
                    key: Bytes::short(alloc, key),
                    offset: self.number,
                    bytes: Bytes::short(alloc, stored),
                }
            }
            Form::SetLink { id } => MapOp::SetLink {
                key: Bytes::short(alloc, self.bytes.as_slice()),
                id,
                flag: self.number,
            },
        }
    }

    /// Whether the operation is a delete.
    pub fn is_delete(&self) -> bool
        ensures { result ≡ is_delete self.now.op }
    {
        match self.form {
            Form::Delete => true,
            Form::Update { .. }
            | Form::Push
            | Form::Pop
            | Form::Store { .. }
            | Form::SetLink { .. } => false,
        }
    }

    /// What the operation did to this map.
    pub fn deed(&self, map: u32) -> Deed
        ensures { result ≡ operation_deed self.now.op map }
    {
        match self.form {
            Form::Update { .. } => Deed::Update(map),
            Form::Delete => Deed::Delete(map),
            Form::Push => Deed::Push(map),
            Form::Pop => Deed::Pop(map),
            Form::Store { .. } => Deed::Store(map),
            Form::SetLink { .. } => Deed::Link(map),
        }
    }

    /// Whether the operation got this reply.
    pub fn got(&self, reply: &Reply) -> bool
        ensures { result ≡ is_same_reply reply.now self.now.reply }
    {
        match (reply, self.form) {
            (Reply::Value(item), Form::Pop) => item.as_slice() == self.bytes.as_slice(),
            (_, Form::Pop) => false,
            (Reply::Done, _) => true,
            _ => false,
        }
    }
}

// A note of an update.
fn updates(alloc: Global, key: &[u8], value: &[u8], flag: u64) -> Option<OperationNote>
    requires key { length key.now ≤ 260 }
    requires value { length value.now ≤ 260 }
    ensures { IfSome result (λ note. note ≡ record { op = MapOp.Update key.now value.now flag; reply = Reply.Done }) }
{
    let bytes = joined(alloc, key, value)?;
    Some(OperationNote {
        bytes,
        number: flag,
        form: Form::Update {
            key: key.len() as u16,
        },
    })
}

// A note of a store.
fn stores(alloc: Global, key: &[u8], offset: u64, stored: &[u8]) -> Option<OperationNote>
    requires key { length key.now ≤ 260 }
    requires stored { length stored.now ≤ 260 }
    ensures { IfSome result (λ note. note ≡ record { op = MapOp.Store key.now offset stored.now; reply = Reply.Done }) }
{
    let bytes = joined(alloc, key, stored)?;
    Some(OperationNote {
        bytes,
        number: offset,
        form: Form::Store {
            key: key.len() as u16,
        },
    })
}

// A note of what has one key, one value or one item.
fn of_one(alloc: Global, bytes: &[u8], number: u64, form: Form) -> Option<OperationNote>
    requires short { IsShortBlock bytes.now form }
    ensures { IfSome result (λ note. note ≡ answered_by bytes.now number form) }
{
    let bytes = SmallVec::from_slice(alloc, bytes).ok()?;
    Some(OperationNote {
        bytes,
        number,
        form,
    })
}

// The two one after the other, in a block of just their size.
fn joined(alloc: Global, key: &[u8], value: &[u8]) -> Option<Block>
    requires key { length key.now ≤ 260 }
    requires value { length value.now ≤ 260 }
    ensures { IfSome result (λ bytes. bytes.items ≡ key.now ++ value.now) }
{
    let mut bytes: Block = SmallVec::with_capacity(alloc, key.len() + value.len()).ok()?;
    bytes.extend_from_slice(key).ok()?;
    bytes.extend_from_slice(value).ok()?;
    Some(bytes)
}
