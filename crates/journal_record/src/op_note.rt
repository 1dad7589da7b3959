//! Notes of operations: the same in as few bytes as it takes, on the heap.

ghost use Rattle.std.specs.Prelude.{◌≡◌, ◌++◌, ◌≤◌, IfOk, length};
ghost use Rattle.journal_model.specs.Listed.{operation_deed};
ghost use Rattle.map_laws.specs.Place.{is_delete};

use bt_mapkind::{AtomicOp, AtomicSize, Bytes, MapOp};
use host_words::NoMemory;
use journal_model::Deed;
use std::alloc::Global;
use std::marker::Model;

/// The parts of an operation. A key and a value, or the bytes that are stored, stand in one block, the key first.
#[derive(Debug, Drop)]
pub enum OpForm {
    Update {
        key_size: usize,
        bytes: Vec<u8>,
        flag: u64,
    },
    Delete {
        key: Vec<u8>,
    },
    Push {
        value: Vec<u8>,
        flag: u64,
    },
    Pop,
    Store {
        key_size: usize,
        bytes: Vec<u8>,
        offset: u64,
    },
    Atomic {
        key: Vec<u8>,
        offset: u64,
        size: AtomicSize,
        op: AtomicOp,
        operand: u64,
    },
    SetLink {
        key: Vec<u8>,
        id: u32,
        flag: u64,
    },
}

/// An operation, kept. Contracts see the operation.
#[derive(Debug, Drop)]
pub struct OpNote {
    form: OpForm,
}

impl Model for OpNote {
    ghost use Rattle.bt_mapkind.specs.declared.request.MapOp.{MapOp};

    ghost Value = { MapOp };

    ghost use Rattle.journal_record.specs.Note.{op_of, IsShortOp};

    ghost view = { λ n. op_of n.form };

    ghost invariant = { λ n. IsShortOp n.form };
}

impl OpNote {
    /// A note of this operation. Takes memory.
    pub fn of(alloc: Global, op: &MapOp) -> Result<OpNote, NoMemory>
        ensures { IfOk result (λ note. note ≡ op.now) }
    {
        let form = match op {
            MapOp::Update { key, value, flag } => OpForm::Update {
                key_size: key.len(),
                bytes: joined(alloc, key.as_slice(), value.as_slice())?,
                flag: *flag,
            },
            MapOp::Delete { key } => OpForm::Delete {
                key: Vec::from_slice(alloc, key.as_slice())?,
            },
            MapOp::Push { value, flag } => OpForm::Push {
                value: Vec::from_slice(alloc, value.as_slice())?,
                flag: *flag,
            },
            MapOp::Pop => OpForm::Pop,
            MapOp::Store { key, offset, bytes } => OpForm::Store {
                key_size: key.len(),
                bytes: joined(alloc, key.as_slice(), bytes.as_slice())?,
                offset: *offset,
            },
            MapOp::Atomic {
                key,
                offset,
                size,
                op,
                operand,
            } => OpForm::Atomic {
                key: Vec::from_slice(alloc, key.as_slice())?,
                offset: *offset,
                size: *size,
                op: *op,
                operand: *operand,
            },
            MapOp::SetLink { key, id, flag } => OpForm::SetLink {
                key: Vec::from_slice(alloc, key.as_slice())?,
                id: *id,
                flag: *flag,
            },
        };
        Ok(OpNote { form })
    }

    /// The operation. It takes no memory.
    pub fn op(&self, alloc: Global) -> MapOp
        ensures { result ≡ self.now }
    {
        match &self.form {
            OpForm::Update {
                key_size,
                bytes,
                flag,
            } => {
                let (key, value) = bytes.split_at(*key_size);
                MapOp::Update {
                    key: Bytes::short(alloc, key),
                    value: Bytes::short(alloc, value),
                    flag: *flag,
                }
            }
            OpForm::Delete { key } => MapOp::Delete {
                key: Bytes::short(alloc, key),
            },
            OpForm::Push { value, flag } => MapOp::Push {
                value: Bytes::short(alloc, value),
                flag: *flag,
            },
            OpForm::Pop => MapOp::Pop,
            OpForm::Store {
                key_size,
                bytes,
                offset,
            } => {
                let (key, stored) = bytes.split_at(*key_size);
                MapOp::Store {
                    key: Bytes::short(alloc, key),
                    offset: *offset,
                    bytes: Bytes::short(alloc, stored),
                }
            }
            OpForm::Atomic {
                key,
                offset,
                size,
                op,
                operand,
            } => MapOp::Atomic {
                key: Bytes::short(alloc, key),
                offset: *offset,
                size: *size,
                op: *op,
                operand: *operand,
            },
            OpForm::SetLink { key, id, flag } => MapOp::SetLink {
                key: Bytes::short(alloc, key),
                id: *id,
                flag: *flag,
            },
        }
    }

    /// Whether the operation is a delete.
    pub fn is_delete(&self) -> bool
        ensures { result ≡ is_delete self.now }
    {
        match &self.form {
            OpForm::Delete { .. } => true,
            OpForm::Update { .. }
            | OpForm::Push { .. }
            | OpForm::Pop
            | OpForm::Store { .. }
            | OpForm::Atomic { .. }
            | OpForm::SetLink { .. } => false,
        }
    }

    /// What the operation did to this map.
    pub fn deed(&self, map: u32) -> Deed
        ensures { result ≡ operation_deed self.now map }
    {
        match &self.form {
            OpForm::Update { .. } => Deed::Update(map),
            OpForm::Delete { .. } => Deed::Delete(map),
            OpForm::Push { .. } => Deed::Push(map),
            OpForm::Pop => Deed::Pop(map),
            OpForm::Store { .. } => Deed::Store(map),
            OpForm::Atomic { .. } => Deed::Atomic(map),
            OpForm::SetLink { .. } => Deed::Link(map),
        }
    }
}

// The two one after the other, in a block of just their size.
fn joined(alloc: Global, key: &[u8], value: &[u8]) -> Result<Vec<u8>, NoMemory>
    requires short { (length key.now ≤ 260) × (length value.now ≤ 260) }
    ensures { IfOk result (λ bytes. bytes.items ≡ key.now ++ value.now) }
{
    let mut bytes = Vec::with_capacity(alloc, key.len() + value.len())?;
    bytes.extend_from_slice(key)?;
    bytes.extend_from_slice(value)?;
    Ok(bytes)
}
