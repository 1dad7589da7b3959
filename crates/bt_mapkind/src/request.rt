//! What is asked of a map, and what it answers.

ghost use Rattle.std.specs.Prelude.{◌≡◌};
ghost use Rattle.bt_mapkind.specs.Bounds.{IsBoundedOp};
ghost use Rattle.bt_mapkind.specs.Read.{found, key_found};
ghost use Rattle.bt_mapkind.specs.Step.{atomic_reply};

use crate::atomic::{AtomicOp, AtomicSize};
use crate::bytes::Bytes;
use crate::errno::Errno;

/// A change of a map. A flag is 0 for any, 1 for noexist, 2 for exist (bpf(2), `BPF_MAP_UPDATE_ELEM`).
#[derive(PartialEq, Eq, Debug, Drop)]
pub enum MapOp {
    Update {
        key: Bytes,
        value: Bytes,
        flag: u64,
    },
    Delete {
        key: Bytes,
    },
    Push {
        value: Bytes,
        flag: u64,
    },
    Pop,
    /// Writes bytes into the value under a key, from `offset` on.
    Store {
        key: Bytes,
        offset: u64,
        bytes: Bytes,
    },
    /// A read-modify-write of 4 or 8 bytes of the value under a key, from `offset` on.
    Atomic {
        key: Bytes,
        offset: u64,
        size: AtomicSize,
        op: AtomicOp,
        operand: u64,
    },
    /// Puts the id of a map or a program under a key of a map of ids.
    SetLink {
        key: Bytes,
        id: u32,
        flag: u64,
    },
}

impl MapOp {
    /// Its key, its value and its bytes are made of bytes, and its id has 32 bits. It does nothing.
    pub fn is_bounded(&self)
        ensures { IsBoundedOp self.now }
    {
        match self {
            MapOp::Update { key, value, .. } => {
                key.are_bytes();
                value.are_bytes();
            }
            MapOp::Push { value, .. } => value.are_bytes(),
            MapOp::Pop => {}
            MapOp::Store { key, bytes, .. } => {
                key.are_bytes();
                bytes.are_bytes();
            }
            MapOp::Delete { key } | MapOp::Atomic { key, .. } => key.are_bytes(),
            MapOp::SetLink { key, id, .. } => {
                key.are_bytes();
                let _id = *id;
            }
        }
    }
}

/// A question to a map. A dump lists what is there: an array's values by index, entries by ascending key, a queue's or
/// a stack's items oldest first, the keys of a map of ids under which an id stands.
#[derive(PartialEq, Eq, Debug, Drop)]
pub enum Query {
    Lookup(Bytes),
    /// The key after this one; after none, or after an absent one, the first.
    Next(Option<Bytes>),
    /// The dump's element of this number, from 0.
    Item(u32),
    Peek,
    /// How many elements a dump lists.
    Count,
}

/// The answer of a map.
#[derive(PartialEq, Eq, Debug, Drop)]
pub enum MapReply {
    Done,
    Nothing,
    /// What stands under a key: of an LPM trie the key is the prefix that matched.
    Found { key: Bytes, value: Bytes },
    Value(Bytes),
    Key(Bytes),
    Link(u32),
    Count(u32),
}

impl MapReply {
    /// What an atomic instruction answers: the bytes that stood there, if it fetches them.
    pub fn of_atomic(op: AtomicOp, before: Bytes) -> MapReply
        ensures { result ≡ atomic_reply op before }
    {
        if op.fetches() {
            MapReply::Value(before)
        } else {
            MapReply::Done
        }
    }

    /// What a question for the next key answers: the key, or that there is none.
    pub fn of_key(key: Option<Bytes>) -> MapReply
        ensures { result ≡ key_found key }
    {
        match key {
            Some(key) => MapReply::Key(key),
            None => MapReply::Nothing,
        }
    }

    /// What a question for an entry answers: its key and its value, or that there is none.
    pub fn of_entry(entry: Option<(Bytes, Bytes)>) -> MapReply
        ensures { result ≡ found entry }
    {
        match entry {
            Some((key, value)) => MapReply::Found { key, value },
            None => MapReply::Nothing,
        }
    }
}

/// Why a map did not answer. `NoMemory` is told only if an allocation failed.
#[derive(Clone, Copy, PartialEq, Eq, Debug)]
pub enum MapFault {
    Errno(Errno),
    NoMemory,
}

/// Why no map was made: its attributes are not good, or are another type's; or an allocation failed.
#[derive(Clone, Copy, PartialEq, Eq, Debug)]
pub enum NewFault {
    BadAttr,
    NoMemory,
}
