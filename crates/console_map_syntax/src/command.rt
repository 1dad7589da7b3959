//! A command on maps.

use bt_mapkind::MapAttr;
use console_operand::{DataBytes, Reference, Value};
use host_words::Word;

/// A command on maps (bpftool-map(8)).
#[derive(PartialEq, Eq, Debug, Drop)]
pub enum MapCommand {
    /// Shows the attributes of a map; without one, of all maps.
    Show {
        map: Option<Reference>,
    },
    /// Makes a map and pins it at a path. An inner map is the one that the maps in it are to be like.
    Create {
        path: Word,
        attr: MapAttr,
        name: Word,
        inner_map: Option<Reference>,
    },
    /// Asks for all that a map holds.
    Dump {
        map: Reference,
    },
    /// Puts a value under a key; without a key, into a queue or a stack.
    Update {
        map: Reference,
        key: Option<DataBytes>,
        value: Value,
        flag: UpdateFlag,
    },
    /// Asks for the value under a key; without a key, for the next one of a queue or a stack.
    Lookup {
        map: Reference,
        key: Option<DataBytes>,
    },
    /// Asks for the key after this one; without a key, for the first.
    GetNext {
        map: Reference,
        key: Option<DataBytes>,
    },
    /// Takes a key out, with its value.
    Delete {
        map: Reference,
        key: DataBytes,
    },
    /// Asks for the next value of a queue or a stack.
    Peek {
        map: Reference,
    },
    /// Puts a value into a queue or on a stack.
    Push {
        map: Reference,
        value: Value,
    },
    /// Takes the next value out of a queue or off a stack.
    Pop {
        map: Reference,
    },
    /// Refuses what a console would change in the map from now on.
    Freeze {
        map: Reference,
    },
    /// Pins a map at one more path.
    Pin {
        map: Reference,
        path: Word,
    },
}

/// What an update asks of the key (bpf(2), `BPF_ANY`, `BPF_NOEXIST` and `BPF_EXIST`).
#[derive(Clone, Copy, PartialEq, Eq, Debug)]
pub enum UpdateFlag {
    /// Nothing.
    Any,
    /// That it is there.
    Exist,
    /// That it is not there.
    NoExist,
}
