//! A change of the host.

use crate::code::Code;
use bt_mapkind::{Bytes, MapAttr, MapOp};
use bt_roots::Target;
use host_words::Word;

/// Who makes a change.
#[derive(Clone, Copy, PartialEq, Eq, Debug)]
pub enum Origin {
    Console,
    /// A running program, by its id.
    Prog(u32),
}

/// One change, with all its arguments resolved.
#[derive(Debug, Drop)]
pub enum Change {
    /// Makes a map of this id and pins it at a path (bpftool-map(8), `map create`). The charge is that of its box, in
    /// bytes; an outer map names the map whose attributes its inner maps are to have.
    Create {
        id: u32,
        attr: MapAttr,
        charge: u64,
        name: Word,
        path: Word,
        template: Option<u32>,
    },
    /// An operation on one map (bpf(2), bpftool-map(8); RFC 9669, "Regular load and store operations" and "Atomic
    /// operations"). The console may ask for an update, a delete, a push and a pop; a program also for a store and an
    /// atomic operation, but not at a map of ids. Any other is EINVAL; an id is put into a map by a [`Change::Link`].
    Operate {
        origin: Origin,
        map: u32,
        op: MapOp,
    },
    /// Lets the console write a map no more (bpftool-map(8), `map freeze`); programs still do.
    Freeze {
        map: u32,
    },
    /// Puts the id of a map into an outer map, or that of a program into a program array, under a key
    /// (Documentation/bpf/map_of_maps.rst). The flag is as in an update.
    Link {
        map: u32,
        key: Bytes,
        id: u32,
        flag: u64,
    },
    /// Makes a program of this id and pins it at a path (bpftool-prog(8), `prog load`). The maps that it names are to be
    /// live; its name may be any.
    Load {
        id: u32,
        code: Code,
        name: Word,
        path: Word,
    },
    /// Pins a live object at a path (bpftool-map(8), `map pin`).
    Pin {
        target: Target,
        path: Word,
    },
    /// Takes the pin at a path away. What is no longer reachable then retires.
    Unpin {
        path: Word,
    },
    /// Attaches a live program to a device (bpftool-net(8), `net attach xdp`). A device that has a program gives it up
    /// only to an overwrite; what is no longer reachable then retires.
    Attach {
        prog: u32,
        device: Word,
        overwrite: bool,
    },
    /// Detaches the program of a device (bpftool-net(8), `net detach xdp`). What is no longer reachable then retires.
    Detach {
        device: Word,
    },
}
