//! What is shown of a map, of a program and of a device.

use crate::listing::Listing;
use bt_mapkind::{Bytes, MapAttr};
use host_words::Word;

/// What is shown of a live map.
#[derive(PartialEq, Eq, Debug, Drop)]
pub struct MapRow {
    pub id: u32,
    pub attr: MapAttr,
    pub name: Word,
    /// Whether the console may write the map no more.
    pub frozen: bool,
}

/// What a dump shows of an element: just what a lookup of it or a peek would (bpftool-map(8), `map dump`).
#[derive(PartialEq, Eq, Debug, Drop)]
pub enum Element {
    /// The value under a key.
    Pair { key: Bytes, value: Bytes },
    /// An item of a queue or of a stack.
    Item(Bytes),
    /// The id under a key of a map of ids.
    Link { key: Bytes, id: u32 },
}

/// What is shown of a live program.
#[derive(PartialEq, Eq, Debug, Drop)]
pub struct ProgRow {
    pub id: u32,
    pub name: Word,
    /// How many instructions it has; a wide one counts once.
    pub insns: usize,
    /// The ids of the maps that it names, ascending.
    pub maps: Listing<u32>,
}

/// What is shown of a device to which a program is attached.
#[derive(PartialEq, Eq, Debug, Drop)]
pub struct DeviceRow {
    pub name: Word,
    /// From 1, in the order of the devices.
    pub ifindex: u32,
    /// The id of the program.
    pub prog: u32,
}
