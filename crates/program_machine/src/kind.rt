//! What a register or a stack word holds.

use bt_mapkind::MapType;

/// A map as a register holds it: its id, its type, and the sizes of its keys and values in bytes.
#[derive(Clone, Copy, Debug, PartialEq, Eq)]
pub struct MapHandle {
    pub id: u32,
    pub kind: MapType,
    pub key_size: u32,
    pub value_size: u32,
}

/// What is held, but for the key of a pointer to a value. A position counts bytes from the start of its region, and may
/// lie anywhere.
#[derive(Clone, Copy, Debug, PartialEq, Eq)]
pub enum Kind {
    Number(u64),
    /// The context of an XDP program, `xdp_md`.
    Context,
    Map(MapHandle),
    /// A pointer into the stack.
    Stack(u64),
    /// A pointer into the frame.
    Frame(u64),
    /// A pointer into the value under a key.
    Value { map: u32, position: u64 },
}
