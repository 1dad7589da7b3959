//! What a box was made with.

use bt_mapkind::MapAttr;

/// The attributes of a box, and its charge in bytes. They never change.
#[derive(Clone, Copy, PartialEq, Eq, Debug)]
pub struct Make {
    pub attr: MapAttr,
    pub charge: u64,
}
