//! What an operation on a box leaves.

use bt_mapkind::{KeptBack, MapType};

/// What an operation on a box leaves: the type of the map, and what takes the operation back, in a block with room for
/// every exchange of the map.
#[derive(Drop)]
pub struct Operated {
    pub kind: MapType,
    pub kept: KeptBack,
}
