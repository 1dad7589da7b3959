//! Why a map does not take what it is given.

ghost use Rattle.std.specs.Prelude.{◌≡◌};
ghost use Rattle.console_hint.specs.Rooms.{is_indexed, no_room};

use crate::operation::Operation;
use bt_mapkind::MapType;

/// Why a map does not take what it is given.
#[derive(Clone, Copy)]
pub enum NoRoom {
    /// It has as many entries as it may have.
    Full,
    /// This index is past its end.
    Past(u32),
}

// Whether a map of this type has indices, all of which are there.
fn is_indexed(kind: MapType) -> bool
    ensures { result ≡ is_indexed kind }
{
    matches!(
        kind,
        MapType::Array | MapType::ArrayOfMaps | MapType::ProgArray
    )
}

/// Why a map of this type does not take what an operation gives it: a map that has indices is never full.
pub fn no_room(kind: MapType, operation: &Operation) -> NoRoom
    ensures { result ≡ no_room kind operation.now.key }
{
    match &operation.key {
        Some(key) if is_indexed(kind) && key.len() == 4 => NoRoom::Past(key.index()),
        _ => NoRoom::Full,
    }
}
