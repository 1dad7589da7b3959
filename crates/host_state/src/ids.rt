//! Maps that hold ids.

ghost use Rattle.std.specs.Prelude.{◌≡◌};
ghost use Rattle.bt_mapkind.specs.Inner.{holds_ids, holds_progs};
ghost use Rattle.host_state.specs.Settled.{named_in};

use bt_mapkind::MapType;
use bt_roots::Target;

/// Whether a map of this type holds ids.
pub fn holds_ids(kind: MapType) -> bool
    ensures { result ≡ holds_ids kind }
{
    matches!(
        kind,
        MapType::ArrayOfMaps | MapType::ProgArray | MapType::HashOfMaps
    )
}

/// What an id in a map of this type names.
pub fn named_in(kind: MapType, id: u32) -> Target
    ensures { result ≡ named_in kind id }
{
    match kind {
        MapType::ProgArray => Target::Prog(id),
        MapType::Array
        | MapType::Hash
        | MapType::LpmTrie
        | MapType::Queue
        | MapType::Stack
        | MapType::ArrayOfMaps
        | MapType::HashOfMaps => Target::Map(id),
    }
}

/// Whether a map of this type holds the ids of programs.
pub fn holds_progs(kind: MapType) -> bool
    ensures { result ≡ holds_progs kind }
{
    matches!(kind, MapType::ProgArray)
}
