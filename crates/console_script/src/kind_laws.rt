//! What holds of the host's maps, the contract of a function that does nothing.

ghost use Rattle.bt_mapkind.specs.Seen.{NeverWantsMemory};

use crate::kind::HostKind;
use bt_mapkind::MapKind;

/// Each map of the host has all its room from the start, so its calls take no memory. What is promised of kinds whose maps
/// never want memory, as that a look-up by an id always has its answer, holds of the host's.
pub fn no_map_of_the_host_wants_memory()
    ensures { NeverWantsMemory ⟦<HostKind as MapKind>⟧.seen }
{}
