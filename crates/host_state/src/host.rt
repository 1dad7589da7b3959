//! The parts of a host.

use crate::hosts::Entries;
use bt_mapkind::MapKind;
use bt_objects::Objects;
use bt_roots::Roots;
use std::alloc::Global;

/// The boxes, their entries with the programs, and the pins and devices: what a change works on.
#[derive(Drop)]
pub struct Host<K: MapKind> {
    pub objects: Objects<K>,
    /// An entry for each box, so that a map comes back without an allocation.
    pub entries: Entries,
    pub roots: Roots,
    pub alloc: Global,
}
