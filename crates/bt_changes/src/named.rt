//! Live objects by their names, from the entries alone: no list is made, and nothing is copied.

ghost use Rattle.std.specs.Prelude.{◌≡◌, ◌∷◌, [], if◌then◌else◌};
ghost use Rattle.std.specs.FinMap as map;
ghost use Rattle.std.specs.Option.{option_map, option_to_list};
ghost use Rattle.host_state.specs.Act.{if_live};
ghost use Rattle.host_state.specs.Ask.{row_of, rows_of, prog_row, prog_rows, if_live_prog};
ghost use Rattle.host_state.specs.Hosts.{host_of, hosts_of, progs_of, entries_in};
ghost use Rattle.bt_changes.specs.Named.{of_ids, maps_of_name, progs_of_name};

use bt_mapkind::MapKind;
use bt_objects::Objects;
use host_state::{Entries, HostProg, MapEntry};

/// Which live object has a name.
#[derive(Clone, Copy, PartialEq, Eq, Debug)]
pub enum OfName {
    /// None has.
    Nothing,
    /// Just the one of this id.
    One(u32),
    /// More than one.
    Several,
}

// Whether the map of a box and an entry is live and has the name.
fn has_name<K: MapKind>(
    objects: &Objects<K>,
    id: u32,
    entry: &Option<MapEntry>,
    name: &[u8],
) -> bool
    ensures { (if result then id ∷ [] else []) ≡ maps_of_name name.now (option_to_list (option_map (λ m. row_of (id, m)) (if_live (host_of (map.get objects.now.by_id id) entry.now)))) }
{
    match entry {
        Some(entry) => {
            entry.live && entry.name.as_slice() == name && objects.make_at(id).is_some()
        }
        None => false,
    }
}

/// The live map that has a name.
pub(crate) fn map_of_name<K: MapKind>(
    objects: &Objects<K>,
    entries: &Entries,
    name: &[u8],
) -> OfName
    ensures { result ≡ of_ids (maps_of_name name.now (rows_of (hosts_of objects.now.by_id (entries_in entries.now)))) }
{
    let mut found = OfName::Nothing;
    for (id, entry) in entries.maps.iter() {
        if has_name(objects, *id, entry, name) {
            found = found.with(*id);
        }
    }
    found
}

// Whether the program of an entry is live and has the name.
fn prog_has_name(id: u32, prog: &Option<HostProg>, name: &[u8]) -> bool
    ensures { (if result then id ∷ [] else []) ≡ progs_of_name name.now (option_to_list (option_map (λ p. prog_row (id, p)) (if_live_prog prog.now))) }
{
    match prog {
        Some(prog) => prog.live && prog.name.as_slice() == name,
        None => false,
    }
}

/// The live program that has a name.
pub(crate) fn prog_of_name(entries: &Entries, name: &[u8]) -> OfName
    ensures { result ≡ of_ids (progs_of_name name.now (prog_rows (progs_of (entries_in entries.now)))) }
{
    let mut found = OfName::Nothing;
    for (id, prog) in entries.progs.iter() {
        if prog_has_name(*id, prog, name) {
            found = found.with(*id);
        }
    }
    found
}

impl OfName {
    ghost use Rattle.bt_changes.specs.Named.{with_one};

    // With one more that has the name.
    fn with(self, id: u32) -> OfName
        ensures { result ≡ with_one self id }
    {
        match self {
            OfName::Nothing => OfName::One(id),
            OfName::One(_) | OfName::Several => OfName::Several,
        }
    }
}
