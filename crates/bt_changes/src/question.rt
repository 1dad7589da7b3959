//! Questions about maps.

ghost use Rattle.std.specs.Prelude.{◌≡◌, ◌++◌, Some, is_some, IfOk, IsOk, OnOk};
ghost use Rattle.std.specs.FinMap as map;
ghost use Rattle.bt_mapkind.specs.Seen.{NeverWantsMemory};
ghost use Rattle.bt_objects.specs.Boxes.{one_more};
ghost use Rattle.host_state.specs.Hosts.{entry_at, host_of, hosts_of, entries_in, live_in};
ghost use Rattle.std.specs.Option.{option_map, option_to_list};
ghost use Rattle.bt_mapkind.specs.Read.{map_read};
ghost use Rattle.host_state.specs.Act.{if_live};
ghost use Rattle.host_state.specs.Ask.{if_found, reply_of, row_of, rows_of, maps_shown};
ghost use Rattle.host_state.specs.declared.ask.AskReply.TheVariants.{Attr as AttrReply, Maps as MapsReply, Pinned as PinnedReply};
ghost use Rattle.host_state.specs.Work.{AllOrNone};

use bt_mapkind::{Errno, MapFault, MapKind, Query};
use bt_objects::Objects;
use bt_roots::Roots;
use host_state::{AskReply, Entries, Listing, MapEntry, MapRow, frozen_if_live};
use host_words::{NoMemory, Word};
use std::alloc::Global;

/// The attributes of a live map.
pub(crate) fn attr_if_live<K: MapKind>(objects: &Objects<K>, entries: &Entries, id: u32) -> AskReply
    requires { is_some (entry_at (entries_in entries.now) id) ≡ is_some (map.get objects.now.by_id id) }
    ensures { result ≡ if_found (λ m. AttrReply m.attr) (live_in objects.now.by_id (entries_in entries.now) id) }
{
    if frozen_if_live(entries, id).is_none() {
        return AskReply::Refused(Errno::ENOENT);
    }
    match objects.make_at(id) {
        Some(make) => AskReply::Attr(make.attr),
        None => AskReply::Refused(Errno::ENOENT),
    }
}

/// The answer of a live map. Boxes whose room was reserved take no memory for it.
pub(crate) fn read_live<K: MapKind>(
    objects: &mut Objects<K>,
    entries: &Entries,
    id: u32,
    query: &Query,
) -> Result<AskReply, NoMemory>
    requires { is_some (entry_at (entries_in entries.now) id) ≡ is_some (map.get objects.old.by_id id) }
    ensures answer { IfOk result (λ reply. reply ≡ if_found (λ m. reply_of (map_read m.attr m.contents query.now)) (live_in objects.old.by_id (entries_in entries.now) id)) }
    ensures room { NeverWantsMemory K.seen → IsOk result }
    ensures same { objects.new.by_id ≡ objects.old.by_id }
    ensures work { AllOrNone objects.old.work (one_more objects.old.work) objects.new.work }
{
    if frozen_if_live(entries, id).is_none() {
        return Ok(AskReply::Refused(Errno::ENOENT));
    }
    match objects.read_at(id, query) {
        Ok(reply) => Ok(AskReply::Answered(reply)),
        Err(MapFault::Errno(errno)) => Ok(AskReply::Refused(errno)),
        Err(MapFault::NoMemory) => Err(NoMemory),
    }
}

// Adds what is shown of the map of a box and an entry, if it is there and live.
fn push_row<K: MapKind>(
    rows: &mut Vec<MapRow>,
    objects: &Objects<K>,
    id: u32,
    entry: &Option<MapEntry>,
) -> Result<(), NoMemory>
    ensures { OnOk result (rows.new.items ≡ rows.old.items ++ option_to_list (option_map (λ m. row_of (id, m)) (if_live (host_of (map.get objects.now.by_id id) entry.now)))) }
{
    let Some(entry) = entry else {
        return Ok(());
    };
    if !entry.live {
        return Ok(());
    }
    let Some(make) = objects.make_at(id) else {
        return Ok(());
    };
    let row = MapRow {
        id,
        attr: make.attr,
        name: entry.name.copy()?,
        frozen: entry.frozen,
    };
    rows.push(row)?;
    Ok(())
}

// What is shown of every live map, by ascending id.
fn show_all<K: MapKind>(
    alloc: Global,
    objects: &Objects<K>,
    entries: &Entries,
) -> Result<AskReply, NoMemory>
    ensures { IfOk result (λ reply. reply ≡ MapsReply (rows_of (hosts_of objects.now.by_id (entries_in entries.now)))) }
{
    let mut rows = Vec::new(alloc);
    for (id, entry) in entries.maps.iter() {
        push_row(&mut rows, objects, *id, entry)?;
    }
    Ok(AskReply::Maps(Listing::of(rows)))
}

// What is shown of a live map.
fn show_one<K: MapKind>(
    alloc: Global,
    objects: &Objects<K>,
    entries: &Entries,
    id: u32,
) -> Result<AskReply, NoMemory>
    ensures { IfOk result (λ reply. reply ≡ maps_shown (hosts_of objects.now.by_id (entries_in entries.now)) (live_in objects.now.by_id (entries_in entries.now)) (Some id)) }
{
    let mut rows = Vec::new(alloc);
    if let Some(entry) = entries.maps.get(&id) {
        push_row(&mut rows, objects, id, entry)?;
    }
    if rows.is_empty() {
        return Ok(AskReply::Refused(Errno::ENOENT));
    }
    Ok(AskReply::Maps(Listing::of(rows)))
}

/// What is shown of every live map by ascending id, or of this one.
pub(crate) fn show<K: MapKind>(
    alloc: Global,
    objects: &Objects<K>,
    entries: &Entries,
    only: Option<u32>,
) -> Result<AskReply, NoMemory>
    ensures { IfOk result (λ reply. reply ≡ maps_shown (hosts_of objects.now.by_id (entries_in entries.now)) (live_in objects.now.by_id (entries_in entries.now)) only) }
{
    match only {
        Some(id) => show_one(alloc, objects, entries, id),
        None => show_all(alloc, objects, entries),
    }
}

/// What is pinned at a path.
pub(crate) fn pinned_there(roots: &Roots, path: &Word) -> AskReply
    ensures { result ≡ if_found PinnedReply (map.get roots.now.pins path.now) }
{
    match roots.pinned(path) {
        Some(target) => AskReply::Pinned(target),
        None => AskReply::Refused(Errno::ENOENT),
    }
}
