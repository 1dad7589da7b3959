//! The dump of a map.

ghost use Rattle.std.specs.Prelude.{◌≡◌, ◌*◌, is_some, IfOk};
ghost use Rattle.std.specs.List.{filter_map, range_with_len};
ghost use Rattle.std.specs.FinMap as map;
ghost use Rattle.bt_mapkind.specs.declared.request.MapReply.TheVariants.{Key};
ghost use Rattle.bt_objects.specs.Boxes.{one_more};
ghost use Rattle.host_state.specs.Hosts.{entry_at, entries_in, live_in};
ghost use Rattle.host_retirement.specs.Gathered.{element_at, id_under};
ghost use Rattle.host_state.specs.Ask.{if_found, elements_of, shown_as};
ghost use Rattle.host_state.specs.declared.ask.AskReply.TheVariants.{Dump as DumpReply};
ghost use Rattle.host_state.specs.Work.{CallsAtMost, calls_at};

use bt_mapkind::{Bytes, Errno, MapKind, MapReply};
use bt_objects::Objects;
use host_retirement::{count_elements, element, id_under};
use host_state::{AskReply, Element, Entries, Listing, frozen_if_live};
use host_words::NoMemory;
use std::alloc::Global;

// What is shown of the id under a key.
fn linked_under<K: MapKind>(
    objects: &mut Objects<K>,
    id: u32,
    key: Bytes,
) -> Result<Option<Element>, NoMemory>
    ensures shown { IfOk result (λ shown. shown ≡ shown_as (id_under (map.get objects.old.by_id id)) (Key key)) }
    ensures same { objects.new.by_id ≡ objects.old.by_id }
    ensures work { objects.new.work ≡ one_more objects.old.work }
{
    let shown = key.copy();
    match id_under(objects, id, key)? {
        Some(found) => Ok(Some(Element::Link {
            key: shown,
            id: found,
        })),
        None => Ok(None),
    }
}

// What is shown of the element of this number.
fn shown_at<K: MapKind>(
    objects: &mut Objects<K>,
    id: u32,
    number: u32,
) -> Result<Option<Element>, NoMemory>
    ensures shown { IfOk result (λ shown. shown ≡ shown_as (id_under (map.get objects.old.by_id id)) (element_at (map.get objects.old.by_id id) number)) }
    ensures same { objects.new.by_id ≡ objects.old.by_id }
    ensures work { CallsAtMost 2 objects.old.work objects.new.work }
{
    match element(objects, id, number)? {
        MapReply::Found { key, value } => Ok(Some(Element::Pair { key, value })),
        MapReply::Value(bytes) => Ok(Some(Element::Item(bytes))),
        MapReply::Key(key) => linked_under(objects, id, key),
        MapReply::Done | MapReply::Nothing | MapReply::Link(_) | MapReply::Count(_) => Ok(None),
    }
}

// What is shown of the first so many elements of the map of a box.
fn elements<K: MapKind>(
    alloc: Global,
    objects: &mut Objects<K>,
    id: u32,
    count: u32,
) -> Result<Vec<Element>, NoMemory>
    ensures elements { IfOk result (λ list. list.items ≡ filter_map (λ n. shown_as (id_under (map.get objects.old.by_id id)) (element_at (map.get objects.old.by_id id) n)) (range_with_len 0 count)) }
    ensures same { objects.new.by_id ≡ objects.old.by_id }
    ensures work { CallsAtMost (2 * count) objects.old.work objects.new.work }
{
    let mut list = Vec::new(alloc);
    for number in 0..count {
        if let Some(shown) = shown_at(objects, id, number)? {
            list.push(shown)?;
        }
    }
    Ok(list)
}

/// All that a live map holds.
pub(crate) fn dump_live<K: MapKind>(
    alloc: Global,
    objects: &mut Objects<K>,
    entries: &Entries,
    id: u32,
) -> Result<AskReply, NoMemory>
    requires { is_some (entry_at (entries_in entries.now) id) ≡ is_some (map.get objects.old.by_id id) }
    ensures answer { IfOk result (λ reply. reply ≡ if_found (λ m. DumpReply (elements_of m.attr m.contents)) (live_in objects.old.by_id (entries_in entries.now) id)) }
    ensures same { objects.new.by_id ≡ objects.old.by_id }
    ensures work { CallsAtMost (calls_at (live_in objects.old.by_id (entries_in entries.now) id)) objects.old.work objects.new.work }
{
    if frozen_if_live(entries, id).is_none() {
        return Ok(AskReply::Refused(Errno::ENOENT));
    }
    let count = count_elements(objects, id)?;
    let list = elements(alloc, objects, id, count)?;
    Ok(AskReply::Dump(Listing::of(list)))
}
