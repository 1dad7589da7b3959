//! A new map.

ghost use Rattle.std.specs.Prelude.{◌≡◌, ◌≢◌, ◌↔◌, IfOk, IsTrue, Some, None};
ghost use Rattle.std.specs.FinMap as finite;
ghost use Rattle.std.specs.Option.{option_map};
ghost use Rattle.bt_objects.specs.Boxes.{make_of};
ghost use Rattle.bt_roots.specs.declared.target.Target.TheVariants.{Map as MapTarget};
ghost use Rattle.bt_mapkind.specs.Inner.{needs_template};
ghost use Rattle.host_state.specs.Act.{attr_if_live, template_by};
ghost use Rattle.host_state.specs.Hosts.{entry_at, view_of, PutsEntry, SameIds, IsSound, entries_in, live_in};
ghost use Rattle.host_undoing.specs.Answers.{Answers};
ghost use Rattle.host_state.specs.declared.change.Change.{Change};
ghost use Rattle.host_pins.specs.Made.{may_create, refusal_of, Pins};
ghost use Rattle.host_state.specs.State.{new_entry};

use bt_mapkind::{Errno, MapAttr, MapKind, MapType};
use bt_objects::{Make, Objects};
use bt_roots::{RootBack, RootFault, Roots, Target};
use host_state::{
    Entries, Host, MapEntry, Refusal, Reply, attr_if_live, exchange_entry, has_host, holds_ids,
    none_retired,
};
use host_undoing::{Part, Undoing};
use host_words::{NoMemory, Word, is_name};

/// Whether a map of this type has a template for its inner maps.
fn needs_template(kind: MapType) -> bool
    ensures { result ≡ needs_template kind }
{
    matches!(kind, MapType::ArrayOfMaps | MapType::HashOfMaps)
}

/// The attributes that the inner maps of a new map are to have: those of the live map that is named, which is no map of
/// ids.
fn template_in<K: MapKind>(
    objects: &Objects<K>,
    entries: &Entries,
    kind: MapType,
    template: Option<u32>,
) -> Result<Option<MapAttr>, Errno>
    requires { SameIds objects.now.by_id (entries_in entries.now) }
    ensures { result ≡ template_by (λ id. attr_if_live (live_in objects.now.by_id (entries_in entries.now) id)) kind template }
{
    let Some(id) = template else {
        return if needs_template(kind) {
            Err(Errno::EINVAL)
        } else {
            Ok(None)
        };
    };
    match attr_if_live(objects, entries, id) {
        Some(attr) if needs_template(kind) && !holds_ids(attr.kind) => Ok(Some(attr)),
        Some(_) => Err(Errno::EINVAL),
        None => Err(Errno::ENOENT),
    }
}

/// Whether a map of this make and name may stand under the id, and what its inner maps are to have: EEXIST if one
/// stands there, EINVAL for bad attributes or a bad name, then the faults of the template.
fn may_create<K: MapKind>(
    host: &Host<K>,
    map: u32,
    attr: MapAttr,
    name: &Word,
    template: Option<u32>,
) -> Result<Option<MapAttr>, Errno>
    requires { SameIds host.now.objects.by_id (entries_in host.now.entries) }
    ensures { result ≡ may_create host.now.objects.by_id (entries_in host.now.entries) map attr name.now template }
{
    if has_host(&host.entries, map) {
        return Err(Errno::EEXIST);
    }
    if !(attr.good() && is_name(name.as_slice())) {
        return Err(Errno::EINVAL);
    }
    template_in(&host.objects, &host.entries, attr.kind, template)
}

/// The entry of a new map of this name. Takes memory for the name.
fn new_entry(name: &Word, template: Option<MapAttr>) -> Result<MapEntry, NoMemory>
    ensures { IfOk result (λ entry. entry ≡ new_entry name.now template) }
{
    Ok(MapEntry {
        name: name.copy()?,
        frozen: false,
        live: true,
        template,
    })
}

/// Pins the map of the box that waits under the id, and gives it this entry. Takes memory for its path.
fn pin_new(
    entries: &mut Entries,
    roots: &mut Roots,
    map: u32,
    entry: MapEntry,
    path: &Word,
) -> Result<RootBack, Refusal>
    requires { entry_at (entries_in entries.old) map ≢ None }
    ensures { let is_put = PutsEntry (entries_in entries.old) (entries_in entries.new) map (Some (Some entry)) in
        Pins is_put (entries_in entries.old) roots.old (MapTarget map) path.now result (entries_in entries.new) roots.new }
{
    let pin = match roots.pin(path, Target::Map(map)) {
        Ok(pin) => pin,
        Err(fault) => return Err(refusal_of(fault)),
    };
    let mut entry = Some(entry);
    exchange_entry(entries, map, &mut entry);
    Ok(pin)
}

/// Makes a map of the box that waits under the id, and pins it. WrongBlank if no such box is there; then what stands
/// against the map, its template and its path.
pub fn create<K: MapKind>(
    host: &mut Host<K>,
    map: u32,
    make: Make,
    name: &Word,
    path: &Word,
    template: Option<u32>,
) -> Result<(Reply, Undoing), Refusal>
    requires { IsSound host.old.objects.by_id (entries_in host.old.entries) host.old.roots }
    ensures sound { IsSound host.new.objects.by_id (entries_in host.new.entries) host.new.roots }
    ensures answer { Answers (view_of host.old.objects.by_id (entries_in host.old.entries) host.old.roots host.old.objects.work)
        (Change.Create map make.attr make.charge name.now path.now template) result
        (view_of host.new.objects.by_id (entries_in host.new.entries) host.new.roots host.new.objects.work) }
    ensures work { host.new.objects.work ≡ host.old.objects.work }
{
    if !was_made(&host.objects, map, make) {
        return Err(Refusal::WrongBlank);
    }
    let agreed = match may_create(host, map, make.attr, name, template) {
        Ok(agreed) => agreed,
        Err(errno) => return Err(Refusal::Errno(errno)),
    };
    let entry = match new_entry(name, agreed) {
        Ok(entry) => entry,
        Err(_) => return Err(Refusal::NoMemory),
    };
    match pin_new(&mut host.entries, &mut host.roots, map, entry, path) {
        Ok(pin) => Ok((
            Reply::Id(map),
            Undoing {
                part: Part::Presence {
                    map,
                    make,
                    entry: None,
                    pin,
                },
                retired: none_retired(host.alloc),
            },
        )),
        Err(refusal) => Err(refusal),
    }
}

// Whether the box of an id was made so.
fn was_made<K: MapKind>(objects: &Objects<K>, map: u32, make: Make) -> bool
    ensures { IsTrue result ↔ (option_map make_of (finite.get objects.now.by_id map) ≡ Some make) }
{
    match objects.make_at(map) {
        Some(found) => is_same(found, make),
        None => false,
    }
}

// Whether two makes are the same.
fn is_same(a: Make, b: Make) -> bool
    ensures { IsTrue result ↔ (a ≡ b) }
{
    a == b
}

/// What is told of a fault of the roots.
pub(crate) fn refusal_of(fault: RootFault) -> Refusal
    ensures { result ≡ refusal_of fault }
{
    match fault {
        RootFault::BadPath => Refusal::Errno(Errno::EINVAL),
        RootFault::Exists => Refusal::Errno(Errno::EEXIST),
        RootFault::NoEntry | RootFault::NoDevice => Refusal::Errno(Errno::ENOENT),
        RootFault::Busy => Refusal::Errno(Errno::EBUSY),
        RootFault::NoMemory => Refusal::NoMemory,
    }
}
