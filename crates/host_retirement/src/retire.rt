//! Retirement: at the end of a change each live object that is not reachable retires.

ghost use Rattle.std.specs.Prelude.{◌≡◌, ◌↔◌, ◌++◌, ◌*◌, IsTrue, IfOk, OnOk, OnErr, true};
ghost use Rattle.std.specs.List.{filter_map, flat_map};
ghost use Rattle.std.specs.Map.{keys_of};
ghost use Rattle.std.specs.Ordering.{nat_cmp};
ghost use Rattle.std.specs.List.Sorted.{IsStrictlySortedBy};
ghost use Rattle.std.specs.FinMap as map;
ghost use Rattle.bt_roots.specs.declared.target.Target.TheVariants.{Map as MapTarget, Prog as ProgTarget};
ghost use Rattle.bt_roots.specs.Reachable.{IsAscending};
ghost use Rattle.bt_mapkind.specs.Inner.{holds_ids};
ghost use Rattle.host_state.specs.Settled.{named_in, links_of, links_of_map, links_of_prog, is_listed};
ghost use Rattle.bt_roots.specs.View.{RootsView};
ghost use Rattle.host_state.specs.Prelude.{ById, Seen};
ghost use Rattle.host_state.specs.Hosts.{state_of, hosts_of, progs_of, IsBuilt, entries_in};
ghost use Rattle.host_state.specs.Work.{CallsAtMost, WorksAt};
ghost use Rattle.host_retirement.specs.Cut.{HangsOn, IsHeld};
ghost use Rattle.host_retirement.specs.Gathered.{id_at, links_read, links_by, calls_by, calls_in, links_by_prog, retires, IsRetired, RetiredIf};

use crate::elements::{count_elements, element, id_under};
use bt_mapkind::{MapKind, MapReply, MapType};
use bt_objects::Objects;
use bt_roots::{Roots, Target};
use host_state::{
    Entries, HostProg, Listing, MapEntry, Retirement, frozen_if_live, holds_ids, is_live_prog,
    named_in, none_retired, revive,
};
use host_words::NoMemory;
use std::alloc::Global;

/// From and to.
type Link = (Target, Target);

// The id under the key of this number.
fn id_at<K: MapKind>(
    objects: &mut Objects<K>,
    id: u32,
    number: u32,
) -> Result<Option<u32>, NoMemory>
    ensures found { IfOk result (λ found. found ≡ id_at (map.get objects.old.by_id id) number) }
    ensures same { objects.new.by_id ≡ objects.old.by_id }
    ensures work { CallsAtMost 2 objects.old.work objects.new.work }
{
    match element(objects, id, number)? {
        MapReply::Key(key) => id_under(objects, id, key),
        MapReply::Done
        | MapReply::Nothing
        | MapReply::Found { .. }
        | MapReply::Value(_)
        | MapReply::Link(_)
        | MapReply::Count(_) => Ok(None),
    }
}

// Adds the first so many links of a map of ids.
fn add_first<K: MapKind>(
    links: &mut Vec<Link>,
    objects: &mut Objects<K>,
    id: u32,
    kind: MapType,
    count: u32,
) -> Result<(), NoMemory>
    ensures links { OnOk result (links.new.items ≡ links.old.items ++ links_read id kind (map.get objects.old.by_id id) count) }
    ensures same { objects.new.by_id ≡ objects.old.by_id }
    ensures work { CallsAtMost (2 * count) objects.old.work objects.new.work }
{
    for number in 0..count {
        if let Some(named) = id_at(objects, id, number)? {
            links.push((Target::Map(id), named_in(kind, named)))?;
        }
    }
    Ok(())
}

// Adds the links of the map of a box and an entry, if it is there and one of ids.
fn add_links<K: MapKind>(
    links: &mut Vec<Link>,
    objects: &mut Objects<K>,
    id: u32,
    entry: &Option<MapEntry>,
) -> Result<(), NoMemory>
    ensures links { OnOk result (links.new.items ≡ links.old.items ++ links_by objects.old.by_id id entry.now) }
    ensures same { objects.new.by_id ≡ objects.old.by_id }
    ensures work { CallsAtMost (calls_by objects.old.by_id id entry.now) objects.old.work objects.new.work }
{
    if entry.is_none() {
        return Ok(());
    }
    let Some(make) = objects.make_at(id) else {
        return Ok(());
    };
    if !holds_ids(make.attr.kind) {
        return Ok(());
    }
    let count = count_elements(objects, id)?;
    add_first(links, objects, id, make.attr.kind, count)
}

// Adds the links of a program, if one stands there.
fn add_prog_links(links: &mut Vec<Link>, id: u32, prog: &Option<HostProg>) -> Result<(), NoMemory>
    ensures { OnOk result (links.new.items ≡ links.old.items ++ links_by_prog id prog.now) }
{
    let Some(prog) = prog else {
        return Ok(());
    };
    for map in prog.code.maps() {
        links.push((Target::Prog(id), Target::Map(map.0)))?;
    }
    Ok(())
}

// The links of all programs.
fn prog_links(alloc: Global, entries: &Entries) -> Result<Vec<Link>, NoMemory>
    ensures { IfOk result (λ links. links.items ≡ flat_map links_of_prog (map.entries (progs_of (entries_in entries.now)))) }
{
    let mut links = Vec::new(alloc);
    for (id, prog) in entries.progs.iter() {
        add_prog_links(&mut links, *id, prog)?;
    }
    Ok(links)
}

// The links of all maps.
fn map_links<K: MapKind>(
    alloc: Global,
    objects: &mut Objects<K>,
    entries: &Entries,
) -> Result<Vec<Link>, NoMemory>
    requires { IsBuilt objects.old.by_id (entries_in entries.now) }
    ensures links { IfOk result (λ links. links.items ≡ flat_map links_of_map (map.entries (hosts_of objects.old.by_id (entries_in entries.now)))) }
    ensures same { objects.new.by_id ≡ objects.old.by_id }
    ensures work { CallsAtMost (calls_in objects.old.by_id (entries_in entries.now)) objects.old.work objects.new.work }
{
    let mut links = Vec::new(alloc);
    for (id, entry) in entries.maps.iter() {
        add_links(&mut links, objects, *id, entry)?;
    }
    Ok(links)
}

// The links of all programs and all maps.
fn links_of<K: MapKind>(
    alloc: Global,
    objects: &mut Objects<K>,
    entries: &Entries,
) -> Result<Vec<Link>, NoMemory>
    requires { IsBuilt objects.old.by_id (entries_in entries.now) }
    ensures links { IfOk result (λ links. (roots : RootsView) → links.items ≡ links_of (state_of objects.old.by_id (entries_in entries.now) roots)) }
    ensures same { objects.new.by_id ≡ objects.old.by_id }
    ensures work { CallsAtMost (calls_in objects.old.by_id (entries_in entries.now)) objects.old.work objects.new.work }
{
    let maps = map_links(alloc, objects, entries)?;
    let mut links = prog_links(alloc, entries)?;
    links.extend_from_slice(&maps)?;
    Ok(links)
}

// Whether an object is among these. It takes time in the logarithm of their number.
fn is_listed(targets: &[Target], target: Target) -> bool
    requires { IsAscending targets.now }
    ensures { result ≡ is_listed targets.now target }
{
    targets.binary_search(&target).is_ok()
}

// The map of an id, if it is live and not among what is reachable.
fn retires(entries: &Entries, live: &[Target], id: u32) -> Option<Target>
    requires { IsAscending live.now }
    ensures { result ≡ retires (entries_in entries.now) live.now (MapTarget id) }
{
    let target = Target::Map(id);
    match frozen_if_live(entries, id) {
        Some(_) if !is_listed(live, target) => Some(target),
        Some(_) | None => None,
    }
}

// The program of an id, if it is live and not among what is reachable.
fn retires_prog(entries: &Entries, live: &[Target], id: u32) -> Option<Target>
    requires { IsAscending live.now }
    ensures { result ≡ retires (entries_in entries.now) live.now (ProgTarget id) }
{
    let target = Target::Prog(id);
    if is_live_prog(entries, id) && !is_listed(live, target) {
        Some(target)
    } else {
        None
    }
}

// The maps that are live and not among what is reachable.
fn retired_maps(alloc: Global, entries: &Entries, live: &[Target]) -> Result<Vec<Target>, NoMemory>
    requires { IsAscending live.now }
    ensures list { IfOk result (λ list. list.items ≡ filter_map (λ id. retires (entries_in entries.now) live.now (MapTarget id)) (keys_of (entries_in entries.now).maps)) }
    ensures ordered { IsStrictlySortedBy nat_cmp (keys_of (entries_in entries.now).maps) }
{
    let mut list = Vec::new(alloc);
    for (id, _) in entries.maps.iter() {
        if let Some(target) = retires(entries, live, *id) {
            list.push(target)?;
        }
    }
    Ok(list)
}

// Adds the programs that are live and not among what is reachable.
fn add_retired_progs(
    list: &mut Vec<Target>,
    entries: &Entries,
    live: &[Target],
) -> Result<(), NoMemory>
    requires { IsAscending live.now }
    ensures list { OnOk result (list.new.items ≡ list.old.items ++ filter_map (λ id. retires (entries_in entries.now) live.now (ProgTarget id)) (keys_of (entries_in entries.now).progs)) }
    ensures ordered { IsStrictlySortedBy nat_cmp (keys_of (entries_in entries.now).progs) }
{
    for (id, _) in entries.progs.iter() {
        if let Some(target) = retires_prog(entries, live, *id) {
            list.push(target)?;
        }
    }
    Ok(())
}

// Retires each live object that is not reachable over these links, which are those of all programs and all maps.
fn retire_by(
    alloc: Global,
    links: &[Link],
    entries: &mut Entries,
    roots: &Roots,
) -> Result<Retirement, NoMemory>
    ensures retired { IfOk result (λ retired. (boxes : ById Seen) →
        IsBuilt boxes (entries_in entries.old) → links.now ≡ links_of (state_of boxes (entries_in entries.old) roots.now) →
        IsRetired boxes (entries_in entries.old) roots.now retired (entries_in entries.new)) }
    ensures refused { OnErr result (entries_in entries.new ≡ entries_in entries.old) }
{
    let live = roots.live_set(links)?;
    let mut targets = retired_maps(alloc, entries, &live)?;
    add_retired_progs(&mut targets, entries, &live)?;
    revive(entries, &targets, false);
    Ok(Retirement {
        targets: Listing::of(targets),
        live: true,
    })
}

/// Retires each live object that is not reachable. Takes memory; if it is refused nothing has changed.
pub fn retire<K: MapKind>(
    alloc: Global,
    objects: &mut Objects<K>,
    entries: &mut Entries,
    roots: &Roots,
) -> Result<Retirement, NoMemory>
    requires { IsBuilt objects.old.by_id (entries_in entries.old) }
    ensures retired { IfOk result (λ retired. IsRetired objects.old.by_id (entries_in entries.old) roots.now retired (entries_in entries.new)) }
    ensures refused { OnErr result (entries_in entries.new ≡ entries_in entries.old) }
    ensures same { objects.new.by_id ≡ objects.old.by_id }
    ensures work { CallsAtMost (calls_in objects.old.by_id (entries_in entries.old)) objects.old.work objects.new.work }
{
    let links = links_of(alloc, objects, entries)?;
    retire_by(alloc, &links, entries, roots)
}

/// Retires what is reachable no longer, as [`retire`] does, if all that is live was reachable until this object was
/// unpinned or detached. If it is pinned or attached elsewhere, or a link leads to it from an object that is, nothing is
/// lost: that is looked for first, among the links of the programs and then of the maps, and the walk is spared.
pub fn retire_cut<K: MapKind>(
    cut: Option<Target>,
    alloc: Global,
    objects: &mut Objects<K>,
    entries: &mut Entries,
    roots: &Roots,
) -> Result<Retirement, NoMemory>
    requires built { IsBuilt objects.old.by_id (entries_in entries.old) }
    requires cut { HangsOn cut (state_of objects.old.by_id (entries_in entries.old) roots.now) }
    ensures retired { IfOk result (λ retired. IsRetired objects.old.by_id (entries_in entries.old) roots.now retired (entries_in entries.new)) }
    ensures refused { OnErr result (entries_in entries.new ≡ entries_in entries.old) }
    ensures same { objects.new.by_id ≡ objects.old.by_id }
    ensures work { CallsAtMost (calls_in objects.old.by_id (entries_in entries.old)) objects.old.work objects.new.work }
{
    let mut links = prog_links(alloc, entries)?;
    if is_held(roots, &links, cut)? {
        return Ok(none_retired(alloc));
    }
    let maps = map_links(alloc, objects, entries)?;
    if is_held(roots, &maps, cut)? {
        return Ok(none_retired(alloc));
    }
    links.extend_from_slice(&maps)?;
    retire_by(alloc, &links, entries, roots)
}

// Whether no object was cut, or the one that was is reachable still, as the roots and these links show.
fn is_held(roots: &Roots, links: &[Link], cut: Option<Target>) -> Result<bool, NoMemory>
    ensures { IfOk result (λ held. IsTrue held ↔ IsHeld roots.now.pins roots.now.devices links.now cut) }
{
    match cut {
        Some(target) => roots.lead_to(links, target),
        None => Ok(true),
    }
}

/// Retires each live object that is not reachable if something may have been taken away, as [`retire`] does; else nothing,
/// and takes no memory.
pub fn retire_if<K: MapKind>(
    walks: bool,
    alloc: Global,
    objects: &mut Objects<K>,
    entries: &mut Entries,
    roots: &Roots,
) -> Result<Retirement, NoMemory>
    requires { IsBuilt objects.old.by_id (entries_in entries.old) }
    ensures retired { IfOk result (λ retired. RetiredIf walks objects.old.by_id (entries_in entries.old) roots.now retired (entries_in entries.new)) }
    ensures refused { OnErr result (entries_in entries.new ≡ entries_in entries.old) }
    ensures walked { OnErr result (walks ≡ true) }
    ensures same { objects.new.by_id ≡ objects.old.by_id }
    ensures work { WorksAt walks (calls_in objects.old.by_id (entries_in entries.old)) objects.old.work objects.new.work }
{
    if walks {
        retire(alloc, objects, entries, roots)
    } else {
        Ok(none_retired(alloc))
    }
}
