//! The entries of the maps: each box has one, which is empty while the box waits for its map; beside them those of the
//! programs.

ghost use Rattle.std.specs.Prelude.{◌≡◌, ◌≢◌, [], ◌∷◌, None, Some, is_some, OnOk, OnErr};
ghost use Rattle.std.specs.Option.{option_map, option_map_or, option_and_then};
ghost use Rattle.host_state.specs.Hosts.{entry_at, held, frozen_of, PutsEntry, held_as, RevivesEntries, entries_in, live_in, SameIds};
ghost use Rattle.host_state.specs.Act.{attr_if_live};
ghost use Rattle.host_state.specs.declared.entry.MapEntry.{MapEntry as Entry};

use crate::entry::{HostProg, MapEntry};
use crate::progs::set_prog_live;
use bt_mapkind::{MapAttr, MapKind};
use bt_objects::Objects;
use bt_roots::Target;
use host_words::NoMemory;
use std::collections::BTreeMap;
use std::mem;

/// An entry for each box, and one for each program, which is empty while its load is undone.
#[derive(Drop)]
pub struct Entries {
    pub maps: BTreeMap<u32, Option<MapEntry>>,
    pub progs: BTreeMap<u32, Option<HostProg>>,
}

/// Whether the console may write the live map of the id no more; `None` if no such map is live.
pub fn frozen_if_live(entries: &Entries, id: u32) -> Option<bool>
    ensures { result ≡ frozen_of (held (entry_at (entries_in entries.now) id)) }
{
    match entries.maps.get(&id) {
        Some(Some(entry)) if entry.live => Some(entry.frozen),
        Some(_) | None => None,
    }
}

/// The attributes of the live map of the id.
pub fn attr_if_live<K: MapKind>(objects: &Objects<K>, entries: &Entries, id: u32) -> Option<MapAttr>
    requires { SameIds objects.now.by_id (entries_in entries.now) }
    ensures { result ≡ attr_if_live (live_in objects.now.by_id (entries_in entries.now) id) }
{
    if frozen_if_live(entries, id).is_none() {
        return None;
    }
    match objects.make_at(id) {
        Some(make) => Some(make.attr),
        None => None,
    }
}

/// Whether a map stands under the id.
pub fn has_host(entries: &Entries, id: u32) -> bool
    ensures { result ≡ is_some (held (entry_at (entries_in entries.now) id)) }
{
    match entries.maps.get(&id) {
        Some(entry) => entry.is_some(),
        None => false,
    }
}

/// What the inner maps of the outer map of the id are to have.
pub fn template_at(entries: &Entries, id: u32) -> Option<MapAttr>
    ensures { result ≡ option_and_then (λ (entry : Entry). entry.template) (held (entry_at (entries_in entries.now) id)) }
{
    match entries.maps.get(&id) {
        Some(Some(entry)) => entry.template,
        Some(None) | None => None,
    }
}

/// Makes an empty entry.
pub fn add_entry(entries: &mut Entries, id: u32) -> Result<(), NoMemory>
    ensures added { OnOk result (PutsEntry (entries_in entries.old) (entries_in entries.new) id (Some None)) }
    ensures refused { OnErr result (entries_in entries.new ≡ entries_in entries.old) }
{
    entries.maps.insert(id, None)?;
    Ok(())
}

/// Exchanges what stands at an id with an entry for this.
pub fn exchange_entry(entries: &mut Entries, id: u32, entry: &mut Option<MapEntry>)
    requires { entry_at (entries_in entries.old) id ≢ None }
    ensures before { entry.new ≡ held (entry_at (entries_in entries.old) id) }
    ensures puts { PutsEntry (entries_in entries.old) (entries_in entries.new) id (Some entry.old) }
{
    match entries.maps.get_mut(&id) {
        Some(slot) => mem::swap(slot, entry),
        None => {}
    }
}

/// Exchanges whether the console may write a map no more with this, if a map stands under the id.
pub fn exchange_frozen(entries: &mut Entries, id: u32, frozen: &mut bool)
    ensures before { frozen.new ≡ option_map_or (λ (entry : Entry). entry.frozen) (held (entry_at (entries_in entries.old) id)) frozen.old }
    ensures puts { PutsEntry (entries_in entries.old) (entries_in entries.new) id (held_as (λ (entry : Entry). record entry { frozen = frozen.old }) (entry_at (entries_in entries.old) id)) }
{
    match entries.maps.get_mut(&id) {
        Some(entry) => exchange_flag(entry, frozen),
        None => {}
    }
}

// Exchanges whether a map is frozen with this, if there is one.
fn exchange_flag(entry: &mut Option<MapEntry>, frozen: &mut bool)
    ensures before { frozen.new ≡ option_map_or (λ (entry : Entry). entry.frozen) entry.old frozen.old }
    ensures puts { entry.new ≡ option_map (λ (entry : Entry). record entry { frozen = frozen.old }) entry.old }
{
    match entry {
        Some(entry) => mem::swap(&mut entry.frozen, frozen),
        None => {}
    }
}

/// Makes the objects that are listed live, or retires them.
pub fn revive(entries: &mut Entries, targets: &[Target], live: bool)
    ensures { RevivesEntries (entries_in entries.old) (entries_in entries.new) targets.now live }
{
    for target in targets {
        set_target(entries, *target, live);
    }
}

// Makes an object live, or retires it, if it stands there.
fn set_target(entries: &mut Entries, target: Target, live: bool)
    ensures { RevivesEntries (entries_in entries.old) (entries_in entries.new) (target ∷ []) live }
{
    match target {
        Target::Map(id) => set_live(entries, id, live),
        Target::Prog(id) => set_prog_live(entries, id, live),
    }
}

// Makes a map live, or retires it, if one stands under the id.
fn set_live(entries: &mut Entries, id: u32, live: bool)
    ensures { PutsEntry (entries_in entries.old) (entries_in entries.new) id (held_as (λ (entry : Entry). record entry { live = live }) (entry_at (entries_in entries.old) id)) }
{
    match entries.maps.get_mut(&id) {
        Some(entry) => set_flag(entry, live),
        None => {}
    }
}

// Sets whether a map is live, if there is one.
fn set_flag(entry: &mut Option<MapEntry>, live: bool)
    ensures { entry.new ≡ option_map (λ (entry : Entry). record entry { live = live }) entry.old }
{
    match entry {
        Some(entry) => entry.live = live,
        None => {}
    }
}
