//! Putting an id into a map of ids.

ghost use Rattle.std.specs.Prelude.{◌≡◌, ◌+◌, Some, IsTrue, true};
ghost use Rattle.std.specs.FinMap as finite;
ghost use Rattle.std.specs.Option.{option_map, option_and_then};
ghost use Rattle.bt_mapkind.specs.Attributes.{good};
ghost use Rattle.bt_mapkind.specs.Inner.{has_slots, form_fault, type_number, agrees};
ghost use Rattle.host_state.specs.declared.entry.MapEntry.{MapEntry as Entry};
ghost use Rattle.host_state.specs.Act.{object_fault};
ghost use Rattle.host_operations.specs.Operated.{link_fault};
ghost use Rattle.host_state.specs.Hosts.{view_of, IsSound, entries_in};
ghost use Rattle.host_undoing.specs.Answers.{Answers};
ghost use Rattle.host_state.specs.declared.change.Change.TheVariants.{Link};
ghost use Rattle.bt_objects.specs.Boxes.{one_more};
ghost use Rattle.host_state.specs.Work.{Works, has_link_under};
ghost use Rattle.host_retirement.specs.Gathered.{calls_in};
ghost use Rattle.host_state.specs.Hosts.{entry_at, held, live_in, live_target_in, SameIds};

use crate::operate::{operate_map, operation_fault};
use bt_mapkind::{Bytes, Errno, MapAttr, MapKind, MapOp, MapType};
use bt_objects::Objects;
use bt_roots::Target;
use host_state::{
    Entries, Host, Origin, Refusal, Reply, attr_if_live, holds_ids, is_live_prog, named_in,
    template_at,
};
use host_undoing::Undoing;

/// Whether a map of this type holds ids by index.
fn has_slots(kind: MapType) -> bool
    ensures { result ≡ has_slots kind }
{
    matches!(kind, MapType::ArrayOfMaps | MapType::ProgArray)
}

/// What stands against a link whatever the map holds: EINVAL for a key of another size or, at an array, a flag other
/// than any, then E2BIG for an index past its end.
fn form_fault(attr: MapAttr, key: &Bytes, flag: u64) -> Option<Errno>
    requires { IsTrue (good attr) }
    ensures { result ≡ form_fault attr key.now flag }
{
    if !(holds_ids(attr.kind) && key.len() == attr.key_size as usize) {
        return Some(Errno::EINVAL);
    }
    if !has_slots(attr.kind) {
        return None;
    }
    if flag != 0 {
        return Some(Errno::EINVAL);
    }
    if key.index() >= attr.max_entries {
        return Some(Errno::E2BIG);
    }
    None
}

/// The number of a type in linux/bpf.h.
fn type_number(kind: MapType) -> u32
    ensures { result ≡ type_number kind }
{
    match kind {
        MapType::Hash => 1,
        MapType::Array => 2,
        MapType::ProgArray => 3,
        MapType::LpmTrie => 11,
        MapType::ArrayOfMaps => 12,
        MapType::HashOfMaps => 13,
        MapType::Queue => 22,
        MapType::Stack => 23,
    }
}

/// Whether an inner map agrees with a template.
fn agrees(template: MapAttr, attr: MapAttr) -> bool
    ensures { result ≡ agrees template attr }
{
    let kind = type_number(template.kind);
    type_number(attr.kind) == kind
        && attr.key_size == template.key_size
        && attr.value_size == template.value_size
        && attr.flags == template.flags
        && (kind != 2 || attr.max_entries == template.max_entries)
}

/// What stands against the object that an id names: ENOENT if no such object is live, EINVAL if a map does not
/// agree with the template.
fn named_fault<K: MapKind>(
    objects: &Objects<K>,
    entries: &Entries,
    template: Option<MapAttr>,
    named: Target,
) -> Option<Errno>
    requires { SameIds objects.now.by_id (entries_in entries.now) }
    ensures { result ≡ object_fault (live_in objects.now.by_id (entries_in entries.now)) (live_target_in (entries_in entries.now)) template named }
{
    let id = match named {
        Target::Map(id) => id,
        Target::Prog(id) if is_live_prog(entries, id) => return None,
        Target::Prog(_) => return Some(Errno::ENOENT),
    };
    let Some(attr) = attr_if_live(objects, entries, id) else {
        return Some(Errno::ENOENT);
    };
    match template {
        Some(template) if agrees(template, attr) => None,
        Some(_) | None => Some(Errno::EINVAL),
    }
}

/// What stands against a link at a map that is there: its form, then the object that the id names.
fn link_fault<K: MapKind>(
    host: &Host<K>,
    map: u32,
    key: &Bytes,
    id: u32,
    flag: u64,
) -> Option<Errno>
    requires same_ids { SameIds host.now.objects.by_id (entries_in host.now.entries) }
    requires good_attr { option_map (λ s. good s.attr) (finite.get host.now.objects.by_id map) ≡ Some true }
    ensures { let template = option_and_then (λ (entry : Entry). entry.template) (held (entry_at (entries_in host.now.entries) map)) in
        result ≡ link_fault host.now.objects.by_id (entries_in host.now.entries) template (finite.get host.now.objects.by_id map) key.now id flag }
{
    let Some(make) = host.objects.make_at(map) else {
        unreachable!()
    };
    if let Some(errno) = form_fault(make.attr, key, flag) {
        return Some(errno);
    }
    let named = named_in(make.attr.kind, id);
    named_fault(
        &host.objects,
        &host.entries,
        template_at(&host.entries, map),
        named,
    )
}

/// Puts an id into a live map of ids, and retires what is reachable no longer: nothing, if no id stood under the key.
pub fn link<K: MapKind>(
    host: &mut Host<K>,
    map: u32,
    key: &Bytes,
    id: u32,
    flag: u64,
) -> Result<(Reply, Undoing), Refusal>
    requires { IsSound host.old.objects.by_id (entries_in host.old.entries) host.old.roots }
    ensures sound { IsSound host.new.objects.by_id (entries_in host.new.entries) host.new.roots }
    ensures answer { Answers (view_of host.old.objects.by_id (entries_in host.old.entries) host.old.roots host.old.objects.work) (Link map key.now id flag) result
        (view_of host.new.objects.by_id (entries_in host.new.entries) host.new.roots host.new.objects.work) }
    ensures work { Works (has_link_under (live_in host.old.objects.by_id (entries_in host.old.entries) map) key.now) (calls_in host.old.objects.by_id (entries_in host.old.entries) + 2) result host.old.objects.work (one_more host.old.objects.work) host.new.objects.work }
{
    if let Some(errno) = operation_fault(&host.entries, map, Origin::Console, flag) {
        return Err(Refusal::Errno(errno));
    }
    if let Some(errno) = link_fault(host, map, key, id, flag) {
        return Err(Refusal::Errno(errno));
    }
    let op = MapOp::SetLink {
        key: key.copy(),
        id,
        flag,
    };
    operate_map(host, map, &op, None)
}
