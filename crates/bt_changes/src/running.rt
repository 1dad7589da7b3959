//! Questions of what runs: the program that a frame starts, and the one that a tail call finds.

ghost use Rattle.std.specs.Prelude.{◌≡◌, Some, is_some, IfOk, if◌then◌else◌};
ghost use Rattle.std.specs.FinMap as finite;
ghost use Rattle.bt_mapkind.specs.Read.{key_of_index};
ghost use Rattle.bt_objects.specs.Boxes.{one_more};
ghost use Rattle.bt_roots.specs.Exchange.{device_named};
ghost use Rattle.host_state.specs.Ask.{if_found, id_in, named};
ghost use Rattle.host_state.specs.declared.ask.AskReply.TheVariants.{Started, Fetched, Refused};
ghost use Rattle.bt_mapkind.specs.declared.errno.Errno.TheVariants.{EINVAL};
ghost use Rattle.host_state.specs.Hosts.{entry_at, entries_in, live_in, live_prog_at};
ghost use Rattle.bt_mapkind.specs.Inner.{holds_progs};
ghost use Rattle.std.specs.Option.{option_map};
ghost use Rattle.host_retirement.specs.Gathered.{id_under};
ghost use Rattle.host_state.specs.Work.{AllOrNone};

use bt_mapkind::{Bytes, Errno, MapKind, MapType};
use bt_objects::Objects;
use bt_roots::Roots;
use bt_verify::Program;
use host_retirement::id_under;
use host_state::{AskReply, Entries, frozen_if_live, holds_progs};
use host_words::{NoMemory, Word};
use std::alloc::Global;

// A live program, to be run.
fn program_if_live(entries: &Entries, id: u32) -> Result<Option<Program>, NoMemory>
    ensures { IfOk result (λ program. program ≡ named (live_prog_at (entries_in entries.now)) (Some id)) }
{
    match entries.progs.get(&id) {
        Some(Some(prog)) if prog.live => {
            let program = prog.code.program(id)?;
            Ok(Some(program))
        }
        Some(_) | None => Ok(None),
    }
}

// The live program that an id names, if one does.
fn named(entries: &Entries, id: Option<u32>) -> Result<Option<Program>, NoMemory>
    ensures { IfOk result (λ program. program ≡ named (live_prog_at (entries_in entries.now)) id) }
{
    match id {
        Some(id) => program_if_live(entries, id),
        None => Ok(None),
    }
}

/// The program that is attached to a device, with its ifindex.
pub(crate) fn start(entries: &Entries, roots: &Roots, device: &Word) -> Result<AskReply, NoMemory>
    ensures { IfOk result (λ reply. reply ≡ if_found (λ d. Started (option_map (λ program. (program, d.0)) (named (live_prog_at (entries_in entries.now)) d.1))) (device_named roots.now.devices device.now)) }
{
    let Some((ifindex, prog)) = roots.device(device.as_slice()) else {
        return Ok(AskReply::Refused(Errno::ENOENT));
    };
    match named(entries, prog)? {
        Some(program) => Ok(AskReply::Started(Some((program, ifindex)))),
        None => Ok(AskReply::Started(None)),
    }
}

// The key of an index.
fn key_of_index(alloc: Global, index: u32) -> Bytes
    ensures { result ≡ key_of_index index }
{
    Bytes::of(alloc, &index.to_le_bytes()).unwrap()
}

// The program under a key of a map of this type, if it holds programs.
fn fetch_slot<K: MapKind>(
    objects: &mut Objects<K>,
    entries: &Entries,
    kind: MapType,
    map: u32,
    key: Bytes,
) -> Result<AskReply, NoMemory>
    ensures answer { IfOk result (λ reply. reply ≡ if holds_progs kind then Fetched (named (live_prog_at (entries_in entries.now)) (id_under (finite.get objects.old.by_id map) key)) else Refused EINVAL) }
    ensures same { objects.new.by_id ≡ objects.old.by_id }
    ensures work { AllOrNone objects.old.work (one_more objects.old.work) objects.new.work }
{
    if !holds_progs(kind) {
        return Ok(AskReply::Refused(Errno::EINVAL));
    }
    let id = id_under(objects, map, key)?;
    let program = named(entries, id)?;
    Ok(AskReply::Fetched(program))
}

/// The program at an index of a live program array.
pub(crate) fn fetch<K: MapKind>(
    alloc: Global,
    objects: &mut Objects<K>,
    entries: &Entries,
    map: u32,
    index: u32,
) -> Result<AskReply, NoMemory>
    requires { is_some (entry_at (entries_in entries.now) map) ≡ is_some (finite.get objects.old.by_id map) }
    ensures answer { IfOk result (λ reply. reply ≡ if_found (λ m. if holds_progs m.attr.kind then Fetched (named (live_prog_at (entries_in entries.now)) (id_in m.attr m.contents (key_of_index index))) else Refused EINVAL) (live_in objects.old.by_id (entries_in entries.now) map)) }
    ensures same { objects.new.by_id ≡ objects.old.by_id }
    ensures work { AllOrNone objects.old.work (one_more objects.old.work) objects.new.work }
{
    if frozen_if_live(entries, map).is_none() {
        return Ok(AskReply::Refused(Errno::ENOENT));
    }
    match objects.make_at(map) {
        Some(make) => {
            let key = key_of_index(alloc, index);
            fetch_slot(objects, entries, make.attr.kind, map, key)
        }
        None => Ok(AskReply::Refused(Errno::ENOENT)),
    }
}
