//! An operation on one map, and what refuses it: no live map of the id, a frozen map for the console, and what the map itself
//! refuses.

ghost use Rattle.std.specs.Prelude.{◌≡◌, ◌&&◌, ◌+◌, ◌≤◌, not, IsSome, IfOk, length};
ghost use Rattle.std.specs.FinMap as finite;
ghost use Rattle.bt_mapkind.specs.declared.request.MapOp.TheVariants.{Pop};
ghost use Rattle.host_state.specs.declared.reply.Reply.TheVariants.{Value};
ghost use Rattle.bt_objects.specs.Boxes.{one_more};
ghost use Rattle.bt_mapkind.specs.Atomic.{part_of};
ghost use Rattle.bt_mapkind.specs.Kept.{is_new};
ghost use Rattle.bt_mapkind.specs.Reply.{reply_with};
ghost use Rattle.host_state.specs.Act.{flag_of, is_console, is_for_console, is_for_program, bars, reply_of};
ghost use Rattle.host_state.specs.Hosts.{entry_at, held, frozen_of, view_of, IsSound, entries_in, live_in};
ghost use Rattle.host_undoing.specs.Answers.{Answers};
ghost use Rattle.host_state.specs.declared.change.Change.TheVariants.{Operate};
ghost use Rattle.host_operations.specs.Operated.{OperatesOn, operation_fault, refused_by, PutsLive, takes_link_at};
ghost use Rattle.host_retirement.specs.Gathered.{holds_ids_in, calls_in};
ghost use Rattle.host_state.specs.Work.{Works, holds_ids_at};
ghost use Rattle.bt_mapkind.specs.Inner.{holds_ids};

use bt_mapkind::{Errno, KeptBack, MapFault, MapKind, MapOp, MapType};
use bt_objects::{Objects, Operated};
use host_retirement::retire::retire_if;
use host_state::{
    Entries, Host, Origin, Refusal, Reply, TakenItem, frozen_if_live, holds_ids, number_of,
};
use host_undoing::{Part, Undoing, turn_contents};
use host_words::NoMemory;
use std::alloc::Global;

/// The flag of an operation, if it has one.
fn flag_of(op: &MapOp) -> u64
    ensures { result ≡ flag_of op.now }
{
    match op {
        MapOp::Update { flag, .. } | MapOp::Push { flag, .. } | MapOp::SetLink { flag, .. } =>
            *flag,
        MapOp::Delete { .. } | MapOp::Pop | MapOp::Store { .. } | MapOp::Atomic { .. } => 0,
    }
}

// So many of the bytes from an offset on, or as many as there are.
fn bytes_at(bytes: &[u8], offset: u64, count: usize) -> &[u8]
    ensures { result.now ≡ part_of bytes.now offset count }
{
    let start = (offset as usize).min(bytes.len());
    let rest = &bytes[start..];
    &rest[..count.min(rest.len())]
}

/// The reply to an operation, as what is kept of it tells: the item that it took, the number that stood where an atomic
/// instruction fetches, or that it is done.
fn reply_to(op: &MapOp, kept: &KeptBack, item: Option<TakenItem>) -> Reply
    requires { op.now ≡ Pop → IsSome item }
    ensures { result ≡ reply_of op.now (reply_with op.now kept.now.back) }
{
    match op {
        MapOp::Pop => match item {
            Some(item) => item_taken(item, kept.taken()),
            None => unreachable!(),
        },
        MapOp::Atomic {
            key: _,
            offset,
            size,
            op,
            operand: _,
        } if op.fetches() => Reply::Old(number_of(bytes_at(
            kept.taken(),
            *offset,
            size.in_bytes(),
        ))),
        MapOp::Atomic { .. }
        | MapOp::Update { .. }
        | MapOp::Delete { .. }
        | MapOp::Push { .. }
        | MapOp::Store { .. }
        | MapOp::SetLink { .. } => Reply::Done,
    }
}

// The reply of a pop that took these bytes.
fn item_taken(item: TakenItem, bytes: &[u8]) -> Reply
    requires { length bytes.now ≤ 260 }
    ensures { result ≡ Value bytes.now }
{
    let mut item = item;
    item.fill(bytes);
    Reply::Value(item)
}

// Room for the item that an operation takes, if it takes one.
fn room_for_item(alloc: Global, op: &MapOp) -> Result<Option<TakenItem>, NoMemory>
    ensures { IfOk result (λ item. op.now ≡ Pop → IsSome item) }
{
    match op {
        MapOp::Pop => Ok(Some(TakenItem::with_room(alloc)?)),
        MapOp::Atomic { .. }
        | MapOp::Update { .. }
        | MapOp::Delete { .. }
        | MapOp::Push { .. }
        | MapOp::Store { .. }
        | MapOp::SetLink { .. } => Ok(None),
    }
}

/// Why an operation on the map of this id is not done, whatever it holds: it is not live, the flag is none, or the
/// console may not write it.
pub(crate) fn operation_fault(
    entries: &Entries,
    map: u32,
    origin: Origin,
    flag: u64,
) -> Option<Errno>
    ensures { result ≡ operation_fault (frozen_of (held (entry_at (entries_in entries.now) map))) origin flag }
{
    let Some(frozen) = frozen_if_live(entries, map) else {
        return Some(Errno::ENOENT);
    };
    if flag > 2 {
        return Some(Errno::EINVAL);
    }
    if frozen && matches!(origin, Origin::Console) {
        return Some(Errno::EPERM);
    }
    None
}

/// Whether the console may ask for an operation: it reaches values whole, and puts ids by links.
fn is_for_console(op: &MapOp) -> bool
    ensures { result ≡ is_for_console op.now }
{
    matches!(
        op,
        MapOp::Update { .. } | MapOp::Delete { .. } | MapOp::Push { .. } | MapOp::Pop
    )
}

/// Whether a program may ask for an operation on a map of bytes.
fn is_for_program(op: &MapOp) -> bool
    ensures { result ≡ is_for_program op.now }
{
    !matches!(op, MapOp::SetLink { .. })
}

// Whether who asks for an operation may not have it. A program may have none at a map of ids.
fn is_barred<K: MapKind>(objects: &Objects<K>, map: u32, origin: Origin, op: &MapOp) -> bool
    ensures { result ≡ bars origin (holds_ids_in objects.now.by_id map) op.now }
{
    match origin {
        Origin::Console => !is_for_console(op),
        Origin::Prog(_) => match objects.make_at(map) {
            Some(make) => holds_ids(make.attr.kind) || !is_for_program(op),
            None => !is_for_program(op),
        },
    }
}

/// Does an operation on a live map, and retires what is reachable no longer. What who asks may not have is EINVAL.
pub fn operate<K: MapKind>(
    host: &mut Host<K>,
    origin: Origin,
    map: u32,
    op: &MapOp,
) -> Result<(Reply, Undoing), Refusal>
    requires { IsSound host.old.objects.by_id (entries_in host.old.entries) host.old.roots }
    ensures sound { IsSound host.new.objects.by_id (entries_in host.new.entries) host.new.roots }
    ensures answer { Answers (view_of host.old.objects.by_id (entries_in host.old.entries) host.old.roots host.old.objects.work) (Operate origin map op.now) result
        (view_of host.new.objects.by_id (entries_in host.new.entries) host.new.roots host.new.objects.work) }
    ensures work { Works (is_console origin && holds_ids_at (live_in host.old.objects.by_id (entries_in host.old.entries) map)) (calls_in host.old.objects.by_id (entries_in host.old.entries) + 2) result host.old.objects.work (one_more host.old.objects.work) host.new.objects.work }
{
    if let Some(errno) = operation_fault(&host.entries, map, origin, flag_of(op)) {
        return Err(Refusal::Errno(errno));
    }
    if is_barred(&host.objects, map, origin, op) {
        return Err(Refusal::Errno(Errno::EINVAL));
    }
    let item = match room_for_item(host.alloc, op) {
        Ok(item) => item,
        Err(_) => return Err(Refusal::NoMemory),
    };
    operate_map(host, map, op, item)
}

/// Does an operation on the map of an id, which is live; a pop comes with room for the item that it takes. What it leaves
/// unreachable retires; if memory is refused to the walk, the operation is taken back.
pub(crate) fn operate_map<K: MapKind>(
    host: &mut Host<K>,
    map: u32,
    op: &MapOp,
    item: Option<TakenItem>,
) -> Result<(Reply, Undoing), Refusal>
    requires room { op.now ≡ Pop → IsSome item }
    requires sound { IsSound host.old.objects.by_id (entries_in host.old.entries) host.old.roots }
    requires live { IsSome (frozen_of (held (entry_at (entries_in host.old.entries) map))) }
    requires puts { PutsLive host.old.objects.by_id (entries_in host.old.entries) map op.now }
    ensures sound { IsSound host.new.objects.by_id (entries_in host.new.entries) host.new.roots }
    ensures operated { OperatesOn (view_of host.old.objects.by_id (entries_in host.old.entries) host.old.roots host.old.objects.work) map op.now result
        (view_of host.new.objects.by_id (entries_in host.new.entries) host.new.roots host.new.objects.work) }
    ensures roots { host.new.roots ≡ host.old.roots }
    ensures work { Works (takes_link_at (finite.get host.old.objects.by_id map) op.now) (calls_in host.old.objects.by_id (entries_in host.old.entries) + 2) result host.old.objects.work (one_more host.old.objects.work) host.new.objects.work }
{
    op.is_bounded();
    let Operated { kind, mut kept } = match host.objects.operate_at(map, host.alloc, op) {
        Ok(left) => left,
        Err(fault) => return Err(refused_by(&fault)),
    };
    match retire_if(
        takes_link(kind, &kept),
        host.alloc,
        &mut host.objects,
        &mut host.entries,
        &host.roots,
    ) {
        Ok(retired) => {
            let reply = reply_to(op, &kept, item);
            let part = Part::Contents { map, kept };
            Ok((reply, Undoing { part, retired }))
        }
        Err(_) => {
            turn_contents(&mut host.objects, map, &mut kept);
            Err(Refusal::NoMemory)
        }
    }
}

// Whether an operation on a map of this type took a link away, as what takes it back tells: if an id went into an empty
// slot, what was reachable still is, and nothing retires.
fn takes_link(kind: MapType, kept: &KeptBack) -> bool
    ensures { result ≡ holds_ids kind && not (is_new kept.now.back) }
{
    holds_ids(kind) && !kept.is_new()
}

// Why an operation is refused that its box refuses.
fn refused_by(fault: &MapFault) -> Refusal
    ensures { result ≡ refused_by fault.now }
{
    match fault {
        MapFault::Errno(errno) => Refusal::Errno(*errno),
        MapFault::NoMemory => Refusal::NoMemory,
    }
}
