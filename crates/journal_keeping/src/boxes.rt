//! The boxes that a book keeps: those of the maps in its base, in a moment or in an undone one.

ghost use Rattle.std.specs.Prelude.{◌≡◌, ◌<◌, ◌≤◌, ◌||◌, nat_lt, [], length, filter, vec_len, vec_capacity};
ghost use Rattle.std.specs.FinMap as map;
ghost use Rattle.std.specs.VecDeque.{deque_len, deque_capacity};
ghost use Rattle.bt_objects.specs.Ids.{is_among};
ghost use Rattle.journal_model.specs.Rebase.{advanced};
ghost use Rattle.journal_model.specs.Plain.{now, newest_force, cut};
ghost use Rattle.journal_model.specs.Well.{Each};
ghost use Rattle.journal_keeping.specs.Boxes.{KeepsBoxes, IsMade, IsUpTo, states_of, lasts_of};
ghost use Rattle.journal_keeping.specs.declared.ids.LastIds.{LastIds as LastIdsView};
ghost use Rattle.journal_timeline.specs.Listed.{Rises, ListsPasts};
ghost use Rattle.journal_timeline.specs.Rebased.{AllBegin, ListsAllLeft, kept_pasts};

use crate::ids::{Ids, LastIds};
use bt_mapkind::MapKind;
use bt_objects::Keep;
use host_state::Reply;
use journal_timeline::Timeline;
use std::mem;

/// Drops the boxes that are not listed, none of which a moment or an undone one has.
pub fn keep_only<K: MapKind>(line: &mut Timeline<K>, maps: &mut Vec<u32>, progs: &mut Vec<u32>)
    requires maps { Rises maps.old.items }
    requires progs { Rises progs.old.items }
    requires listed { ListsPasts maps.old.items progs.old.items line.old.pasts }
    ensures boxes { line.new.makes ≡ map.retain_keys line.old.makes (is_among maps.old.items) }
    ensures pasts { line.new.pasts ≡ line.old.pasts }
    ensures work { line.new.work ≡ line.old.work }
    ensures maps { maps.new.items ≡ maps.old.items }
    ensures progs { progs.new.items ≡ progs.old.items }
{
    let keep = lent(maps, progs);
    line.keep_only(&keep);
    *maps = keep.maps;
    *progs = keep.progs;
}

// Moves the two lists into a `Keep` while the boxes that they do not name are dropped.
fn lent(maps: &mut Vec<u32>, progs: &mut Vec<u32>) -> Keep
    requires maps { Rises maps.old.items }
    requires progs { Rises progs.old.items }
    ensures maps { result.maps.items ≡ maps.old.items }
    ensures progs { result.progs.items ≡ progs.old.items }
{
    let alloc = *maps.allocator();
    Keep {
        maps: mem::replace(maps, Vec::new(alloc)),
        progs: mem::replace(progs, Vec::new(alloc)),
    }
}

/// Notes what the newest moment made, which the reply tells, and the last ids that were given then. If undone moments
/// were given up for it, their ids are gone, and the boxes that were in those alone.
pub fn note_moment<K: MapKind>(line: &mut Timeline<K>, ids: &mut Ids, last: LastIds, reply: &Reply)
    requires made { IsMade line.old (lasts_of ids.old.base ids.old.lasts.items) ids.old.maps.items ids.old.progs.items last reply.now }
    requires maps_room { vec_len ids.old.maps < vec_capacity ids.old.maps }
    requires progs_room { vec_len ids.old.progs < vec_capacity ids.old.progs }
    requires lasts_room { deque_len ids.old.lasts < deque_capacity ids.old.lasts }
    ensures boxes { KeepsBoxes line.new.makes (states_of line.new.pasts) (lasts_of ids.new.base ids.new.lasts.items) ids.new.maps.items ids.new.progs.items }
    ensures lasts { Each (IsUpTo last) (lasts_of ids.new.base ids.new.lasts.items) }
    ensures pasts { line.new.pasts ≡ line.old.pasts }
    ensures work { line.new.work ≡ line.old.work }
{
    let standing = line.moment_count() as usize - 1;
    if ids.lasts.len() == standing {
        ids.add(last, reply);
        return;
    }
    ids.give_up(standing);
    ids.add(last, reply);
    keep_only(line, &mut ids.maps, &mut ids.progs);
}

/// Makes the state after the first `count` moments the base; the later moments stay. What has retired in it is dropped with
/// its boxes, and so are the boxes that only the moments given up had. It takes no memory.
pub fn advance<K: MapKind>(line: &mut Timeline<K>, ids: &mut Ids, count: usize)
    requires within { count ≤ length line.old.pasts.moments }
    requires boxes { KeepsBoxes line.old.makes (states_of line.old.pasts) (lasts_of ids.old.base ids.old.lasts.items) ids.old.maps.items ids.old.progs.items }
    requires begin { let before = cut count line.old.pasts in AllBegin (newest_force before.moments) before.undone }
    ensures boxes { KeepsBoxes line.new.makes (states_of line.new.pasts) (lasts_of ids.new.base ids.new.lasts.items) ids.new.maps.items ids.new.progs.items }
    ensures pasts { line.new.pasts ≡ advanced count line.old.pasts }
    ensures work { line.new.work ≡ line.old.work }
    ensures lasts { (last : LastIdsView) → Each (IsUpTo last) (lasts_of ids.old.base ids.old.lasts.items) → Each (IsUpTo last) (lasts_of ids.new.base ids.new.lasts.items) }
{
    ids.advance(count);
    keep_maps_there(&mut ids.maps, ids.base, line);
    keep_progs_there(&mut ids.progs, ids.base, line);
    line.take_out_retired(count, &mut ids.maps, &mut ids.progs);
    line.advance(count);
    drop_retired(line, &mut ids.maps, &mut ids.progs);
}

/// Makes the state after the oldest moment the base, as [`advance`] does of the first. If nothing has retired in it, no box
/// and no id is looked at.
pub fn fold<K: MapKind>(line: &mut Timeline<K>, ids: &mut Ids)
    requires within { 1 ≤ length line.old.pasts.moments }
    requires boxes { KeepsBoxes line.old.makes (states_of line.old.pasts) (lasts_of ids.old.base ids.old.lasts.items) ids.old.maps.items ids.old.progs.items }
    requires begin { let before = cut 1 line.old.pasts in AllBegin (newest_force before.moments) before.undone }
    ensures boxes { KeepsBoxes line.new.makes (states_of line.new.pasts) (lasts_of ids.new.base ids.new.lasts.items) ids.new.maps.items ids.new.progs.items }
    ensures pasts { line.new.pasts ≡ advanced 1 line.old.pasts }
    ensures work { line.new.work ≡ line.old.work }
    ensures lasts { (last : LastIdsView) → Each (IsUpTo last) (lasts_of ids.old.base ids.old.lasts.items) → Each (IsUpTo last) (lasts_of ids.new.base ids.new.lasts.items) }
{
    if line.retires_none(1) {
        ids.advance(1);
        line.advance(1);
    } else {
        advance(line, ids, 1);
    }
}

// Keeps the ids of the maps that are there, live or retired, and those given since the last ones.
fn keep_maps_there<K: MapKind>(ids: &mut Vec<u32>, last: LastIds, line: &Timeline<K>)
    ensures { ids.new.items ≡ filter (λ id. nat_lt last.map_id id || map.contains_key (now line.now.pasts).maps id) ids.old.items }
{
    ids.retain(|id| *id > last.map_id || line.has_map(*id));
}

// Keeps the ids of the programs that are there, live or retired, and those given since the last ones.
fn keep_progs_there<K: MapKind>(ids: &mut Vec<u32>, last: LastIds, line: &Timeline<K>)
    ensures { ids.new.items ≡ filter (λ id. nat_lt last.prog_id id || map.contains_key (now line.now.pasts).progs id) ids.old.items }
{
    ids.retain(|id| *id > last.prog_id || line.has_prog(*id));
}

// Drops the objects that are not listed, each of which has retired in the base or is in no state.
fn drop_retired<K: MapKind>(line: &mut Timeline<K>, maps: &mut Vec<u32>, progs: &mut Vec<u32>)
    requires maps { Rises maps.old.items }
    requires progs { Rises progs.old.items }
    requires listed { ListsAllLeft maps.old.items progs.old.items line.old.pasts }
    ensures pasts { line.new.pasts ≡ kept_pasts maps.old.items progs.old.items line.old.pasts }
    ensures boxes { line.new.makes ≡ map.retain_keys line.old.makes (is_among maps.old.items) }
    ensures work { line.new.work ≡ line.old.work }
    ensures maps { maps.new.items ≡ maps.old.items }
    ensures progs { progs.new.items ≡ progs.old.items }
{
    let keep = lent(maps, progs);
    line.drop_retired(&keep);
    *maps = keep.maps;
    *progs = keep.progs;
}
