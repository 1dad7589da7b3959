//! What is read of a box by number and by key.

ghost use Rattle.std.specs.Prelude.{◌≡◌, IfOk, IsOk};
ghost use Rattle.std.specs.FinMap as map;
ghost use Rattle.bt_mapkind.specs.Seen.{NeverWantsMemory};
ghost use Rattle.bt_objects.specs.Boxes.{one_more};
ghost use Rattle.host_retirement.specs.Gathered.{element_at, count_at, id_under};

use bt_mapkind::{Bytes, Errno, MapFault, MapKind, MapReply, Query};
use bt_objects::Objects;
use host_words::NoMemory;

/// How many elements the map of a box lists. Boxes whose room was reserved take no memory for it.
pub fn count_elements<K: MapKind>(objects: &mut Objects<K>, id: u32) -> Result<u32, NoMemory>
    ensures count { IfOk result (λ count. count ≡ count_at (map.get objects.old.by_id id)) }
    ensures room { NeverWantsMemory K.seen → IsOk result }
    ensures same { objects.new.by_id ≡ objects.old.by_id }
    ensures work { objects.new.work ≡ one_more objects.old.work }
{
    match objects.read_at(id, &Query::Count) {
        Ok(MapReply::Count(count)) => Ok(count),
        Ok(_) => Ok(0),
        Err(MapFault::Errno(_)) => Ok(0),
        Err(MapFault::NoMemory) => Err(NoMemory),
    }
}

/// The element of this number in the dump of the map of a box. Boxes whose room was reserved take no memory for it.
pub fn element<K: MapKind>(
    objects: &mut Objects<K>,
    id: u32,
    number: u32,
) -> Result<MapReply, NoMemory>
    ensures element { IfOk result (λ reply. reply ≡ element_at (map.get objects.old.by_id id) number) }
    ensures room { NeverWantsMemory K.seen → IsOk result }
    ensures same { objects.new.by_id ≡ objects.old.by_id }
    ensures work { objects.new.work ≡ one_more objects.old.work }
{
    match objects.read_at(id, &Query::Item(number)) {
        Ok(reply) => Ok(reply),
        Err(MapFault::Errno(_)) => Ok(MapReply::Nothing),
        Err(MapFault::NoMemory) => Err(NoMemory),
    }
}

/// The id that the box of a map of ids has under a key. Boxes whose room was reserved take no memory for it.
pub fn id_under<K: MapKind>(
    objects: &mut Objects<K>,
    id: u32,
    key: Bytes,
) -> Result<Option<u32>, NoMemory>
    ensures found { IfOk result (λ found. found ≡ id_under (map.get objects.old.by_id id) key) }
    ensures room { NeverWantsMemory K.seen → IsOk result }
    ensures same { objects.new.by_id ≡ objects.old.by_id }
    ensures work { objects.new.work ≡ one_more objects.old.work }
{
    match objects.read_at(id, &Query::Lookup(key)) {
        Ok(MapReply::Link(found)) => Ok(Some(found)),
        Ok(_) => Ok(None),
        Err(MapFault::Errno(_)) => Ok(None),
        Err(MapFault::NoMemory) => Err(NoMemory),
    }
}
