//! Looking a map up by its id.

ghost use Rattle.std.specs.Prelude.{◌≡◌, ◌≢◌, IfNone, IfSome, All, Contains};
ghost use Rattle.bt_verify.specs.Maps as pairs;
ghost use Rattle.bt_verify.specs.Maps.{AreAscending, AreDistinct};

use bt_mapkind::MapAttr;

// In few steps, if the ids ascend; else perhaps not at all.
fn find_by_halves(maps: &[(u32, MapAttr)], id: u32) -> Option<MapAttr>
    ensures found { IfSome result (λ attr. Contains maps.now (id, attr)) }
    ensures none { IfNone result (AreAscending maps.now → All (λ m. m.0 ≢ id) maps.now) }
{
    let place = maps.partition_point(|map| map.0 < id);
    if place < maps.len() && maps[place].0 == id {
        Some(maps[place].1)
    } else {
        None
    }
}

fn find_in_turn(maps: &[(u32, MapAttr)], id: u32) -> Option<MapAttr>
    ensures { result ≡ pairs.find_map maps.now id }
{
    for map in maps {
        if map.0 == id {
            return Some(map.1);
        }
    }
    None
}

/// The attributes of the map with this id, if it is in the list. An id of a list that ascends is
/// found by binary search.
pub(crate) fn find_map(maps: &[(u32, MapAttr)], id: u32) -> Option<MapAttr>
    requires { AreDistinct maps.now }
    ensures value { result ≡ pairs.find_map maps.now id }
    ensures found { IfSome result (λ attr. Contains maps.now (id, attr)) }
    ensures none { IfNone result (All (λ m. m.0 ≢ id) maps.now) }
{
    match find_by_halves(maps, id) {
        Some(attr) => Some(attr),
        None => find_in_turn(maps, id),
    }
}
