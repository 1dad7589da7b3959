//! The maps that a program names, as bytes: six numbers of four bytes for each, the lowest byte first.

ghost use Rattle.std.specs.Prelude.{◌≡◌, ◌≤◌, ◌<◌, ℕ, List, length, flat_map, IfOk, OnOk, IfSome, IsSomeAnd, IsTrue, ◌↔◌, ◌++◌};
ghost use Rattle.std.specs.Int.{w32, to_le_bytes};
ghost use Rattle.bt_mapkind.specs.declared.attr.MapAttr.{MapAttr as Attributes};
ghost use Rattle.bt_verify.specs.Maps.{AreAscending};
ghost use Rattle.kept_event.specs.Maps.{numbers_of, maps_bytes, FitsMap, FitMaps, first_map};

use crate::kind::{number_of, numbered};
use bt_mapkind::MapAttr;
use host_state::index_of;
use host_words::NoMemory;
use std::alloc::Global;

// The numbers of a map.
fn numbers_of(map: (u32, MapAttr)) -> [u32; 6]
    ensures numbers { result ≡ numbers_of map }
    ensures fits { FitsMap map }
{
    let (id, attr) = map;
    [
        id,
        number_of(attr.kind),
        attr.key_size,
        attr.value_size,
        attr.max_entries,
        attr.flags,
    ]
}

// Adds the bytes of numbers.
fn push_numbers(bytes: &mut Vec<u8>, numbers: &[u32]) -> Result<(), NoMemory>
    ensures { OnOk result (bytes.new.items ≡ bytes.old.items ++ flat_map (to_le_bytes w32) numbers.now) }
{
    'numbers: for number in numbers {
        bytes.extend_from_slice(&number.to_le_bytes())?;
    }
    Ok(())
}

/// The bytes of maps.
pub(crate) fn maps_bytes(alloc: Global, maps: &[(u32, MapAttr)]) -> Result<Vec<u8>, NoMemory>
    ensures bytes { IfOk result (λ bytes. bytes.items ≡ maps_bytes maps.now) }
    ensures fit { OnOk result (FitMaps maps.now) }
{
    let mut bytes = Vec::new(alloc);
    'maps: for map in maps {
        push_numbers(&mut bytes, &numbers_of(*map))?;
    }
    Ok(bytes)
}

// The map whose bytes come first.
#[tactic(auto, unfolding(crate::specs::Maps::first_map))]
fn first_map(bytes: &[u8]) -> Option<(u32, MapAttr)>
    ensures map { result ≡ first_map bytes.now }
    ensures long { IfSome result (λ _. 24 ≤ length bytes.now) }
{
    if bytes.len() < 24 {
        return None;
    }
    let kind = numbered(index_of(&bytes[4..]))?;
    Some((
        index_of(bytes),
        MapAttr {
            kind,
            key_size: index_of(&bytes[8..]),
            value_size: index_of(&bytes[12..]),
            max_entries: index_of(&bytes[16..]),
            flags: index_of(&bytes[20..]),
        },
    ))
}

/// The maps whose bytes these are.
pub(crate) fn maps_in(alloc: Global, bytes: &[u8]) -> Result<Option<Vec<(u32, MapAttr)>>, NoMemory>
    ensures { (maps : List (ℕ × Attributes)) → FitMaps maps → bytes.now ≡ maps_bytes maps
        → IfOk result (λ found. IsSomeAnd found (λ read. read.items ≡ maps)) }
{
    let mut maps = Vec::new(alloc);
    let mut rest = bytes;
    while !rest.is_empty() {
        let Some(map) = first_map(rest) else {
            return Ok(None);
        };
        maps.push(map)?;
        rest = &rest[24..];
    }
    Ok(Some(maps))
}

/// Whether each id is above those before.
pub(crate) fn ascend(maps: &[(u32, MapAttr)]) -> bool
    ensures { IsTrue result ↔ AreAscending maps.now }
{
    'places: for place in 1..maps.len() {
        if maps[place - 1].0 >= maps[place].0 {
            return false;
        }
    }
    true
}
