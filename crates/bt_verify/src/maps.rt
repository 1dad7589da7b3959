//! The maps that a program may name, and those that it names.

ghost use Rattle.std.specs.Prelude.{◌≡◌, ◌<◌, ◌≤◌, ℕ, List, IfOk, OnOk, Some, length, slice_get};
ghost use Rattle.bt_mapkind.specs.declared.attr.MapAttr.{MapAttr as Attributes};
ghost use Rattle.bt_verify.specs.Maps as pairs;
ghost use Rattle.bt_verify.specs.Maps.{AreDistinct, AreNamed, with_map};

use crate::lookup::find_map;
use crate::slot::Slot;
use bt_insn::{Insn, NoMemory};
use bt_mapkind::MapAttr;
use std::alloc::Global;
use std::marker::Model;

/// The maps that a program may name: ids with attributes.
#[derive(Debug, Drop)]
pub struct MapList {
    pairs: Vec<(u32, MapAttr)>,
}

impl Model for MapList {
    ghost use Rattle.std.specs.Prelude.{List, ℕ};
    ghost use Rattle.bt_mapkind.specs.declared.attr.MapAttr.{MapAttr};
    ghost use Rattle.bt_verify.specs.Maps.{AreDistinct};

    ghost Value = { List (ℕ × MapAttr) };

    ghost view = { λ m. m.pairs.items };

    ghost invariant = { λ m. AreDistinct m.pairs.items };
}

impl MapList {
    ghost use Rattle.std.specs.Prelude.{◌≡◌};
    ghost use Rattle.bt_verify.specs.Maps.{AreDistinct};

    /// The list of these pairs, in which no id stands twice.
    pub fn new(pairs: Vec<(u32, MapAttr)>) -> MapList
        requires { AreDistinct pairs.items }
        ensures { result ≡ pairs.items }
    {
        MapList { pairs }
    }

    /// The pairs, in the order in which they were handed in.
    pub fn pairs(&self) -> &[(u32, MapAttr)]
        ensures value { result.now ≡ self.now }
        ensures distinct { AreDistinct result.now }
    {
        self.pairs.as_slice()
    }
}

// How many ids at the front are below this one.
fn place_of(maps: &[(u32, MapAttr)], id: u32) -> usize
    ensures within { result ≤ length maps.now }
    ensures below { (k : ℕ) (m : ℕ × Attributes) → k < result → slice_get maps.now k ≡ Some m → m.0 < id }
    ensures stops { (m : ℕ × Attributes) → slice_get maps.now result ≡ Some m → id ≤ m.0 }
{
    for place in 0..maps.len() {
        if maps[place].0 >= id {
            return place;
        }
    }
    maps.len()
}

// Puts a pair in its place by id.
fn put(maps: &mut Vec<(u32, MapAttr)>, map: (u32, MapAttr)) -> Result<(), NoMemory>
    ensures { OnOk result (maps.new.items ≡ with_map map maps.old.items) }
{
    let place = place_of(maps, map.0);
    if place < maps.len() && maps[place].0 == map.0 {
        maps[place] = map;
    } else {
        maps.insert(place, map)?;
    }
    Ok(())
}

// The pair that the instruction in the slot names.
fn map_of(slot: Slot, list: &[(u32, MapAttr)]) -> Option<(u32, MapAttr)>
    requires { AreDistinct list.now }
    ensures { result ≡ pairs.map_of slot list.now }
{
    match slot {
        Slot::First(Insn::LoadMap { id, .. }) => Some((id, find_map(list, id)?)),
        _ => None,
    }
}

/// The pairs of the list whose ids the program names, by ascending id.
pub(crate) fn named_maps(
    alloc: Global,
    slots: &[Slot],
    list: &[(u32, MapAttr)],
) -> Result<Vec<(u32, MapAttr)>, NoMemory>
    requires { AreDistinct list.now }
    ensures { IfOk result (λ maps. AreNamed slots.now list.now maps.items) }
{
    let mut maps = Vec::new(alloc);
    for slot in slots {
        match map_of(*slot, list) {
            Some(map) => put(&mut maps, map)?,
            None => {}
        }
    }
    Ok(maps)
}
