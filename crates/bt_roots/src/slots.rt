//! The entries of the pins: a path keeps its entry for good, with what is pinned there, if anything.
ghost use Rattle.std.specs.Prelude.{◌≡◌, ◌↔◌, Contains, IsTrue, IfOk, OnOk, OnErr, Some};
ghost use Rattle.std.specs.FinMap as finite;
ghost use Rattle.std.specs.FinSet as set;
ghost use Rattle.bt_roots.specs.Exchange.{put_at};
ghost use Rattle.bt_roots.specs.Reachable.{IsPinned};
ghost use Rattle.bt_roots.specs.Slots.{pins_of, room_of};

use crate::Target;
use host_words::{NoMemory, Word};
use std::alloc::Global;
use std::collections::BTreeMap;
use std::mem;

/// An entry for each path with room.
pub(crate) type Slots = BTreeMap<Word, Option<Target>>;

/// What is pinned at the path.
pub(crate) fn pinned_at(slots: &Slots, path: &Word) -> Option<Target>
    ensures { result ≡ finite.get (pins_of slots.now.entries) path.now }
{
    match slots.get(path) {
        Some(target) => *target,
        None => None,
    }
}

/// Pins the object at the path, and makes room for the path.
pub(crate) fn add_pin(slots: &mut Slots, path: Word, target: Target) -> Result<(), NoMemory>
    ensures pins { OnOk result (pins_of slots.new.entries ≡ put_at (pins_of slots.old.entries) path (Some target)) }
    ensures room { OnOk result (room_of slots.new.entries ≡ set.insert (room_of slots.old.entries) path) }
    ensures err { OnErr result (slots.new.entries ≡ slots.old.entries) }
{
    slots.insert(path, Some(target))?;
    Ok(())
}

/// Puts this in place at a path with room, and answers what stood there.
pub(crate) fn exchange_pin(slots: &mut Slots, path: &Word, target: Option<Target>) -> Option<Target>
    requires { IsTrue (set.contains (room_of slots.old.entries) path.now) }
    ensures before { result ≡ finite.get (pins_of slots.old.entries) path.now }
    ensures pins { pins_of slots.new.entries ≡ put_at (pins_of slots.old.entries) path.now target }
    ensures room { room_of slots.new.entries ≡ room_of slots.old.entries }
{
    match slots.get_mut(path) {
        Some(slot) => mem::replace(slot, target),
        None => None,
    }
}

/// The objects that are pinned, one for each pin.
pub(crate) fn pinned_objects(alloc: Global, slots: &Slots) -> Result<Vec<Target>, NoMemory>
    ensures { IfOk result (λ objects. (target : Target) →
        Contains objects.items target ↔ IsPinned (pins_of slots.now.entries) target) }
{
    slots.values().filter_map(|target| *target).collect(alloc)
}
