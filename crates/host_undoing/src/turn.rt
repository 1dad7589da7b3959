//! Turning one part of a host.

ghost use Rattle.std.specs.Prelude.{◌≡◌, Some};
ghost use Rattle.std.specs.FinMap as finite;
ghost use Rattle.bt_mapkind.specs.Seen.{Seen};
ghost use Rattle.bt_objects.specs.Boxes.{one_more};
ghost use Rattle.host_undoing.specs.Exchange.{FitsPlace, part_turned, part_back, FitsIn, IsBoxTurned};
ghost use Rattle.host_state.specs.Hosts.{state_of, ready_of, IsBuilt, entries_in};
ghost use Rattle.host_undoing.specs.Work.{after_part};

use crate::undoing::Part;
use bt_mapkind::{KeptBack, MapKind};
use bt_objects::Objects;
use bt_roots::Roots;
use host_state::{Entries, exchange_entry, exchange_frozen, exchange_prog};

/// Exchanges one part of what is in place with what stands for it. It takes no memory.
pub fn turn_part<K: MapKind>(
    objects: &mut Objects<K>,
    entries: &mut Entries,
    roots: &mut Roots,
    part: &mut Part,
)
    requires built { IsBuilt objects.old.by_id (entries_in entries.old) }
    requires fits { FitsPlace (ready_of objects.old.by_id (entries_in entries.old) roots.old) (state_of objects.old.by_id (entries_in entries.old) roots.old) part.old }
    ensures built { IsBuilt objects.new.by_id (entries_in entries.new) }
    ensures state { state_of objects.new.by_id (entries_in entries.new) roots.new ≡ part_turned (state_of objects.old.by_id (entries_in entries.old) roots.old) part.old }
    ensures part { part.new ≡ part_back (state_of objects.old.by_id (entries_in entries.old) roots.old) part.old }
    ensures ready { ready_of objects.new.by_id (entries_in entries.new) roots.new ≡ ready_of objects.old.by_id (entries_in entries.old) roots.old }
    ensures work { objects.new.work ≡ after_part part.old objects.old.work }
{
    match part {
        Part::Contents { map, kept } => turn_contents(objects, *map, kept),
        Part::Frozen { map, frozen } => exchange_frozen(entries, *map, frozen),
        Part::Presence {
            map,
            make: _,
            entry,
            pin,
        } => {
            roots.turn(pin);
            exchange_entry(entries, *map, entry);
        }
        Part::Program { prog, entry, pin } => {
            roots.turn(pin);
            exchange_prog(entries, *prog, entry);
        }
        Part::Pinned { pin } => roots.turn(pin),
    }
}

/// Exchanges what a box holds with what is kept. It takes no memory.
#[tactic(auto, using(map_laws::proofs::Bounded::turning_bounded))]
pub fn turn_contents<K: MapKind>(objects: &mut Objects<K>, map: u32, kept: &mut KeptBack)
    requires { (box : Seen) × (finite.get objects.old.by_id map ≡ Some box) × FitsIn box.attr box.contents kept.old }
    ensures turned { IsBoxTurned objects.old.by_id map kept.old objects.new.by_id kept.new }
    ensures work { objects.new.work ≡ one_more objects.old.work }
{
    let mut back = kept.back();
    match objects.turn_at(map, &mut back) {
        Ok(()) => kept.fill(&back),
        Err(_) => unreachable!(),
    }
}
