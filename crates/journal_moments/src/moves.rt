//! Exchanging the records that a moment holds with those in place, without memory: `make_room` in `room.rt` made room before.

ghost use Rattle.std.specs.Prelude.{◌≡◌, ◌≤◌, []};
ghost use Rattle.std.specs.VecDeque.{deque_capacity};
ghost use Rattle.journal_moments.specs.Line.{foot, Leads, CanSwap};
ghost use Rattle.journal_moments.specs.Lowered.{lowered};
ghost use Rattle.journal_moments.specs.MomentView.{taking_view};
ghost use Rattle.journal_moments.specs.Swaps.{Exchanges};

use crate::gone::Gone;
use crate::in_place::{lay_in_place, stand_in_place};
use crate::moment::{Form, Moment, Taking};
use bt_mapkind::MapKind;
use journal_record::{Record, World, lay_down, lay_one, stand_one, stand_up};
use std::collections::VecDeque;
use std::mem;

/// Exchanges the records that a taking out holds with those in place between the ones before it and the ones that stay.
pub fn exchange_taking<K: MapKind>(
    world: &mut World<K>,
    records: &mut VecDeque<Record>,
    taking: &mut Taking,
)
    requires spare { taking.old.spare.items ≡ [] }
    requires leads { Leads world.old.ready (foot world.old.state records.old.items) world.old.state records.old.items }
    requires can { CanSwap world.old.ready (foot world.old.state records.old.items) records.old.items (deque_capacity records.old) (taking_view taking.old) }
    ensures exchanges { Exchanges world.old records.old.items (taking_view taking.old) world.new records.new.items (taking_view taking.new) }
    ensures kept { deque_capacity records.old ≤ deque_capacity records.new }
    ensures spare { taking.new.spare.items ≡ [] }
{
    if taking.stays == 0 {
        exchange_last(world, records, taking);
    } else if taking.other.is_empty() {
        lay_in_place(world, records, taking);
    } else {
        stand_in_place(world, records, taking);
    }
}

// Exchanges the records that a taking out holds with all of those in place past the ones before it.
fn exchange_last<K: MapKind>(
    world: &mut World<K>,
    records: &mut VecDeque<Record>,
    taking: &mut Taking,
)
    requires spare { taking.old.spare.items ≡ [] }
    requires last { taking.old.stays ≡ 0 }
    requires leads { Leads world.old.ready (foot world.old.state records.old.items) world.old.state records.old.items }
    requires can { CanSwap world.old.ready (foot world.old.state records.old.items) records.old.items (deque_capacity records.old) (taking_view taking.old) }
    ensures exchanges { Exchanges world.old records.old.items (taking_view taking.old) world.new records.new.items (taking_view taking.new) }
    ensures kept { deque_capacity records.old ≤ deque_capacity records.new }
    ensures spare { taking.new.spare.items ≡ [] }
{
    lay_down(world, records, taking.at, &mut taking.spare);
    stand_up(world, &mut taking.other, records);
    mem::swap(&mut taking.other, &mut taking.spare);
}

// Exchanges the records that a moment holds with those in place, if its position counts these alone.
fn exchange_lowered<K: MapKind>(
    world: &mut World<K>,
    records: &mut VecDeque<Record>,
    moment: &mut Moment,
)
    requires leads { Leads world.old.ready (foot world.old.state records.old.items) world.old.state records.old.items }
    requires can { CanSwap world.old.ready (foot world.old.state records.old.items) records.old.items (deque_capacity records.old) moment.old }
    ensures exchanges { Exchanges world.old records.old.items moment.old world.new records.new.items moment.new }
    ensures kept { deque_capacity records.old ≤ deque_capacity records.new }
{
    match &mut moment.form {
        Form::Change {
            serial: _,
            at,
            undone,
        } => match undone.take() {
            Some(record) => stand_one(world, record, records),
            None => put(undone, lay_one(world, records, *at)),
        },
        Form::Taking(taking) => exchange_taking(world, records, taking),
    }
}

/// Exchanges the records that a moment holds with those in place.
pub fn exchange<K: MapKind>(
    world: &mut World<K>,
    records: &mut VecDeque<Record>,
    gone: &Gone,
    moment: &mut Moment,
)
    requires leads { Leads world.old.ready (foot world.old.state records.old.items) world.old.state records.old.items }
    requires can { CanSwap world.old.ready (foot world.old.state records.old.items) records.old.items (deque_capacity records.old) (lowered gone.now moment.old) }
    ensures exchanges { Exchanges world.old records.old.items (lowered gone.now moment.old) world.new records.new.items (lowered gone.now moment.new) }
    ensures kept { deque_capacity records.old ≤ deque_capacity records.new }
{
    moment.lower(gone.count());
    exchange_lowered(world, records, moment);
    moment.raise(gone);
}

// Puts this there.
fn put(undone: &mut Option<Record>, lying: Option<Record>)
    ensures { undone.new ≡ lying }
{
    *undone = lying;
}
