//! Exchanging a single record in its place, below others that stay.

ghost use Rattle.std.specs.Prelude.{◌≡◌, ◌≢◌, ◌+◌, ◌<◌, ◌≤◌, [], ◌∷◌, ◌++◌, take, drop};
ghost use Rattle.std.specs.VecDeque.{deque_len, deque_capacity};
ghost use Rattle.journal_moments.specs.Line.{foot, Leads, CanSwap};
ghost use Rattle.journal_moments.specs.Swaps.{Exchanges};
ghost use Rattle.journal_moments.specs.MomentView.{taking_view};

use crate::moment::Taking;
use bt_mapkind::MapKind;
use journal_record::{Record, World};
use std::collections::VecDeque;
use std::mem;

/// Turns the record after the first `at` back, and takes it out.
pub fn lay_in_place<K: MapKind>(
    world: &mut World<K>,
    records: &mut VecDeque<Record>,
    taking: &mut Taking,
)
    requires spare { taking.old.spare.items ≡ [] }
    requires stay { 0 < taking.old.stays }
    requires stands { taking.old.other.items ≡ [] }
    requires leads { Leads world.old.ready (foot world.old.state records.old.items) world.old.state records.old.items }
    requires can { CanSwap world.old.ready (foot world.old.state records.old.items) records.old.items (deque_capacity records.old) (taking_view taking.old) }
    ensures exchanges { Exchanges world.old records.old.items (taking_view taking.old) world.new records.new.items (taking_view taking.new) }
    ensures kept { deque_capacity records.old ≤ deque_capacity records.new }
    ensures spare { taking.new.spare.items ≡ [] }
{
    world.maps_are_well();
    let mut record = take_out(records, taking.at);
    record.turn(world);
    match taking.spare.push(record) {
        Ok(()) => {}
        Err(_) => unreachable!(),
    }
    mem::swap(&mut taking.other, &mut taking.spare);
}

/// Puts the record that lies back in place, after the first `at`.
pub fn stand_in_place<K: MapKind>(
    world: &mut World<K>,
    records: &mut VecDeque<Record>,
    taking: &mut Taking,
)
    requires spare { taking.old.spare.items ≡ [] }
    requires stay { 0 < taking.old.stays }
    requires lies { taking.old.other.items ≢ [] }
    requires leads { Leads world.old.ready (foot world.old.state records.old.items) world.old.state records.old.items }
    requires can { CanSwap world.old.ready (foot world.old.state records.old.items) records.old.items (deque_capacity records.old) (taking_view taking.old) }
    ensures exchanges { Exchanges world.old records.old.items (taking_view taking.old) world.new records.new.items (taking_view taking.new) }
    ensures kept { deque_capacity records.old ≤ deque_capacity records.new }
    ensures spare { taking.new.spare.items ≡ [] }
{
    world.maps_are_well();
    match taking.other.pop() {
        Some(mut record) => {
            record.turn(world);
            put_in(records, taking.at, record);
        }
        None => unreachable!(),
    }
    mem::swap(&mut taking.other, &mut taking.spare);
}

// Takes the one after the first `at` out.
fn take_out<T>(list: &mut VecDeque<T>, at: usize) -> T
    requires { at < deque_len list.old }
    ensures others { list.new.items ≡ take at list.old.items ++ drop (at + 1) list.old.items }
    ensures one { list.old.items ≡ take at list.old.items ++ result ∷ drop (at + 1) list.old.items }
    ensures kept { deque_capacity list.new ≡ deque_capacity list.old }
{
    match list.remove(at) {
        Some(one) => one,
        None => unreachable!(),
    }
}

// Puts one after the first `at`.
fn put_in<T: Drop>(list: &mut VecDeque<T>, at: usize, one: T)
    requires within { at ≤ deque_len list.old }
    requires room { deque_len list.old < deque_capacity list.old }
    ensures items { list.new.items ≡ take at list.old.items ++ one ∷ drop at list.old.items }
    ensures kept { deque_capacity list.old ≤ deque_capacity list.new }
{
    match list.insert(at, one) {
        Ok(()) => {}
        Err(_) => unreachable!(),
    }
}
