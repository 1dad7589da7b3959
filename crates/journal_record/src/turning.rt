//! Turning records in place back, and bringing them back.

ghost use Rattle.std.specs.Prelude.{◌≡◌, ◌+◌, ◌-◌, ◌<◌, ◌≤◌, [], ◌∷◌, ◌++◌, take, drop, reverse, vec_len, vec_capacity};
ghost use Rattle.std.specs.VecDeque.{deque_len, deque_capacity};
ghost use Rattle.journal_record.specs.After.{state_after};
ghost use Rattle.journal_record.specs.Records.{entries, laid, stood, foot, Leads, AllLying, others};
ghost use Rattle.journal_model.specs.Force.{is_in_force};
ghost use Rattle.host_state.specs.Work.{CallsAtMost};

use crate::record::Record;
use bt_changes::World;
use bt_mapkind::MapKind;
use std::collections::VecDeque;

/// Turns the records past the first `at` back, the last one first. Each moves onto `into`.
pub fn lay_down<K: MapKind>(
    world: &mut World<K>,
    records: &mut VecDeque<Record>,
    at: usize,
    into: &mut Vec<Record>,
)
    requires within { at ≤ deque_len records.old }
    requires leads { let rs = drop at records.old.items in Leads world.old.ready (foot world.old.state rs) world.old.state rs }
    requires room { vec_len into.old + (deque_len records.old - at) ≤ vec_capacity into.old }
    ensures state { world.new.state ≡ foot world.old.state (drop at records.old.items) }
    ensures ready { world.new.ready ≡ world.old.ready }
    ensures records { records.new.items ≡ take at records.old.items }
    ensures kept { deque_capacity records.new ≡ deque_capacity records.old }
    ensures into { let rs = drop at records.old.items in
        into.new.items ≡ into.old.items ++ reverse (laid (foot world.old.state rs) rs) }
    ensures into_kept { vec_capacity into.old ≤ vec_capacity into.new }
    ensures work { CallsAtMost (deque_len records.old - at) world.old.work world.new.work }
{
    while records.len() > at {
        match records.pop_back() {
            Some(mut record) => {
                record.turn(world);
                match into.push(record) {
                    Ok(()) => {}
                    Err(_) => unreachable!(),
                }
            }
            None => unreachable!(),
        }
    }
}

/// Puts the records of `from` in place again, its last one first.
pub fn stand_up<K: MapKind>(
    world: &mut World<K>,
    from: &mut Vec<Record>,
    records: &mut VecDeque<Record>,
)
    requires lying { AllLying world.old.ready world.old.state (reverse from.old.items) }
    requires room { deque_len records.old + vec_len from.old ≤ deque_capacity records.old }
    ensures state { world.new.state ≡ state_after world.old.state (entries (reverse from.old.items)) }
    ensures ready { world.new.ready ≡ world.old.ready }
    ensures records { records.new.items ≡ records.old.items ++ stood world.old.state (reverse from.old.items) }
    ensures kept { deque_capacity records.old ≤ deque_capacity records.new }
    ensures from { from.new.items ≡ [] }
    ensures from_kept { vec_capacity from.new ≡ vec_capacity from.old }
    ensures work { CallsAtMost (vec_len from.old) world.old.work world.new.work }
{
    while let Some(mut record) = from.pop() {
        record.turn(world);
        records.push_back_reserved(record);
    }
}

/// Turns the one record past the first `at` back, if there is one.
pub fn lay_one<K: MapKind>(
    world: &mut World<K>,
    records: &mut VecDeque<Record>,
    at: usize,
) -> Option<Record>
    requires within { at ≤ deque_len records.old }
    requires one { deque_len records.old ≤ at + 1 }
    requires leads { let rs = drop at records.old.items in Leads world.old.ready (foot world.old.state rs) world.old.state rs }
    ensures state { world.new.state ≡ foot world.old.state (drop at records.old.items) }
    ensures ready { world.new.ready ≡ world.old.ready }
    ensures records { records.new.items ≡ take at records.old.items }
    ensures kept { deque_capacity records.new ≡ deque_capacity records.old }
    ensures result { let rs = drop at records.old.items in others result ≡ reverse (laid (foot world.old.state rs) rs) }
    ensures work { CallsAtMost 1 world.old.work world.new.work }
{
    if records.len() == at {
        return None;
    }
    match records.pop_back() {
        Some(mut record) => {
            record.turn(world);
            Some(record)
        }
        None => unreachable!(),
    }
}

/// Puts a record in place again.
pub fn stand_one<K: MapKind>(world: &mut World<K>, lying: Record, records: &mut VecDeque<Record>)
    requires lies { AllLying world.old.ready world.old.state (lying ∷ []) }
    requires room { deque_len records.old < deque_capacity records.old }
    ensures state { world.new.state ≡ state_after world.old.state (entries (lying ∷ [])) }
    ensures ready { world.new.ready ≡ world.old.ready }
    ensures records { records.new.items ≡ records.old.items ++ stood world.old.state (lying ∷ []) }
    ensures kept { deque_capacity records.old ≤ deque_capacity records.new }
    ensures work { CallsAtMost 1 world.old.work world.new.work }
{
    let mut record = lying;
    record.turn(world);
    records.push_back_reserved(record);
}

/// Whether one of these records has the serial.
pub fn has_serial(records: &VecDeque<Record>, serial: u64) -> bool
    ensures { result ≡ is_in_force serial (entries records.now.items) }
{
    for record in records {
        if record.serial() == serial {
            return true;
        }
    }
    false
}

/// Drops the first `count`. The others stay in order, and none of them moves.
pub fn drop_front<T: Drop>(list: &mut VecDeque<T>, count: usize)
    requires { count ≤ deque_len list.old }
    ensures items { list.new.items ≡ drop count list.old.items }
    ensures kept { deque_capacity list.new ≡ deque_capacity list.old }
{
    for _ in 0..count {
        let _ = list.pop_front();
    }
}
