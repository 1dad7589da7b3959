//! Doing a change, and doing one again. Room for its record and its moment is made before, by `Timeline::append` and
//! `LineStage::new`.

ghost use Rattle.std.specs.Prelude.{◌≡◌, ◌<◌};
ghost use Rattle.std.specs.VecDeque.{deque_len, deque_capacity};
ghost use Rattle.host_undoing.specs.Answers.{HasBlank};
ghost use Rattle.journal_moments.specs.Calls.{Costs};
ghost use Rattle.journal_timeline.specs.Steps.{Does, DoesAgain};

use crate::stage::AgainFault;
use bt_mapkind::MapKind;
use host_state::{Change, Refusal, Reply};
use journal_moments::{Record, World};
use std::alloc::Global;
use std::collections::VecDeque;

/// Does a change, and keeps what takes it back. A refused change leaves the state as it was. Takes memory.
pub fn done<K: MapKind>(
    world: &mut World<K>,
    alloc: Global,
    serial: u64,
    change: &Change,
) -> Result<(Reply, Record), Refusal>
    ensures does { Does world.old serial change.now result world.new }
    ensures work { Costs world.old.state change.now result world.old.work world.new.work }
{
    let (reply, undoing) = match world.apply(change) {
        Ok(both) => both,
        Err(refusal) => return Err(refusal),
    };
    match Record::of(alloc, serial, change, &reply, undoing) {
        Ok(record) => {
            record.key_is_bytes();
            Ok((reply, record))
        }
        Err(mut undoing) => {
            world.turn(&mut undoing);
            Err(Refusal::NoMemory)
        }
    }
}

// Does a record's change again under its serial. Takes memory, and NoMemory leaves the state as it was.
fn done_again<K: MapKind>(
    world: &mut World<K>,
    alloc: Global,
    former: &Record,
) -> Result<(Reply, Record), Refusal>
    ensures does { Does world.old former.now.entry.serial former.now.entry.change result world.new }
    ensures work { Costs world.old.state former.now.entry.change result world.old.work world.new.work }
{
    let change = match former.change(alloc) {
        Ok(change) => change,
        Err(_) => return Err(Refusal::NoMemory),
    };
    done(world, alloc, former.serial(), &change)
}

/// Does a record's change again, and puts what is kept of it in place, if it answers as it did. Refused, it leaves the
/// state as it was. Takes memory, but none to put it in place.
pub fn reapply<K: MapKind>(
    world: &mut World<K>,
    former: &Record,
    records: &mut VecDeque<Record>,
) -> Result<(), AgainFault>
    requires has_box { HasBlank world.old.ready former.now.entry.change }
    requires room { deque_len records.old < deque_capacity records.old }
    ensures again { DoesAgain world.old records.old.items former.now.entry result world.new records.new.items }
    ensures kept { deque_capacity records.new ≡ deque_capacity records.old }
    ensures work { Costs world.old.state former.now.entry.change result world.old.work world.new.work }
{
    match done_again(world, *records.allocator(), former) {
        Ok((reply, mut again)) => {
            if !former.got(&reply) {
                again.turn(world);
                return Err(AgainFault::Differs(former.serial()));
            }
            records.push_back_reserved(again);
            Ok(())
        }
        Err(Refusal::NoMemory) => Err(AgainFault::NoMemory),
        Err(_) => Err(AgainFault::Differs(former.serial())),
    }
}
