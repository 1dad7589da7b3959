//! The memory for a moment, taken before its change is done: room in the lists of records and of moments. What else an undo
//! needs is reserved with the change's box, its record and its ids: docs/DECISIONS.md has a table of the places, under 'The
//! memory for an undo is reserved by the change'.

ghost use Rattle.std.specs.Prelude.{◌≡◌, ◌+◌, ◌≤◌, OnOk};
ghost use Rattle.std.specs.VecDeque.{deque_len, deque_capacity};

use crate::moment::Moment;
use host_words::NoMemory;
use journal_record::Record;
use std::collections::VecDeque;

/// Makes room for one more record and one more moment, so that none is taken after the change. Takes memory.
pub fn make_room(
    records: &mut VecDeque<Record>,
    moments: &mut VecDeque<Moment>,
) -> Result<(), NoMemory>
    ensures records { records.new.items ≡ records.old.items }
    ensures moments { moments.new.items ≡ moments.old.items }
    ensures records_kept { deque_capacity records.old ≤ deque_capacity records.new }
    ensures records_room { OnOk result (deque_len records.new + 1 ≤ deque_capacity records.new) }
    ensures moments_room { OnOk result (deque_len moments.new + 1 ≤ deque_capacity moments.new) }
{
    records.reserve(1)?;
    moments.reserve(1)?;
    Ok(())
}
