//! Records in the order of their serials: the change of one serial among them.

ghost use Rattle.std.specs.Prelude.{◌≡◌, ◌<◌, ◌≤◌, IfOk, take, drop};
ghost use Rattle.std.specs.VecDeque.{deque_len};
ghost use Rattle.journal_model.specs.Replay.{Entry};
ghost use Rattle.journal_model.specs.Well.{Each};
ghost use Rattle.journal_record.specs.Records.{entries};
ghost use Rattle.journal_record.specs.Serials.{SerialsRise, change_in};

use crate::record::Record;
use host_state::Change;
use host_words::NoMemory;
use std::collections::VecDeque;

/// The change of a serial among records in the order of their serials, as it was recorded, by binary search; None if no
/// record has the serial. Takes memory for the change.
pub fn change_of(records: &VecDeque<Record>, serial: u64) -> Result<Option<Change>, NoMemory>
    requires { SerialsRise (entries records.now.items) }
    ensures { IfOk result (λ change. change ≡ change_in serial (entries records.now.items)) }
{
    let at = count_below(records, serial);
    if at == records.len() {
        return Ok(None);
    }
    let record = &records[at];
    if record.serial() != serial {
        return Ok(None);
    }
    let change = record.change(*records.allocator())?;
    Ok(Some(change))
}

// How many records have a smaller serial, by binary search.
fn count_below(records: &VecDeque<Record>, serial: u64) -> usize
    requires { SerialsRise (entries records.now.items) }
    ensures within { result ≤ deque_len records.now }
    ensures below { Each (λ (e : Entry). e.serial < serial) (take result (entries records.now.items)) }
    ensures others { Each (λ (e : Entry). serial ≤ e.serial) (drop result (entries records.now.items)) }
{
    let mut low = 0;
    let mut high = records.len();
    'search: while low < high {
        let middle = low + (high - low) / 2;
        if records[middle].serial() < serial {
            low = middle + 1;
        } else {
            high = middle;
        }
    }
    low
}
