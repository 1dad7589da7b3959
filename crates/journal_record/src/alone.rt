//! Whether a record can be taken out by one exchange.

ghost use Rattle.std.specs.Prelude.{◌≡◌, ◌<◌, ◌≤◌, false, MatchOption, drop};
ghost use Rattle.std.specs.VecDeque.{deque_len};
ghost use Rattle.journal_record.specs.Alone.{spares, is_alone_of, IsPlaceOf};
ghost use Rattle.journal_record.specs.Records.{entries};
ghost use Rattle.journal_model.specs.Force.{is_in_force};

use crate::record::Record;
use std::collections::VecDeque;

/// Whether the change of a serial is of one key of a map of bytes, and each later one is apart from it. It takes no memory.
pub fn is_alone(records: &VecDeque<Record>, serial: u64) -> bool
    ensures { result ≡ is_alone_of serial records.now.items }
{
    match place_of(records, serial) {
        Some(at) => {
            let one = &records[at];
            one.is_keyed() && spares_from(one, records, at + 1)
        }
        None => false,
    }
}

/// Where the first record of a serial stands.
pub fn place_of(records: &VecDeque<Record>, serial: u64) -> Option<usize>
    ensures within { MatchOption result (is_in_force serial (entries records.now.items) ≡ false) (λ at. at < deque_len records.now) }
    ensures place { MatchOption result (is_alone_of serial records.now.items ≡ false) (λ at. IsPlaceOf serial records.now.items at) }
{
    for index in 0..records.len() {
        if records[index].serial() == serial {
            return Some(index);
        }
    }
    None
}

// Whether each record from this place on is apart from an earlier one.
fn spares_from(one: &Record, records: &VecDeque<Record>, from: usize) -> bool
    requires { from ≤ deque_len records.now }
    ensures { result ≡ spares one.now (drop from records.now.items) }
{
    for index in from..records.len() {
        if !one.is_apart_from(&records[index]) {
            return false;
        }
    }
    true
}
