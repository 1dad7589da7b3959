//! The moments that took a change out.

ghost use Rattle.std.specs.Prelude.{◌≡◌, drop, map, IfOk};
ghost use Rattle.journal_moments.specs.Taken.{first_taken_up_to};

use crate::moment::Moment;
use host_words::NoMemory;
use std::alloc::Global;
use std::collections::VecDeque;

/// Of each moment its serial, and the serial of the change that it took out, if it took one out. Takes memory.
pub fn moment_rows(
    alloc: Global,
    moments: &VecDeque<Moment>,
) -> Result<Vec<(u64, Option<u64>)>, NoMemory>
    ensures { IfOk result (λ rows. rows.items ≡ map (λ m. (m.serial, m.out)) moments.now.items) }
{
    let mut rows = Vec::with_capacity(alloc, moments.len())?;
    for moment in moments {
        rows.push((moment.serial(), moment.out()))?;
    }
    Ok(rows)
}

/// The serial of the first of the moments from one on that took out a change whose serial is not above the last.
pub fn first_taking_out(moments: &VecDeque<Moment>, from: usize, last: u64) -> Option<u64>
    ensures { result ≡ first_taken_up_to last (drop from moments.now.items) }
{
    for next in from..moments.len() {
        if let Some(out) = moments[next].out() {
            if out <= last {
                return Some(moments[next].serial());
            }
        }
    }
    None
}
