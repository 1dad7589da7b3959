//! What is listed of the records in place.

ghost use Rattle.std.specs.Prelude.{◌≡◌, IfOk, map};
ghost use Rattle.journal_model.specs.Listed.{row_of};
ghost use Rattle.journal_record.specs.Records.{entries};

use crate::record::Record;
use host_words::NoMemory;
use journal_model::ChangeRow;
use std::alloc::Global;
use std::collections::VecDeque;

/// What is listed of each record, in order.
pub fn change_rows(alloc: Global, records: &VecDeque<Record>) -> Result<Vec<ChangeRow>, NoMemory>
    ensures { IfOk result (λ rows. rows.items ≡ map row_of (entries records.now.items)) }
{
    let mut rows = Vec::with_capacity(alloc, records.len())?;
    for record in records {
        rows.push(record.row()?)?;
    }
    Ok(rows)
}
