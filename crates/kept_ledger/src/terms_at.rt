//! The terms that a row of an answer shows.

ghost use Rattle.std.specs.Prelude.{◌≡◌, IfOk};
ghost use Rattle.sqlite_value.specs.Order.{column};
ghost use Rattle.kept_ledger.specs.TermsRow.{id_in, limits_in, terms_told, terms_by, terms_shown, TellsAs};

use crate::columns::{number_at, value_at};
use crate::fault::ReadFault;
use crate::terms::Terms;
use crate::terms_row::{FORMAT, names_in};
use host_words::NoMemory;
use journal_model::Limits;
use sqlite::Row as Shown;
use sqlite::types::ValueRef;
use std::alloc::Global;

// The number of a column, if it can be an id.
fn id_at(row: &Shown, at: usize) -> Option<u32>
    ensures { result ≡ id_in (column row.now at) }
{
    match number_at(row, at) {
        Some(n) if n < 0x1_0000_0000 => Some(n as u32),
        _ => None,
    }
}

fn limits_at(row: &Shown) -> Option<Limits>
    ensures { result ≡ limits_in row.now }
{
    let journal = number_at(row, 1)?;
    let budget = number_at(row, 2)?;
    let last_id = id_at(row, 3)?;
    let last_serial = number_at(row, 4)?;
    Some(Limits {
        journal,
        budget,
        last_id,
        last_serial,
    })
}

// What a row of this format says.
fn terms_told(alloc: Global, row: &Shown) -> Result<Option<Terms>, NoMemory>
    ensures { IfOk result (λ read. read ≡ terms_told row.now) }
{
    let Some(limits) = limits_at(row) else {
        return Ok(None);
    };
    match value_at(row, 5) {
        ValueRef::Text(devices) => {
            let devices = names_in(alloc, devices)?;
            Ok(Terms::new(devices, limits))
        }
        ValueRef::Null | ValueRef::Int(_) | ValueRef::Real(_) | ValueRef::Blob(_) => Ok(None),
    }
}

fn terms_at(alloc: Global, row: &Shown) -> Result<Terms, ReadFault>
    ensures { TellsAs (terms_by row.now) result }
{
    match number_at(row, 0) {
        Some(format) if format > FORMAT => Err(ReadFault::LaterFormat(format)),
        Some(FORMAT) => match terms_told(alloc, row)? {
            Some(terms) => Ok(terms),
            None => Err(ReadFault::NoTerms),
        },
        _ => Err(ReadFault::NoTerms),
    }
}

/// The terms that the rows show, which are to be one.
pub(crate) fn terms_shown(alloc: Global, rows: &[Shown]) -> Result<Terms, ReadFault>
    ensures { TellsAs (terms_shown rows.now) result }
{
    match rows {
        [row] => terms_at(alloc, row),
        _ => Err(ReadFault::NoTerms),
    }
}
