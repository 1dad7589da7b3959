//! The changes that a range has.

ghost use Rattle.std.specs.Prelude.{◌≡◌, ◌++◌, ◌∷◌, [], IfOk, OnOk, filter, map as each, reverse};
ghost use Rattle.kept_lines.specs.Chosen.{is_within, chosen};

use crate::range::SerialRange;
use bt_journal::Book;
use bt_mapkind::MapKind;
use host_words::NoMemory;
use journal_model::ChangeRow;
use std::alloc::Global;

// Adds a serial if it is in a range.
fn add(serials: &mut Vec<u64>, serial: u64, range: SerialRange) -> Result<(), NoMemory>
    ensures { OnOk result (serials.new.items ≡ serials.old.items ++ filter (is_within range) (serial ∷ [])) }
{
    if range.has(serial) {
        serials.push(serial)?;
    }
    Ok(())
}

// The serials of these changes that are in a range, the last one first.
fn serials_within(
    alloc: Global,
    rows: &[ChangeRow],
    range: SerialRange,
) -> Result<Vec<u64>, NoMemory>
    ensures { IfOk result (λ serials. serials.items ≡ filter (is_within range) (each (λ row. row.serial) (reverse rows.now))) }
{
    let mut serials = Vec::new(alloc);
    let mut rest = rows;
    'rows: while let Some((row, before)) = rest.split_last() {
        add(&mut serials, row.serial, range)?;
        rest = before;
    }
    Ok(serials)
}

/// The serials of the changes in force in a range, the last one first. Takes memory.
pub fn chosen<K: MapKind>(
    alloc: Global,
    book: &Book<K>,
    range: SerialRange,
) -> Result<Vec<u64>, NoMemory>
    ensures { IfOk result (λ serials. serials.items ≡ chosen range book.now.plain) }
{
    let list = book.list()?;
    serials_within(alloc, list.changes.as_slice(), range)
}
