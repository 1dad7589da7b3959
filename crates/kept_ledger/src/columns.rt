//! The columns of a row of an answer, and the row of an event that they show.

ghost use Rattle.std.specs.Prelude.{◌≡◌, IfOk, OnOk};
ghost use Rattle.sqlite_value.specs.Value.{owned};
ghost use Rattle.sqlite_value.specs.Order.{column};
ghost use Rattle.kept_ledger.specs.Columns.{number_in, text_in, blob_in, verb_in, kind_in, row_in};

use bt_mapkind::MapType;
use host_state::Listing;
use host_words::{NoMemory, Word};
use kept_event::{Row, Verb, type_of};
use sqlite::Row as Shown;
use sqlite::types::ValueRef;
use std::alloc::Global;

/// The value of a column; NULL if the row has not so many.
pub(crate) fn value_at(row: &Shown, at: usize) -> ValueRef<'_>
    ensures { owned result ≡ column row.now at }
{
    match row.get_ref(at) {
        Ok(value) => value,
        Err(_) => ValueRef::Null,
    }
}

/// The number of a column, from 0; none if the column has no integer, or the row has not so many.
pub fn number_at(row: &Shown, at: usize) -> Option<u64>
    ensures { result ≡ number_in (column row.now at) }
{
    match value_at(row, at) {
        ValueRef::Int(n) => Some(n.cast_unsigned()),
        ValueRef::Null | ValueRef::Real(_) | ValueRef::Text(_) | ValueRef::Blob(_) => None,
    }
}

fn text_at(alloc: Global, row: &Shown, at: usize) -> Result<Option<Word>, NoMemory>
    ensures { IfOk result (λ read. read ≡ text_in (column row.now at)) }
{
    match value_at(row, at) {
        ValueRef::Text(bytes) => Ok(Some(Word::new(alloc, bytes)?)),
        ValueRef::Null | ValueRef::Int(_) | ValueRef::Real(_) | ValueRef::Blob(_) => Ok(None),
    }
}

fn blob_at(alloc: Global, row: &Shown, at: usize) -> Result<Option<Listing<u8>>, NoMemory>
    ensures { IfOk result (λ read. read ≡ blob_in (column row.now at)) }
{
    match value_at(row, at) {
        ValueRef::Blob(bytes) => {
            let bytes = Vec::from_slice(alloc, bytes)?;
            Ok(Some(Listing::of(bytes)))
        }
        ValueRef::Null | ValueRef::Int(_) | ValueRef::Real(_) | ValueRef::Text(_) => Ok(None),
    }
}

fn verb_at(row: &Shown, at: usize) -> Option<Verb>
    ensures { result ≡ verb_in (column row.now at) }
{
    match value_at(row, at) {
        ValueRef::Text(word) => Verb::of(word),
        ValueRef::Null | ValueRef::Int(_) | ValueRef::Real(_) | ValueRef::Blob(_) => None,
    }
}

fn kind_at(row: &Shown, at: usize) -> Option<MapType>
    ensures { result ≡ kind_in (column row.now at) }
{
    match value_at(row, at) {
        ValueRef::Text(word) => type_of(word),
        ValueRef::Null | ValueRef::Int(_) | ValueRef::Real(_) | ValueRef::Blob(_) => None,
    }
}

// Fills in who did what to which map, and when in the book.
fn fill_operation(row: &mut Row, shown: &Shown)
    ensures { row.new ≡ record row.old {
      serial = number_in (column shown.now 1);
      prog = number_in (column shown.now 2);
      map = number_in (column shown.now 4);
      flag = number_in (column shown.now 7);
      at = number_in (column shown.now 8);
      size = number_in (column shown.now 9);
      op = number_in (column shown.now 10);
      target = number_in (column shown.now 11);
    } }
{
    row.serial = number_at(shown, 1);
    row.prog = number_at(shown, 2);
    row.map = number_at(shown, 4);
    row.flag = number_at(shown, 7);
    row.at = number_at(shown, 8);
    row.size = number_at(shown, 9);
    row.op = number_at(shown, 10);
    row.target = number_at(shown, 11);
}

// Fills in the attributes of a map.
fn fill_attributes(row: &mut Row, shown: &Shown)
    ensures { row.new ≡ record row.old {
      kind = kind_in (column shown.now 14);
      key_size = number_in (column shown.now 15);
      value_size = number_in (column shown.now 16);
      entries = number_in (column shown.now 17);
      flags = number_in (column shown.now 18);
    } }
{
    row.kind = kind_at(shown, 14);
    row.key_size = number_at(shown, 15);
    row.value_size = number_at(shown, 16);
    row.entries = number_at(shown, 17);
    row.flags = number_at(shown, 18);
}

// Fills in bytes and words.
fn fill_bytes(alloc: Global, row: &mut Row, shown: &Shown) -> Result<(), NoMemory>
    ensures { OnOk result (row.new ≡ record row.old {
      key = blob_in (column shown.now 5);
      value = blob_in (column shown.now 6);
      name = text_in (column shown.now 12);
      path = text_in (column shown.now 13);
      code = blob_in (column shown.now 19);
    }) }
{
    row.key = blob_at(alloc, shown, 5)?;
    row.value = blob_at(alloc, shown, 6)?;
    row.name = text_at(alloc, shown, 12)?;
    row.path = text_at(alloc, shown, 13)?;
    row.code = blob_at(alloc, shown, 19)?;
    Ok(())
}

/// The row of an event that is shown, by the columns of the table of events in their order, without the time; none if its verb is
/// no word for one.
///
/// # Errors
/// NoMemory if an allocation fails.
pub fn row_at(alloc: Global, shown: &Shown) -> Result<Option<Row>, NoMemory>
    ensures { IfOk result (λ read. read ≡ row_in shown.now) }
{
    let Some(verb) = verb_at(shown, 3) else {
        return Ok(None);
    };
    let mut row = Row::bare(verb);
    fill_operation(&mut row, shown);
    fill_attributes(&mut row, shown);
    fill_bytes(alloc, &mut row, shown)?;
    Ok(Some(row))
}
