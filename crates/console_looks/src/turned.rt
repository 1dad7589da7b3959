//! What an undo takes back, and what a redo brings back.

ghost use Rattle.std.specs.Prelude.{◌≡◌, ◌++◌, map as each, take, IfOk};
ghost use Rattle.std.specs.Option.{option_map};
ghost use Rattle.journal_model.specs.Book.{force_of};
ghost use Rattle.bt_journal.specs.Serials.{change_in};
ghost use Rattle.console_looks.specs.Shown.{change_row};
ghost use Rattle.console_looks.specs.Turned.{told_moment, last_of, AreLast, undone_by, TakesBack};

use crate::deed::change_row;
use bt_journal::Book;
use bt_mapkind::MapKind;
use host_words::{NoMemory, Word};
use journal_model::ChangeRow;

/// How many moments are told at most, and the others are counted.
pub const MOST_TOLD: usize = 16;

/// A moment, as it is told.
#[derive(Drop)]
pub enum MomentRow {
    /// A change in force.
    Change(ChangeRow),
    /// A taking out, and the serial of the change that it took out.
    Without { serial: u64, out: u64 },
    /// A change that a later moment took out.
    TakenOut(u64),
}

/// Moments that are taken back or brought back, the oldest first: how many, and the first 16 of them.
#[derive(Drop)]
pub struct Turned {
    pub count: u64,
    pub rows: Vec<MomentRow>,
}

// A moment of a book.
fn told_moment<K: MapKind>(book: &Book<K>, row: (u64, Option<u64>)) -> Result<MomentRow, NoMemory>
    ensures { IfOk result (λ told. told ≡ told_moment (force_of book.now.plain) row) }
{
    let (serial, out) = row;
    if let Some(out) = out {
        return Ok(MomentRow::Without { serial, out });
    }
    match book.change_of(serial)? {
        Some(change) => Ok(MomentRow::Change(change_row(serial, &change)?)),
        None => Ok(MomentRow::TakenOut(serial)),
    }
}

// These moments of a book.
fn told_moments<K: MapKind>(
    book: &Book<K>,
    rows: &[(u64, Option<u64>)],
    told: &mut Vec<MomentRow>,
) -> Result<(), NoMemory>
    ensures { IfOk result (λ _. told.new.items ≡ told.old.items ++ each (told_moment (force_of book.now.plain)) rows.now) }
{
    for row in rows {
        let one = told_moment(book, *row)?;
        told.push(one)?;
    }
    Ok(())
}

// The first so many, or all if there are no more.
fn front<T>(rows: &[T], most: usize) -> &[T]
    ensures { result.now ≡ take most rows.now }
{
    let (front, _) = rows.split_at(rows.len().min(most));
    front
}

// The last so many, or all if there are no more.
fn back<T>(rows: &[T], count: u64) -> &[T]
    ensures { result.now ≡ last_of count rows.now }
{
    let (_, back) = rows.split_at((rows.len() as u64).saturating_sub(count) as usize);
    back
}

/// The last so many moments of a book, or all if there are no more. Takes memory.
pub fn last_moments<K: MapKind>(book: &Book<K>, count: u64) -> Result<Turned, NoMemory>
    ensures { IfOk result (AreLast count book.now.plain) }
{
    let rows = book.moment_rows()?;
    let last = back(rows.as_slice(), count);
    let mut told = Vec::new(*rows.allocator());
    told_moments(book, front(last, MOST_TOLD), &mut told)?;
    Ok(Turned {
        count: last.len() as u64,
        rows: told,
    })
}

/// What an undo to a mark takes back, or without a name an undo of the last moment; none if no mark of the name stands.
/// Takes memory.
pub fn taken_back<K: MapKind>(
    book: &Book<K>,
    mark: &Option<Word>,
) -> Result<Option<Turned>, NoMemory>
    ensures { IfOk result (TakesBack (undone_by mark.now book.now.plain) book.now.plain) }
{
    match mark {
        None => Ok(Some(last_moments(book, 1)?)),
        Some(name) => match book.moments_since(name) {
            Some(count) => Ok(Some(last_moments(book, count)?)),
            None => Ok(None),
        },
    }
}

/// The row of the change in force of a serial, which a taking out takes out; none if no change in force has it. Takes
/// memory.
pub fn taken_out<K: MapKind>(book: &Book<K>, serial: u64) -> Result<Option<ChangeRow>, NoMemory>
    ensures { IfOk result (λ row. row ≡ option_map (change_row serial) (change_in serial (force_of book.now.plain))) }
{
    match book.change_of(serial)? {
        Some(change) => Ok(Some(change_row(serial, &change)?)),
        None => Ok(None),
    }
}
