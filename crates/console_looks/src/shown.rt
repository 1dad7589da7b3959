//! A change in force, with what stood at its place before and after it.

ghost use Rattle.std.specs.Prelude.{◌≡◌, ◌-◌, ◌<◌, ◌^◌, IfOk};
ghost use Rattle.console_looks.specs.Shown.{count_below, asked_after, moment_rows, shown_of, begins_after, shown_in};

use crate::deed::change_row;
use crate::place::question_of;
use bt_journal::Book;
use bt_mapkind::MapKind;
use host_state::{Ask, AskReply, Change};
use host_words::NoMemory;
use journal_model::ChangeRow;

/// A change in force, with what stood at its place right before and right after it was made; nothing is told of a place
/// where a change does not replace what stood there.
#[derive(Drop)]
pub struct ChangeShown {
    /// Its serial, who made it, and what it did.
    pub row: ChangeRow,
    pub change: Change,
    pub before: Option<AskReply>,
    pub after: Option<AskReply>,
}

/// What there is to show of a serial.
#[derive(Drop)]
pub enum Showing {
    /// The change in force of the serial.
    Found(ChangeShown),
    /// No change in force has it: it was undone or taken out, is that of a taking out, or was given to nothing yet.
    NotInForce,
    /// The oldest moment has this serial, a greater one: the change has joined the base, if it was in force then.
    Older(u64),
}

// How many moments have a smaller serial.
fn count_below(rows: &[(u64, Option<u64>)], serial: u64) -> usize
    ensures { result ≡ count_below serial rows.now }
{
    rows.iter().filter(|row| row.0 < serial).count()
}

// Whether the oldest moment has a greater serial.
fn begins_after(rows: &[(u64, Option<u64>)], serial: u64) -> Showing
    ensures { result ≡ begins_after serial rows.now }
{
    match rows.first() {
        Some((oldest, _)) if serial < *oldest => Showing::Older(*oldest),
        _ => Showing::NotInForce,
    }
}

// The answer to a question after an undo to so many moments.
fn ask_after<K: MapKind>(
    book: &mut Book<K>,
    count: u64,
    question: &Option<Ask>,
) -> Result<Option<AskReply>, NoMemory>
    ensures answer { IfOk result (λ answer. answer ≡ asked_after count book.old.plain question.now) }
    ensures same { book.new.plain ≡ book.old.plain }
{
    match question {
        Some(question) => {
            let answer = book.ask_after(count, question)?;
            Ok(Some(answer))
        }
        None => Ok(None),
    }
}

// A change of this serial, with what stood at its place before and after it, if so many moments came before.
fn show_change<K: MapKind>(
    book: &mut Book<K>,
    serial: u64,
    change: Change,
    earlier: u64,
) -> Result<ChangeShown, NoMemory>
    requires { earlier < 2 ^ 64 - 1 }
    ensures shown { earlier ≡ count_below serial (moment_rows book.old.plain) → IfOk result (λ it. it ≡ shown_of serial book.old.plain change) }
    ensures same { book.new.plain ≡ book.old.plain }
{
    let row = change_row(serial, &change)?;
    let question = question_of(&change)?;
    let before = ask_after(book, earlier, &question)?;
    let after = ask_after(book, earlier + 1, &question)?;
    Ok(ChangeShown {
        row,
        change,
        before,
        after,
    })
}

/// What there is to show of a serial: its change in force, with what stood at its place as it was made and then, even if an
/// earlier change has been taken out since. The book is as it was. Takes memory.
pub fn show<K: MapKind>(book: &mut Book<K>, serial: u64) -> Result<Showing, NoMemory>
    ensures shown { IfOk result (λ it. it ≡ shown_in serial book.old.plain) }
    ensures same { book.new.plain ≡ book.old.plain }
{
    let rows = book.moment_rows()?;
    let change = book.change_of(serial)?;
    match change {
        Some(change) => {
            let earlier = count_below(rows.as_slice(), serial) as u64;
            let shown = show_change(book, serial, change, earlier)?;
            Ok(Showing::Found(shown))
        }
        None => Ok(begins_after(rows.as_slice(), serial)),
    }
}
