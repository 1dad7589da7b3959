//! What is wrong with a command on the journal.

use bt_journal::Book;
use bt_mapkind::MapKind;
use console_answer::Fault;
use console_hint::Hint;
use host_words::NoMemory;

// Whether a change in force has this serial.
fn is_change_in_force<K: MapKind>(book: &Book<K>, serial: u64) -> Result<bool, NoMemory> {
    let change = book.change_of(serial)?;
    Ok(change.is_some())
}

// Whether a taking out is in force: each is a moment, and so is the change that it took out, which is not listed.
fn has_taken_out<K: MapKind>(book: &Book<K>) -> Result<bool, NoMemory> {
    let list = book.list()?;
    Ok((list.changes.as_slice().len() as u64) < book.moments())
}

// What gave up what was undone.
fn redo_hint<K: MapKind>(book: &Book<K>, serial: u64) -> Result<&'static str, NoMemory> {
    if is_change_in_force(book, serial)? {
        Ok("the change of this serial gave up what was undone")
    } else {
        Ok(
            "a taking out of this serial gave up what was undone, or a change that was taken out or forgotten since",
        )
    }
}

// What to know of a serial that is not in force, if it may be that of a taking out.
fn without_hint<K: MapKind>(book: &Book<K>) -> Result<Option<&'static str>, NoMemory> {
    if has_taken_out(book)? {
        Ok(Some(
            "`journal list` shows the changes in force with their serials; a taking out is none of them, and `journal undo` takes it back",
        ))
    } else {
        Ok(None)
    }
}

/// What is wrong with a command on the journal that was refused so.
///
/// # Errors
/// `NoMemory` if there is none to list the journal.
pub fn journal_hint<'a, K: MapKind>(
    book: &Book<K>,
    fault: Fault,
) -> Result<Option<Hint<'a>>, NoMemory> {
    match fault {
        Fault::RedoLost(serial) => Ok(Some(Hint::Plain(redo_hint(book, serial)?))),
        Fault::NotInForce => match without_hint(book)? {
            Some(text) => Ok(Some(Hint::Plain(text))),
            None => Ok(None),
        },
        _ => Ok(None),
    }
}
