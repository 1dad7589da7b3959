//! The commands on the journal done to a book.

ghost use Rattle.std.specs.Prelude.{◌≡◌};
ghost use Rattle.bt_syntax.specs.declared.journal.JournalCommand.TheVariants as commands;
ghost use Rattle.bt_console.specs.Commands.{journal_done, DoneUnlessRefused, IsUndoRedoOrForget};

use bt_mapkind::MapKind;
use bt_syntax::JournalCommand;
use bt_without::{Book, serial_of, without};
use console_answer::{Answer, Fault};
use host_words::Word;

fn mark<K: MapKind>(book: &mut Book<K>, name: Word) -> Answer
    ensures { DoneUnlessRefused book.old.plain
        (journal_done book.old.plain (commands.Mark name)) (book.new.plain, result) }
{
    let kept = match name.copy() {
        Ok(kept) => kept,
        Err(_) => return Answer::Refused(Fault::NoMemory),
    };
    match book.mark(kept) {
        Ok(()) => Answer::Marked(name),
        Err(fault) => Answer::Refused(Fault::of_mark(fault)),
    }
}

/// Gives up what came before a mark.
fn forget<K: MapKind>(book: &mut Book<K>, name: Word) -> Answer
    ensures { (book.new.plain, result) ≡ journal_done book.old.plain (commands.Forget name) }
{
    let forgot = book.forget(&name);
    Answer::of_forget(name, forgot)
}

/// Lists the changes in force and the marks.
fn list<K: MapKind>(book: &Book<K>) -> Answer
    ensures { DoneUnlessRefused book.now.plain (journal_done book.now.plain commands.List) (book.now.plain, result) }
{
    match book.list() {
        Ok(list) => Answer::Listed(list),
        Err(_) => Answer::Refused(Fault::NoMemory),
    }
}

/// Takes the change of a serial out of those in force.
fn take_out<K: MapKind>(book: &mut Book<K>, serial: u64) -> Answer
    ensures { DoneUnlessRefused book.old.plain
        (journal_done book.old.plain (commands.Without serial)) (book.new.plain, result) }
{
    Answer::of_taking_out(serial_of(without(book, serial)))
}

/// Does a command on the journal, and answers. An undo, a redo and a forgetting take no memory.
#[inline(never)]
pub fn run_journal<K: MapKind>(book: &mut Book<K>, command: JournalCommand) -> Answer
    ensures done { DoneUnlessRefused book.old.plain (journal_done book.old.plain command) (book.new.plain, result) }
    ensures sure { IsUndoRedoOrForget command → (book.new.plain, result) ≡ journal_done book.old.plain command }
{
    match command {
        JournalCommand::Mark(name) => mark(book, name),
        JournalCommand::Undo(Some(name)) => Answer::of_undo(book.undo_to(&name)),
        JournalCommand::Undo(None) => Answer::of_undo_last(book.undo_last()),
        JournalCommand::Redo => Answer::of_redo(book.redo()),
        JournalCommand::Forget(name) => forget(book, name),
        JournalCommand::List => list(book),
        JournalCommand::Without(serial) => take_out(book, serial),
    }
}
